//! What is asked of a processor, and what it answers.
ghost use Rattle.std.specs.Prelude.{◌≡◌, ◌<◌, ◌≤◌, ◌++◌, All, OnErr, OnOk, Some, length, take};
ghost use Rattle.std.specs.Prelude.{vec_len};
ghost use Rattle.zpl_region.specs.Region.{members};
ghost use Rattle.grid_layout.specs.Grid.{processors_of};
ghost use Rattle.grid_layout.specs.Layout.{held_box_of};
ghost use Rattle.grid_layout.specs.Piece.{IsRange};
ghost use Rattle.remap_plan.specs.Request.{answers_of, asks_of, home_of, rank_of, storage_of};
ghost use Rattle.remap_plan.specs.Tuples.{tuples_in};

use crate::homes::{is_home, place_of, tuple};
use grid_layout::Layout;
use std::alloc::{AllocError, Global};

/// Appends words. Where memory lacks, the list is left with its first words, so many.
fn append(into: &mut Vec<i64>, words: &[i64], before: usize) -> Result<(), AllocError>
    requires { before ≤ vec_len into.old }
    ensures ok { OnOk result (into.new.items ≡ into.old.items ++ words.now) }
    ensures err { OnErr result (into.new.items ≡ take before into.old.items) }
{
    if into.extend_from_slice(words).is_err() {
        into.truncate(before);
        return Err(AllocError);
    }
    Ok(())
}

/// Appends the wanted tuples whose home is `to`, in their order. Where memory lacks, the list stays
/// as it was.
pub fn asks(
    _alloc: Global,
    layout: &Layout,
    array: u32,
    to: u32,
    wanted: &[i64],
    into: &mut Vec<i64>,
) -> Result<(), AllocError>
    requires { array < length layout.now.boxes }
    ensures ok { OnOk result (into.new.items
        ≡ into.old.items ++ asks_of layout.now array to wanted.now) }
    ensures err { OnErr result (into.new.items ≡ into.old.items) }
{
    let before = into.len();
    let rank = usize::from(layout.array_box(array).shape.rank);
    for i in 0..wanted.len() / rank {
        let tuple = &wanted[i * rank..i * rank + rank];
        if is_home(layout, array, to, tuple) {
            append(into, tuple, before)?;
        }
    }
    Ok(())
}

/// Appends the values at the tuples that `p` is asked for, in their order; `values` are those of
/// its held box. Where memory lacks, the list stays as it was.
pub fn answers(
    _alloc: Global,
    layout: &Layout,
    array: u32,
    p: u32,
    values: &[i64],
    asked: &[i64],
    into: &mut Vec<i64>,
) -> Result<(), AllocError>
    requires array { array < length layout.now.boxes }
    requires processor { p < processors_of layout.now.grid }
    requires ranges { All IsRange (storage_of layout.now array).dims }
    requires held { length values.now ≡ length (members (held_box_of layout.now array p)) }
    requires homes { All (λ t. home_of layout.now array t ≡ Some p)
        (tuples_in (rank_of layout.now array) asked.now) }
    ensures ok { OnOk result (into.new.items ≡ into.old.items
        ++ answers_of layout.now array p values.now asked.now) }
    ensures err { OnErr result (into.new.items ≡ into.old.items) }
{
    let before = into.len();
    let rank = usize::from(layout.array_box(array).shape.rank);
    let held = layout.held_box(array, p);
    for i in 0..asked.len() / rank {
        let x = tuple(&asked[i * rank..i * rank + rank]);
        append(into, &[values[place_of(&held, &x)]], before)?;
    }
    Ok(())
}
