//! The totals of a block's lines.
ghost use Rattle.std.specs.Prelude.{◌≡◌, ◌≤◌, ◌++◌, OnErr, OnOk, length};
ghost use Rattle.zpl_region.specs.Region.{IsRegion, members};
ghost use Rattle.scan_plan.specs.Line.{line_dim, totals_of, value_at};

use crate::lines::{Lines, line_dim};
use std::alloc::{AllocError, Global};
use zpl_nums::{Fold, join, unit};
use zpl_region::Region;

/// Appends the total of each line of a block: the fold over its values, those aside that are masked
/// out and so `None`. Lines run along a dimension, counted from 1, or along the last one where
/// `along` is 0, and stand in the row-major order of their first tuples. Without memory `into`
/// stays as it was.
pub fn totals(
    alloc: Global,
    fold: Fold,
    along: u8,
    block: &Region,
    values: &[Option<i64>],
    into: &mut Vec<i64>,
) -> Result<(), AllocError>
    requires block { IsRegion block.now }
    requires along { along ≤ block.now.rank }
    requires filled { length values.now ≡ length (members block.now) }
    ensures ok { OnOk result (into.new.items ≡ into.old.items
        ++ totals_of fold (line_dim block.now.rank along) block.now
        (value_at block.now values.now)) }
    ensures err { OnErr result (into.new.items ≡ into.old.items) }
{
    if values.is_empty() {
        return Ok(());
    }
    let lines = Lines::of(block, line_dim(block.rank, along));
    let count = values.len() / lines.along as usize;
    let mut totals = vec![in alloc; unit(fold); count]?;
    for (i, value) in values.iter().enumerate() {
        if let Some(value) = *value {
            let line = lines.number(i as u64) as usize;
            totals[line] = join(fold, totals[line], value);
        }
    }
    into.extend_from_slice(&totals)
}
