//! A remap over four processors.
ghost use Rattle.std.specs.Prelude.{◌≡◌, ◌<◌, All, length};
ghost use Rattle.zpl_region.specs.Region.{members};
ghost use Rattle.grid_layout.specs.Grid.{processors_of};
ghost use Rattle.grid_layout.specs.Layout.{IsArrayBox, held_box_of};
ghost use Rattle.grid_layout.specs.Piece.{IsRange};
ghost use Rattle.remap_plan.specs.Request.{storage_of};

use grid_layout::{ArrayBox, Grid, Layout};
use remap_plan::{answers, asks, home, what_is_asked_is_at_home};
use std::alloc::{AllocError, Global};
use std::process::Abort;
use zpl_region::{Dim, Region};

/// A square from 1 to 4.
fn square() -> ArrayBox
    ensures sound { IsArrayBox result }
    ensures ranges { All IsRange result.shape.dims }
    ensures rank { result.shape.rank ≡ 2 }
{
    let side = Dim::Range {
        lo: 1,
        hi: 4,
        step: 1,
        align: 1,
    };
    let padding = Dim::Range {
        lo: 0,
        hi: 0,
        step: 1,
        align: 0,
    };
    ArrayBox {
        shape: Region {
            rank: 2,
            dims: [side, side, padding],
        },
        low: [0, 0, 0],
        high: [0, 0, 0],
    }
}

/// What a processor answers to what is asked of it.
fn answered(
    alloc: Global,
    layout: &Layout,
    p: u32,
    values: &[i64],
    wanted: &[i64],
) -> Result<Vec<i64>, AllocError>
    requires array { 0 < length layout.now.boxes }
    requires processor { p < processors_of layout.now.grid }
    requires ranges { All IsRange (storage_of layout.now 0).dims }
    requires held { length values.now ≡ length (members (held_box_of layout.now 0 p)) }
{
    what_is_asked_is_at_home();
    let _array = layout.array_box(0);
    let mut asked = Vec::new(alloc);
    asks(alloc, layout, 0, p, wanted, &mut asked)?;
    let mut found = Vec::new(alloc);
    answers(alloc, layout, 0, p, values, &asked, &mut found)?;
    Ok(found)
}

/// Compares what a processor answers with the wanted values.
fn compare(rt: &impl Abort, alloc: Global, layout: &Layout, p: u32, values: &[i64], want: &[i64])
    requires array { 0 < length layout.now.boxes }
    requires processor { p < processors_of layout.now.grid }
    requires ranges { All IsRange (storage_of layout.now 0).dims }
{
    let held = layout.held_box(0, p);
    let held = Region::new(held.rank, held.dims).expect(rt, "a small box");
    assert!(rt; values.len() as u64 == held.count());
    let wanted = [2, 2, 4, 1, 0, 3, 1, 2, 3, 4, 2, 2];
    let found = answered(alloc, layout, p, values, &wanted).expect(rt, "memory");
    assert!(rt; found.as_slice() == want);
}

#[test]
fn remaps_over_two_by_two(rt: HostRuntime) {
    let grid = Grid::new(&[2, 2]).expect(&rt, "a grid");
    let layout = Layout::new(rt.alloc(), grid, &[square()]).expect(&rt, "a layout");
    compare(
        &rt,
        rt.alloc(),
        &layout,
        0,
        &[11, 12, 21, 22],
        &[22, 12, 22],
    );
    compare(&rt, rt.alloc(), &layout, 1, &[13, 14, 23, 24], &[]);
    compare(&rt, rt.alloc(), &layout, 2, &[31, 32, 41, 42], &[41]);
    compare(&rt, rt.alloc(), &layout, 3, &[33, 34, 43, 44], &[34]);
    assert!(rt; home(&layout, 0, &[3, 1]) == Some(2));
    assert!(rt; home(&layout, 0, &[5, 1]) == None);
}
