//! Pieces, compared with a plain count over the places of a box.
ghost use Rattle.std.specs.Prelude.{◌≡◌, ◌<◌, ◌≤◌, length};
ghost use Rattle.zpl_region.specs.Dim.{HasStep};
ghost use Rattle.zpl_region.specs.Region.{IsRegion};
ghost use Rattle.grid_layout.specs.Grid.{processors_of};
ghost use Rattle.grid_layout.specs.Layout.{IsArrayBox};

use grid_layout::{ArrayBox, Grid, Layout};
use std::alloc::Global;
use std::process::Abort;
use zpl_region::{Dim, Region, Vec3};

/// What stands for a dimension past the rank.
const PADDING: Dim = Dim::Range {
    lo: 0,
    hi: 0,
    step: 1,
    align: 0,
};

/// The numbers from -2 to 5.
const LINE: Dim = Dim::Range {
    lo: -2,
    hi: 5,
    step: 1,
    align: -2,
};

/// Whether a dimension has a coordinate; that of a flood dimension is 0.
fn has(dim: Dim, x: i64) -> bool {
    match dim {
        Dim::Range {
            lo,
            hi,
            step,
            align,
        } => lo <= x && x <= hi && step > 0 && x.wrapping_sub(align).wrapping_rem(step) == 0,
        Dim::Flood => x == 0,
    }
}

/// Whether a region has a tuple.
fn has_tuple(region: &Region, x: Vec3) -> bool {
    has(region.dims[0], x[0]) && has(region.dims[1], x[1]) && has(region.dims[2], x[2])
}

/// How many places there are from -2 to 5 in each dimension up to the rank.
fn places(rank: u8) -> i16 {
    match rank {
        1 => 8,
        2 => 64,
        _ => 512,
    }
}

/// The `i`-th of them.
fn place(rank: u8, i: i16) -> Vec3 {
    let i = i64::from(i);
    match rank {
        1 => [i % 8 - 2, 0, 0],
        2 => [i / 8 % 8 - 2, i % 8 - 2, 0],
        _ => [i / 64 - 2, i / 8 % 8 - 2, i % 8 - 2],
    }
}

/// The index from which a shift leads to a place; components past the rank count as 0.
fn index(rank: u8, shift: Vec3, y: Vec3) -> Vec3 {
    [
        y[0].wrapping_sub(shift[0]),
        if rank > 1 {
            y[1].wrapping_sub(shift[1])
        } else {
            y[1]
        },
        if rank > 2 {
            y[2].wrapping_sub(shift[2])
        } else {
            y[2]
        },
    ]
}

/// Whether a tuple lies in a block.
fn lies(block: &(Vec3, Vec3), x: Vec3) -> bool {
    block.0[0] <= x[0]
        && x[0] <= block.1[0]
        && block.0[1] <= x[1]
        && x[1] <= block.1[1]
        && block.0[2] <= x[2]
        && x[2] <= block.1[2]
}

/// Compares what `to` needs of `from` with a count over places.
fn compare_pair(rt: &impl Abort, layout: &Layout, region: &Region, shift: Vec3, from: u32, to: u32)
    requires array { 0 < length layout.now.boxes }
    requires region { IsRegion region.now }
    requires owner { from < processors_of layout.now.grid }
    requires receiver { to < processors_of layout.now.grid }
{
    let piece = layout.piece(0, from, to, region, shift);
    let held = layout.held_box(0, to);
    let own = layout.own_block(region.rank, to);
    let other = layout.own_block(region.rank, from);
    for i in 0..places(region.rank) {
        let y = place(region.rank, i);
        let x = index(region.rank, shift, y);
        let needed = has_tuple(region, x) && lies(&own, x) && has_tuple(&held, y);
        let want = needed && lies(&other, y);
        assert!(rt; has_tuple(&piece, y) == want);
    }
}

/// Compares the pieces of all pairs of processors.
fn compare(rt: &impl Abort, layout: &Layout, region: &Region, shift: Vec3)
    requires array { 0 < length layout.now.boxes }
    requires region { IsRegion region.now }
{
    let count = layout.grid().count();
    for to in 0..count {
        for from in 0..count {
            compare_pair(rt, layout, region, shift, from, to);
        }
    }
}

/// An array of each rank, read by seven places in each direction.
fn array(rank: u8) -> ArrayBox
    ensures { IsArrayBox result }
{
    match rank {
        1 => ArrayBox {
            shape: Region {
                rank: 1,
                dims: [LINE, PADDING, PADDING],
            },
            low: [7, 7, 7],
            high: [7, 7, 7],
        },
        2 => ArrayBox {
            shape: Region {
                rank: 2,
                dims: [LINE, LINE, PADDING],
            },
            low: [7, 7, 7],
            high: [7, 7, 7],
        },
        _ => ArrayBox {
            shape: Region {
                rank: 3,
                dims: [LINE, LINE, LINE],
            },
            low: [7, 7, 7],
            high: [7, 7, 7],
        },
    }
}

/// Each `step`-th number from -1 to 4 in each dimension.
fn region(rt: &impl Abort, rank: u8, step: u8) -> Region
    requires { 1 ≤ step }
    ensures { IsRegion result }
{
    let dim = Dim::Range {
        lo: -1,
        hi: 4,
        step: i64::from(step),
        align: 0,
    };
    let made = match rank {
        1 => Region::new(1, [dim, PADDING, PADDING]),
        2 => Region::new(2, [dim, dim, PADDING]),
        _ => Region::new(3, [dim, dim, dim]),
    };
    made.expect(rt, "a small region")
}

/// The shifts that are compared.
const SHIFTS: [i64; 15] = [-7, -6, -5, -4, -3, -2, -1, 0, 1, 2, 3, 4, 5, 6, 7];

/// A shift along one dimension, counted from 0, with small ones along the others.
fn shift_along(dimension: u8, shift: i64, other: i64) -> Vec3 {
    match dimension {
        0 => [shift, other, -1],
        1 => [other, shift, -1],
        _ => [other, -1, shift],
    }
}

/// Compares all shifts along one dimension.
fn compare_along(rt: &impl Abort, layout: &Layout, region: &Region, dimension: u8, other: i64)
    requires array { 0 < length layout.now.boxes }
    requires region { IsRegion region.now }
{
    for shift in SHIFTS {
        compare(rt, layout, region, shift_along(dimension, shift, other));
    }
}

/// Compares all shifts along one dimension, with steps up to 3, on a grid.
fn compare_steps(rt: &impl Abort, alloc: Global, rank: u8, dimension: u8, factors: &[u32])
    requires some { 1 ≤ length factors.now }
    requires few { length factors.now ≤ 3 }
{
    let grid = Grid::new(factors).expect(rt, "a grid");
    let layout = Layout::new(alloc, grid, &[array(rank)]).expect(rt, "a layout");
    for step in 1..4_u8 {
        let region = region(rt, rank, step);
        compare_along(rt, &layout, &region, dimension, i64::from(step));
    }
}

/// Compares all shifts along each dimension on a grid.
fn compare_on(rt: &impl Abort, alloc: Global, rank: u8, factors: &[u32])
    requires some { 1 ≤ length factors.now }
    requires few { length factors.now ≤ 3 }
{
    for dimension in 0..rank {
        compare_steps(rt, alloc, rank, dimension, factors);
    }
}

#[test]
fn pieces_of_lines(rt: HostRuntime) {
    compare_on(&rt, rt.alloc(), 1, &[1]);
    compare_on(&rt, rt.alloc(), 1, &[5]);
    compare_on(&rt, rt.alloc(), 1, &[2, 3]);
    compare_on(&rt, rt.alloc(), 1, &[2, 2, 2]);
    compare_on(&rt, rt.alloc(), 1, &[8, 8]);
}

#[test]
fn pieces_of_planes(rt: HostRuntime) {
    compare_on(&rt, rt.alloc(), 2, &[1]);
    compare_on(&rt, rt.alloc(), 2, &[5]);
    compare_on(&rt, rt.alloc(), 2, &[2, 3]);
    compare_on(&rt, rt.alloc(), 2, &[2, 2, 2]);
    compare_on(&rt, rt.alloc(), 2, &[8, 8]);
}

#[test]
fn pieces_of_spaces(rt: HostRuntime) {
    compare_on(&rt, rt.alloc(), 3, &[1]);
    compare_on(&rt, rt.alloc(), 3, &[5]);
    compare_on(&rt, rt.alloc(), 3, &[2, 3]);
    compare_on(&rt, rt.alloc(), 3, &[2, 2, 2]);
}

#[test]
fn pieces_of_spaces_on_64_processors(rt: HostRuntime) {
    compare_steps(&rt, rt.alloc(), 3, 0, &[8, 8]);
}

#[test]
fn pieces_of_rows_on_64_processors(rt: HostRuntime) {
    compare_steps(&rt, rt.alloc(), 3, 1, &[8, 8]);
}

#[test]
fn pieces_of_columns_on_64_processors(rt: HostRuntime) {
    compare_steps(&rt, rt.alloc(), 3, 2, &[8, 8]);
}

/// Whether a dimension has a coordinate from `first` to `last`; a flood dimension has its position
/// in each block.
fn meets(dim: Dim, first: i64, last: i64) -> bool {
    if let Dim::Flood = dim {
        return true;
    }
    for x in -20..=20_i64 {
        if has(dim, x) && first <= x && x <= last {
            return true;
        }
    }
    false
}

/// Compares what `to` needs of `from` of an array with flood columns.
fn compare_flood_pair(
    rt: &impl Abort,
    layout: &Layout,
    region: &Region,
    shift: i64,
    from: u32,
    to: u32,
)
    requires array { 0 < length layout.now.boxes }
    requires region { IsRegion region.now }
    requires rank { region.now.rank ≡ 2 }
    requires owner { from < processors_of layout.now.grid }
    requires receiver { to < processors_of layout.now.grid }
{
    let piece = layout.piece(0, from, to, region, [shift, 3, 0]);
    let held = layout.held_box(0, to);
    let own = layout.own_block(2, to);
    let other = layout.own_block(2, from);
    let same_columns = own.0[1] == other.0[1] && own.1[1] == other.1[1];
    let some_columns = meets(region.dims[1], own.0[1], own.1[1]);
    for row in 0..10_u8 {
        let y = i64::from(row).wrapping_sub(3);
        let x = y.wrapping_sub(shift);
        let row = has(region.dims[0], x) && own.0[0] <= x && x <= own.1[0];
        let needed = row && some_columns && has(held.dims[0], y);
        let want = needed && same_columns && other.0[0] <= y && y <= other.1[0];
        let found = has(piece.dims[0], y) && has(piece.dims[1], 0);
        assert!(rt; found == want);
    }
}

/// An array with flood columns, which stands beside a square.
fn flood_array() -> ArrayBox
    ensures { IsArrayBox result }
{
    ArrayBox {
        shape: Region {
            rank: 2,
            dims: [LINE, Dim::Flood, PADDING],
        },
        low: [2, 0, 0],
        high: [7, 0, 0],
    }
}

/// Compares an array with flood columns on a grid, for one region.
fn compare_flood_on(rt: &impl Abort, alloc: Global, region: &Region, factors: &[u32])
    requires region { IsRegion region.now }
    requires rank { region.now.rank ≡ 2 }
    requires some { 1 ≤ length factors.now }
    requires few { length factors.now ≤ 3 }
{
    let grid = Grid::new(factors).expect(rt, "a grid");
    let layout = Layout::new(alloc, grid, &[flood_array(), array(2)]).expect(rt, "a layout");
    let count = layout.grid().count();
    for shift in SHIFTS {
        for to in 0..count {
            for from in 0..count {
                compare_flood_pair(rt, &layout, region, shift, from, to);
            }
        }
    }
}

/// Compares an array with flood columns on all grids.
fn compare_floods(rt: &impl Abort, alloc: Global, columns: Dim)
    requires { HasStep columns }
{
    let region = Region::new(2, [LINE, columns, PADDING]).expect(rt, "a small region");
    assert!(rt; region.rank == 2);
    compare_flood_on(rt, alloc, &region, &[1]);
    compare_flood_on(rt, alloc, &region, &[5]);
    compare_flood_on(rt, alloc, &region, &[2, 3]);
    compare_flood_on(rt, alloc, &region, &[2, 2, 2]);
    compare_flood_on(rt, alloc, &region, &[8, 8]);
}

#[test]
fn pieces_of_flood_dimensions(rt: HostRuntime) {
    compare_floods(&rt, rt.alloc(), Dim::Flood);
    compare_floods(&rt, rt.alloc(), LINE);
    compare_floods(&rt, rt.alloc(), PADDING);
}
