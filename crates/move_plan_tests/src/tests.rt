//! Borders and floods, compared with a plain count over the places of a box.
ghost use Rattle.std.specs.Prelude.{◌≡◌, ◌<◌, ◌≤◌, ◌≤ℤ◌, neg_ℤ, pos, All, length};
ghost use Rattle.zpl_region.specs.Dim.{HasStep, IsUpTo};
ghost use Rattle.zpl_region.specs.Region.{IsRegion};
ghost use Rattle.grid_layout.specs.Grid.{processors_of};

use grid_layout::{ArrayBox, Grid, Layout};
use move_plan::{border_piece, flood_piece, flood_source};
use std::alloc::Global;
use std::process::Abort;
use zpl_arrays::border_source;
use zpl_nums::Border;
use zpl_region::{Dim, Region, Vec3};
/// What stands for a dimension past the rank.
const PADDING: Dim = Dim::Range {
    lo: 0,
    hi: 0,
    step: 1,
    align: 0,
};

/// The numbers from `lo` to `hi`.
fn line(lo: i8, hi: i8) -> Dim
    ensures { HasStep result }
{
    Dim::Range {
        lo: i64::from(lo),
        hi: i64::from(hi),
        step: 1,
        align: i64::from(lo),
    }
}

/// The plane of two dimensions.
fn plane(rt: &impl Abort, a: Dim, b: Dim) -> Region
    requires first { HasStep a }
    requires second { HasStep b }
    ensures region { IsRegion result }
    ensures rank { result.rank ≡ 2 }
{
    Region::new(2, [a, b, PADDING]).expect(rt, "a small region")
}

/// Whether a dimension has a coordinate; that of a flood dimension is 0.
fn has(dim: Dim, x: i64) -> bool {
    match dim {
        Dim::Range { lo, hi, .. } => lo <= x && x <= hi,
        Dim::Flood => x == 0,
    }
}

/// Whether a coordinate stands among the `d` positions beside a dimension.
fn is_beside(dim: Dim, d: i64, x: i64) -> bool {
    match dim {
        Dim::Range { hi, .. } if d > 0 => hi < x && x <= hi.wrapping_add(d),
        Dim::Range { lo, .. } if d < 0 => lo.wrapping_add(d) <= x && x < lo,
        _ => has(dim, x),
    }
}

/// Whether a coordinate lies between the bounds of a block; the position of a flood dimension does.
fn lies(dim: Dim, first: i64, last: i64, x: i64) -> bool {
    match dim {
        Dim::Range { .. } => first <= x && x <= last,
        Dim::Flood => true,
    }
}

/// Whether the first two coordinates lie in a block.
fn is_in(region: &Region, block: &(Vec3, Vec3), x: Vec3) -> bool {
    lies(region.dims[0], block.0[0], block.1[0], x[0])
        && lies(region.dims[1], block.0[1], block.1[1], x[1])
}

/// A layout of a square from -3 to 8.
fn layout(rt: &impl Abort, alloc: Global, factors: &[u32]) -> Layout
    requires some { 1 ≤ length factors.now }
    requires few { length factors.now ≤ 3 }
{
    let grid = Grid::new(factors).expect(rt, "a grid");
    let side = Dim::Range {
        lo: -3,
        hi: 8,
        step: 1,
        align: -3,
    };
    let array = ArrayBox {
        shape: Region {
            rank: 2,
            dims: [side, side, PADDING],
        },
        low: [0, 0, 0],
        high: [0, 0, 0],
    };
    Layout::new(alloc, grid, &[array]).expect(rt, "a layout")
}

/// Compares a border's piece with a count.
fn compare_border(
    rt: &impl Abort,
    layout: &Layout,
    kind: Border,
    region: &Region,
    d: Vec3,
    pair: (u32, u32),
)
    requires region { IsRegion region.now }
    requires rank { region.now.rank ≡ 2 }
    requires shift { All (IsUpTo 31) d }
    requires owner { pair.0 < processors_of layout.now.grid }
    requires receiver { pair.1 < processors_of layout.now.grid }
{
    let (from, to) = pair;
    let piece = border_piece(layout, kind, region, d, from, to);
    let own = layout.own_block(2, to);
    let other = layout.own_block(2, from);
    for i in -4..=9_i8 {
        for j in -4..=9_i8 {
            let (x, y) = (i64::from(i), i64::from(j));
            let source = border_source(kind, region, d, [x, y, 0]);
            let target = is_beside(region.dims[0], d[0], x) && is_beside(region.dims[1], d[1], y);
            let want = target && is_in(region, &own, [x, y, 0]) && is_in(region, &other, source);
            let found = has(piece.dims[0], x) && has(piece.dims[1], y);
            assert!(rt; found == want);
        }
    }
}

/// Compares the borders of a square on a grid, in all directions.
fn borders_on(rt: &impl Abort, alloc: Global, kind: Border, factors: &[u32])
    requires some { 1 ≤ length factors.now }
    requires few { length factors.now ≤ 3 }
{
    let layout = layout(rt, alloc, factors);
    let region = plane(rt, line(0, 4), line(1, 5));
    let count = layout.grid().count();
    for d in [
        [3, 0, 0],
        [-2, 0, 0],
        [0, 1, 5],
        [0, -4, 0],
        [2, -3, 0],
        [-1, 1, 0],
    ] {
        for from in 0..count {
            for to in 0..count {
                compare_border(rt, &layout, kind, &region, d, (from, to));
            }
        }
    }
}

#[test]
fn borders(rt: HostRuntime) {
    borders_on(&rt, rt.alloc(), Border::Wrap, &[1]);
    borders_on(&rt, rt.alloc(), Border::Wrap, &[3]);
    borders_on(&rt, rt.alloc(), Border::Wrap, &[3, 5]);
    borders_on(&rt, rt.alloc(), Border::Reflect, &[1]);
    borders_on(&rt, rt.alloc(), Border::Reflect, &[3]);
    borders_on(&rt, rt.alloc(), Border::Reflect, &[3, 5]);
}

/// Compares a flood's piece with a count.
fn compare_flood(
    rt: &impl Abort,
    layout: &Layout,
    target: &Region,
    source: &Region,
    pair: (u32, u32),
)
    requires target { IsRegion target.now }
    requires target_rank { target.now.rank ≡ 2 }
    requires source { IsRegion source.now }
    requires source_rank { source.now.rank ≡ 2 }
    requires owner { pair.0 < processors_of layout.now.grid }
    requires receiver { pair.1 < processors_of layout.now.grid }
{
    let (from, to) = pair;
    let piece = flood_piece(layout, target, source, from, to);
    let own = layout.own_block(2, to);
    let other = layout.own_block(2, from);
    for x in -4..=9_i64 {
        for y in -4..=9_i64 {
            let at = flood_source(source, [x, y, 0]);
            let wanted = has(target.dims[0], x) && has(target.dims[1], y);
            let want = wanted && is_in(target, &own, [x, y, 0]) && is_in(source, &other, at);
            let found = has(piece.dims[0], x) && has(piece.dims[1], y);
            assert!(rt; found == want);
        }
    }
}

/// Compares a flood over all pairs of processors.
fn floods_on(rt: &impl Abort, alloc: Global, target: &Region, source: &Region, factors: &[u32])
    requires target { IsRegion target.now }
    requires target_rank { target.now.rank ≡ 2 }
    requires source { IsRegion source.now }
    requires source_rank { source.now.rank ≡ 2 }
    requires some { 1 ≤ length factors.now }
    requires few { length factors.now ≤ 3 }
{
    let layout = layout(rt, alloc, factors);
    let count = layout.grid().count();
    for from in 0..count {
        for to in 0..count {
            compare_flood(rt, &layout, target, source, (from, to));
        }
    }
}

#[test]
fn floods(rt: HostRuntime) {
    let whole = plane(&rt, line(0, 6), line(-2, 3));
    let row = plane(&rt, line(4, 4), line(-2, 3));
    let point = plane(&rt, line(0, 0), line(2, 2));
    let rows = plane(&rt, Dim::Flood, line(-2, 3));
    let (one, four, many) = ([1], [2, 2], [4, 5]);
    for factors in [&one[..], &four[..], &many[..]] {
        if 1 <= factors.len() && factors.len() <= 3 {
            floods_on(&rt, rt.alloc(), &whole, &row, factors);
            floods_on(&rt, rt.alloc(), &whole, &point, factors);
            floods_on(&rt, rt.alloc(), &whole, &whole, factors);
            floods_on(&rt, rt.alloc(), &rows, &row, factors);
        }
    }
}

/// The source of a border tuple on a line.
fn line_source(region: &Region, kind: Border, d: i8, x: i8) -> i64
    requires { IsRegion region.now }
{
    border_source(kind, region, [i64::from(d), 0, 0], [i64::from(x), 0, 0])[0]
}

#[test]
fn sources_of_a_border_row(rt: HostRuntime) {
    let region = Region::new(1, [line(1, 3), PADDING, PADDING]).expect(&rt, "a small region");
    for (kind, d, x, want) in [
        (Border::Reflect, -3, -2, 3),
        (Border::Reflect, -3, -1, 2),
        (Border::Reflect, -3, 0, 1),
        (Border::Reflect, 3, 4, 3),
        (Border::Wrap, 3, 4, 1),
        (Border::Wrap, 3, 6, 3),
        (Border::Wrap, -3, -2, 1),
        (Border::Wrap, 0, 2, 2),
    ] {
        assert!(rt; line_source(&region, kind, d, x) == want);
    }
}
