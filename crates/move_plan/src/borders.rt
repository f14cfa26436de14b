//! Border statements: which of a receiver's indices take their values from one owner.
ghost use Rattle.std.specs.Prelude.{◌≡◌, ◌<◌, All};
ghost use Rattle.zpl_arrays.specs.of_zpl_region.Dim.{IsDim, IsDimWithinLimit, IsUpTo, dim_outside_of};
ghost use Rattle.zpl_arrays.specs.of_zpl_region.Region.{IsRegion, components, outside_of};
ghost use Rattle.grid_layout.specs.Grid.{processors_of};
ghost use Rattle.move_plan.specs.BorderPiece.{border_piece_of, dim_border_piece, target_bounds};

use grid_layout::{Layout, components, part};
use zpl_arrays::border_coordinate;
use zpl_arrays::zpl_nums::Border;
use zpl_arrays::zpl_region::{Dim, Region, Vec3};

/// The `d` positions beside the bounds of a dimension.
fn outside(dim: Dim, d: i64) -> Dim
    requires dim { IsDim dim }
    requires shift { IsUpTo 31 d }
    ensures { result ≡ dim_outside_of d dim }
{
    let Dim::Range {
        lo,
        hi,
        step,
        align,
    } = dim
    else {
        return dim;
    };
    if d > 0 {
        return Dim::Range {
            lo: hi + 1,
            hi: hi + d,
            step,
            align,
        };
    }
    if d < 0 {
        return Dim::Range {
            lo: lo + d,
            hi: lo - 1,
            step,
            align,
        };
    }
    dim
}

/// `d of R`, which may pass the limit of regions.
fn targets(region: &Region, d: &Vec3) -> Region
    requires region { IsRegion region.now }
    requires shift { All (IsUpTo 31) d.now }
    ensures { result ≡ outside_of d.now region.now }
{
    let [u, v, w] = components(region.rank, d);
    let [planes, rows, columns] = region.dims;
    Region {
        rank: region.rank,
        dims: [outside(planes, u), outside(rows, v), outside(columns, w)],
    }
}

/// From where to where the coordinates lie whose sources lie from `first` to `last`.
fn target_bounds(kind: Border, dim: Dim, d: i64, first: i64, last: i64) -> (i64, i64)
    requires dim { IsDim dim }
    requires shift { IsUpTo 31 d }
    requires low { IsUpTo 41 first }
    requires high { IsUpTo 41 last }
    ensures { result ≡ target_bounds kind d dim first last }
{
    match kind {
        Border::Wrap => (
            border_coordinate(kind, dim, -d, first),
            border_coordinate(kind, dim, -d, last),
        ),
        Border::Reflect if d == 0 => (first, last),
        Border::Reflect => (
            border_coordinate(kind, dim, d, last),
            border_coordinate(kind, dim, d, first),
        ),
    }
}

/// Of the coordinates `own`, those whose sources lie from `first` to `last`; `still` in a flood
/// dimension.
fn piece_of(kind: Border, dim: Dim, d: i64, block: (i64, i64), own: Dim, still: Dim) -> Dim
    requires dim { IsDim dim }
    requires shift { IsUpTo 31 d }
    requires low { IsUpTo 41 block.0 }
    requires high { IsUpTo 41 block.1 }
    ensures { result ≡ dim_border_piece kind d dim block.0 block.1 own still }
{
    if let Dim::Flood = dim {
        return still;
    }
    let (lo, hi) = target_bounds(kind, dim, d, block.0, block.1);
    part(own, lo, hi)
}

/// The part of `d of R` in the own block of `to` whose sources `from` owns. In a flood dimension
/// these are the sources of the processors with the block of `to`.
pub fn border_piece(
    layout: &Layout,
    kind: Border,
    region: &Region,
    d: Vec3,
    from: u32,
    to: u32,
) -> Region
    requires region { IsRegion region.now }
    requires shift { All (IsUpTo 31) d }
    requires owner { from < processors_of layout.now.grid }
    requires receiver { to < processors_of layout.now.grid }
    ensures piece { result ≡ border_piece_of layout.now kind region.now d from to }
    ensures region { All IsDimWithinLimit region.now.dims → IsRegion result }
{
    let rank = region.rank;
    let blocks = layout.blocks();
    let own = blocks.owned(to, to, &targets(region, &d));
    let still = blocks.owned(from, to, &own);
    let (first, last) = blocks.own_block(rank, from);
    let [u, v, w] = components(rank, &d);
    let [planes, rows, columns] = region.dims;
    Region {
        rank,
        dims: [
            piece_of(
                kind,
                planes,
                u,
                (first[0], last[0]),
                own.dims[0],
                still.dims[0],
            ),
            piece_of(
                kind,
                rows,
                v,
                (first[1], last[1]),
                own.dims[1],
                still.dims[1],
            ),
            piece_of(
                kind,
                columns,
                w,
                (first[2], last[2]),
                own.dims[2],
                still.dims[2],
            ),
        ],
    }
}
