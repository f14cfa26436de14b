//! Floods: where their values come from.
ghost use Rattle.std.specs.Prelude.{◌≡◌, ◌<◌, ◌≤◌};
ghost use Rattle.zpl_arrays.specs.of_zpl_region.Ends.{single_of};
ghost use Rattle.zpl_arrays.specs.of_zpl_region.Dim.{IsDim};
ghost use Rattle.zpl_arrays.specs.of_zpl_region.Region.{IsRegion};
ghost use Rattle.zpl_arrays.specs.Flood.{flood_source};
ghost use Rattle.grid_layout.specs.Grid.{processors_of};
ghost use Rattle.move_plan.specs.FloodPiece.{dim_flood_piece, flood_piece_of};

use grid_layout::Layout;
use zpl_arrays::zpl_region::{Dim, Region, Vec3};

/// What stands for a dimension past the rank.
const PADDING: Dim = Dim::Range {
    lo: 0,
    hi: 0,
    step: 1,
    align: 0,
};

/// The coordinate of a dimension that has just one.
fn single(dim: Dim) -> Option<i64>
    requires { IsDim dim }
    ensures { result ≡ single_of dim }
{
    let line = Region {
        rank: 1,
        dims: [dim, PADDING, PADDING],
    };
    line.single(1)
}

/// The tuple from which a flood takes the value at the tuple `x`: in each dimension the source's
/// coordinate where that has a single one, and else the tuple's.
pub fn flood_source(source: &Region, x: Vec3) -> Vec3
    requires { IsRegion source.now }
    ensures { result ≡ flood_source source.now x }
{
    let [planes, rows, columns] = source.dims;
    let [x, y, z] = x;
    [
        single(planes).unwrap_or(x),
        single(rows).unwrap_or(y),
        single(columns).unwrap_or(z),
    ]
}

/// Of the coordinates `own`, those whose source lies from `first` to `last`: all or none where it
/// is a single one, and else `still`.
fn piece_of(single: Option<i64>, first: i64, last: i64, own: Dim, still: Dim) -> Dim
    ensures { result ≡ dim_flood_piece single first last own still }
{
    match single {
        Some(y) if first <= y && y <= last => own,
        Some(_) => Dim::Range {
            lo: 1,
            hi: 0,
            step: 1,
            align: 1,
        },
        None => still,
    }
}

/// The part of the target in the own block of `to` whose sources `from` owns. Where both are flood
/// these are the sources of the processors with the block of `to`.
pub fn flood_piece(layout: &Layout, target: &Region, source: &Region, from: u32, to: u32) -> Region
    requires target { IsRegion target.now }
    requires source { IsRegion source.now }
    requires ranks { target.now.rank ≡ source.now.rank }
    requires owner { from < processors_of layout.now.grid }
    requires receiver { to < processors_of layout.now.grid }
    ensures piece { result ≡ flood_piece_of layout.now target.now source.now from to }
    ensures region { IsRegion result }
{
    let rank = target.rank;
    let blocks = layout.blocks();
    let own = blocks.owned(to, to, target);
    let still = blocks.owned(from, to, &own);
    let (first, last) = blocks.own_block(rank, from);
    let [planes, rows, columns] = source.dims;
    Region {
        rank,
        dims: [
            piece_of(
                single(planes),
                first[0],
                last[0],
                own.dims[0],
                still.dims[0],
            ),
            piece_of(single(rows), first[1], last[1], own.dims[1], still.dims[1]),
            piece_of(
                single(columns),
                first[2],
                last[2],
                own.dims[2],
                still.dims[2],
            ),
        ],
    }
}
