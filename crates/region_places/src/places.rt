//! Places of coordinates and of tuples, counted from 0.
ghost use Rattle.std.specs.Prelude.{◌≡◌, ◌+◌, ◌<◌, ◌≤◌, ◌^◌, length};
ghost use Rattle.zpl_arrays.specs.Array.{place_along, place_among};
ghost use Rattle.zpl_arrays.specs.of_zpl_region.Dim.{IsCoordinate, IsDim};
ghost use Rattle.zpl_arrays.specs.of_zpl_region.Ends.{coordinate_count};
ghost use Rattle.zpl_arrays.specs.of_zpl_region.Region.{IsMember, IsRegion, members};

use zpl_arrays::zpl_region::{Dim, Region, Vec3};

/// What stands for a dimension past the rank.
const PADDING: Dim = Dim::Range {
    lo: 0,
    hi: 0,
    step: 1,
    align: 0,
};

/// How many coordinates a dimension has, whatever its step.
fn counted(dim: Dim) -> u64
    requires { IsDim dim }
    ensures size { result ≡ coordinate_count dim }
    ensures few { result ≤ 2 ^ 41 + 1 }
{
    Region {
        rank: 1,
        dims: [dim, PADDING, PADDING],
    }
    .count()
}

/// How many coordinates a dimension has. The one position of a flood dimension counts.
pub fn size(dim: Dim) -> u64
    requires { IsDim dim }
    ensures size { result ≡ coordinate_count dim }
    ensures few { result ≤ 2 ^ 41 + 1 }
{
    let Dim::Range { lo, hi, step, .. } = dim else {
        return 1;
    };
    if step != 1 {
        return counted(dim);
    }
    if hi < lo {
        return 0;
    }
    hi.abs_diff(lo) + 1
}

/// The place of a coordinate among those of its dimension.
fn place_along(dim: Dim, x: i64) -> u64
    requires dim { IsDim dim }
    requires coordinate { IsCoordinate dim x }
    ensures place { result ≡ place_along dim x }
    ensures below { result < coordinate_count dim }
{
    let Dim::Range { step, .. } = dim else {
        return 0;
    };
    let line = Region {
        rank: 1,
        dims: [dim, PADDING, PADDING],
    };
    match line.least() {
        Some(least) => x.abs_diff(least[0]) / step.unsigned_abs(),
        None => 0,
    }
}

/// The place of a tuple in the row-major order of its region.
pub fn place(region: &Region, x: &Vec3) -> u64
    requires region { IsRegion region.now }
    requires member { IsMember region.now x.now }
    requires fits { length (members region.now) < 2 ^ 64 }
    ensures place { result ≡ place_among region.now.dims x.now }
    ensures below { result < length (members region.now) }
{
    let [planes, rows, columns] = region.dims;
    let [x, y, z] = *x;
    let line = place_along(planes, x) * size(rows) + place_along(rows, y);
    line * size(columns) + place_along(columns, z)
}
