//! Where the values of borders, floods and reads that wrap round come from, coordinate by
//! coordinate, and for borders tuple by tuple.
ghost use Rattle.std.specs.Prelude.{◌≡◌, ◌<◌, ◌≤◌, ◌≤ℤ◌, All, pos};
ghost use Rattle.std.specs.Int.{int_rem_euclid};
ghost use Rattle.zpl_region.specs.Dim.{IsDim, IsUpTo};
ghost use Rattle.zpl_region.specs.Ends.{coordinate_count};
ghost use Rattle.zpl_region.specs.Region.{IsRegion, dim_at};
ghost use Rattle.zpl_arrays.specs.Around.{dim_around};
ghost use Rattle.zpl_arrays.specs.Border.{border_source, dim_border_source};
ghost use Rattle.zpl_arrays.specs.Flood.{dim_flood_source};

use zpl_nums::Border;
use zpl_region::{Dim, Region, Vec3};

/// The coordinate from which `A@^d` reads at `x`, in a dimension of A's home box that has
/// coordinates: `x + d`, moved by extents into the box. In a flood dimension it is `x`.
pub fn around_coordinate(home: Dim, d: i64, x: i64) -> i64
    requires dim { IsDim home }
    requires some { 0 < coordinate_count home }
    requires shift { IsUpTo 41 d }
    requires near { IsUpTo 41 x }
    ensures { result ≡ dim_around d home x }
{
    match home {
        Dim::Range { lo, hi, .. } => lo + remainder(x + d - lo, hi - lo + 1),
        Dim::Flood => x,
    }
}

/// The remainder of `z` by `extent`, from 0 to `extent - 1`.
fn remainder(z: i64, extent: i64) -> i64
    requires { pos 1 ≤ℤ extent }
    ensures { result ≡ int_rem_euclid z extent }
{
    z.rem_euclid(extent)
}

/// The coordinate from which a border statement on `d of R` takes the value at `x`, in a
/// dimension of R: an extent away for `Wrap`, mirrored at the near bound for `Reflect`. Where `d`
/// is 0 it is `x`.
pub fn border_coordinate(kind: Border, dim: Dim, d: i64, x: i64) -> i64
    requires dim { IsDim dim }
    requires near { IsUpTo 41 x }
    ensures { result ≡ dim_border_source kind d dim x }
{
    let Dim::Range { lo, hi, .. } = dim else {
        return x;
    };
    if d > 0 {
        match kind {
            Border::Wrap => x - (hi - lo + 1).max(0),
            Border::Reflect => 2 * hi + 1 - x,
        }
    } else if d < 0 {
        match kind {
            Border::Wrap => x + (hi - lo + 1).max(0),
            Border::Reflect => 2 * lo - 1 - x,
        }
    } else {
        x
    }
}

/// The tuple from which a border statement takes the value at the tuple `x` of `d of R`. Components
/// of `d` past the rank count as 0.
pub fn border_source(kind: Border, region: &Region, d: Vec3, x: Vec3) -> Vec3
    requires region { IsRegion region.now }
    requires near { All (IsUpTo 41) x }
    ensures { result ≡ border_source kind region.now d x }
{
    let [u, v, w] = region.components(d);
    let [planes, rows, columns] = region.dims;
    let [x, y, z] = x;
    [
        border_coordinate(kind, planes, u, x),
        border_coordinate(kind, rows, v, y),
        border_coordinate(kind, columns, w, z),
    ]
}

/// The coordinate from which a flood takes the value at `x`, in the `k`-th dimension of its
/// source, `k` counted from 1: the source's where it has a single one, and else `x`.
pub fn flood_coordinate(source: &Region, k: u8, x: i64) -> i64
    requires region { IsRegion source.now }
    requires above { 1 ≤ k }
    requires below { k ≤ source.now.rank }
    ensures { result ≡ dim_flood_source (dim_at source.now k) x }
{
    source.single(k).unwrap_or(x)
}
