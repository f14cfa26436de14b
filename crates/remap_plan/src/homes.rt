//! Which processor has a tuple.
ghost use Rattle.std.specs.Prelude.{◌≡◌, ◌<◌, ◌≤◌, ◌^◌, All, length, pos, slice_index_or};
ghost use Rattle.zpl_region.specs.Dim.{HasBounds, IsCoordinate};
ghost use Rattle.zpl_region.specs.Hull.{IsBoxed};
ghost use Rattle.zpl_region.specs.Region.{IsMember, IsRegion};
ghost use Rattle.zpl_arrays.specs.Array.{place_along, place_among};
ghost use Rattle.remap_plan.specs.Request.{home_of, is_home, rank_of};
ghost use Rattle.remap_plan.specs.Tuples.{filled};

use grid_layout::{Layout, size};
use zpl_region::{Dim, Region, Vec3};

/// A component of a tuple, 0 past its rank.
fn component(x: &[i64], place: usize) -> i64
    ensures { result ≡ slice_index_or x.now place (pos 0) }
{
    x.get(place).copied().unwrap_or(0)
}

/// The tuple, with 0 for each component past its rank.
pub(crate) fn tuple(x: &[i64]) -> Vec3
    requires { length x.now ≤ 3 }
    ensures { result ≡ filled x.now }
{
    [component(x, 0), component(x, 1), component(x, 2)]
}

/// The processor that owns the tuple `x`, which has as many components as the array's rank; `None`
/// where the array's storage hasn't the tuple.
pub fn home(layout: &Layout, array: u32, x: &[i64]) -> Option<u32>
    requires array { array < length layout.now.boxes }
    requires whole { length x.now ≡ rank_of layout.now array }
    ensures { result ≡ home_of layout.now array x.now }
{
    let shape = layout.array_box(array).shape;
    let x = tuple(x);
    if shape.contains(x) {
        Some(layout.owner(shape.rank, x))
    } else {
        None
    }
}

/// Whether the home of the tuple `x` is `p`.
pub(crate) fn is_home(layout: &Layout, array: u32, p: u32, x: &[i64]) -> bool
    requires array { array < length layout.now.boxes }
    requires whole { length x.now ≡ rank_of layout.now array }
    ensures { result ≡ is_home layout.now array p x.now }
{
    match home(layout, array, x) {
        Some(q) => q == p,
        None => false,
    }
}

/// The place of a coordinate among those of a dimension of a box.
fn place_along(dim: Dim, x: i64) -> u64
    requires boxed { IsBoxed dim }
    requires bounds { HasBounds dim }
    requires member { IsCoordinate dim x }
    ensures { result ≡ place_along dim x }
{
    match dim {
        Dim::Range { lo, .. } => x.abs_diff(lo),
        Dim::Flood => 0,
    }
}

/// The place of a tuple of a box in row-major order.
pub(crate) fn place_of(held: &Region, x: &Vec3) -> usize
    requires region { IsRegion held.now }
    requires boxed { All IsBoxed held.now.dims }
    requires member { IsMember held.now x.now }
    requires fits { place_among held.now.dims x.now < 2 ^ 64 }
    ensures { result ≡ place_among held.now.dims x.now }
{
    let [planes, rows, columns] = held.dims;
    let [x, y, z] = *x;
    let line = place_along(planes, x) * size(rows) + place_along(rows, y);
    (line * size(columns) + place_along(columns, z)) as usize
}
