//! Partial folds over a block.
ghost use Rattle.std.specs.Prelude.{◌≡◌, ◌↔◌, ◌≤◌, ◌<◌, ◌^◌, ◌++◌, All, IsTrue, OnErr, OnOk};
ghost use Rattle.std.specs.Prelude.{filter, length, map};
ghost use Rattle.region_places.specs.of_zpl_nums.Fold.{folded};
ghost use Rattle.grid_layout.specs.of_zpl_region.Dim.{IsCoordinate, IsDim};
ghost use Rattle.grid_layout.specs.of_zpl_region.Hull.{all_from};
ghost use Rattle.grid_layout.specs.of_zpl_region.Region.{IsMember, IsRegion, members};
ghost use Rattle.region_places.specs.of_zpl_arrays.Array.{element};
ghost use Rattle.region_places.specs.of_zpl_arrays.Conformity.{is_collapsed};
ghost use Rattle.region_places.specs.of_zpl_arrays.Fold.{agrees};
ghost use Rattle.reduce_plan.specs.Partial.{dim_reached, partials_of};

use grid_layout::zpl_region::{Dim, Region, Vec3};
use region_places::zpl_nums::{Fold, join, unit};
use region_places::{place, size};
use std::alloc::{AllocError, Global};

/// What stands for a dimension past the rank.
const PADDING: Dim = Dim::Range {
    lo: 0,
    hi: 0,
    step: 1,
    align: 0,
};

/// Whether a partial reduction with this dimension of the target collapses it.
fn is_collapsed(target: Dim) -> bool
    requires { IsDim target }
    ensures { result ≡ is_collapsed target }
{
    match target {
        Dim::Range { .. } => size(target) == 1,
        Dim::Flood => true,
    }
}

/// Whether `x` is a coordinate of the dimension.
fn has(dim: Dim, x: i64) -> bool
    requires { IsDim dim }
    ensures { IsTrue result ↔ IsCoordinate dim x }
{
    Region {
        rank: 1,
        dims: [dim, PADDING, PADDING],
    }
    .contains([x, 0, 0])
}

/// The integers from `lo` to `hi`.
fn all_from(lo: i64, hi: i64) -> Dim
    ensures { result ≡ all_from lo hi }
{
    Dim::Range {
        lo,
        hi,
        step: 1,
        align: lo,
    }
}

/// The coordinates of a block's dimension that count for `x`: all of them where the target
/// collapses the dimension, and else `x` alone, if it is one.
fn dim_reached(target: Dim, dim: Dim, x: i64) -> Dim
    requires target { IsDim target }
    requires dim { IsDim dim }
    ensures reached { result ≡ dim_reached target dim x }
    ensures dim { IsDim result }
{
    if is_collapsed(target) {
        return dim;
    }
    if has(dim, x) {
        all_from(x, x)
    } else {
        all_from(1, 0)
    }
}

/// The tuples of a block that agree with `x` in each dimension that the target doesn't collapse.
fn reached(target: &Region, block: &Region, x: &Vec3) -> Region
    requires target { IsRegion target.now }
    requires block { IsRegion block.now }
    requires ranks { target.now.rank ≡ block.now.rank }
    ensures tuples { members result ≡ filter (agrees target.now.dims x.now) (members block.now) }
    ensures region { IsRegion result }
{
    let [planes, rows, columns] = target.dims;
    let [a, b, c] = block.dims;
    let [x, y, z] = *x;
    Region {
        rank: block.rank,
        dims: [
            dim_reached(planes, a, x),
            dim_reached(rows, b, y),
            dim_reached(columns, c, z),
        ],
    }
}

/// The fold of the block's values at some of its tuples.
fn fold_at(fold: Fold, block: &Region, values: &[i64], tuples: &Region) -> i64
    requires block { IsRegion block.now }
    requires filled { length values.now ≡ length (members block.now) }
    requires tuples { IsRegion tuples.now }
    requires inside { All (IsMember block.now) (members tuples.now) }
    requires few { length (members tuples.now) ≤ length (members block.now) }
    ensures { result ≡ folded fold (map (element
        (record { storage = block.now; values = values.now })) (members tuples.now)) }
{
    let mut so_far = unit(fold);
    for i in 0..tuples.count() {
        if let Some(t) = tuples.nth(i) {
            so_far = join(fold, so_far, values[place(block, &t) as usize]);
        }
    }
    so_far
}

/// Appends the partial folds of a block of the source: for each index of `within` that agrees with
/// some tuple of the block in each dimension that the target doesn't collapse, in row-major order,
/// the fold of the values at these tuples. Without memory `into` stays as it was.
pub fn partials(
    alloc: Global,
    fold: Fold,
    target: &Region,
    within: &Region,
    block: &Region,
    values: &[i64],
    into: &mut Vec<i64>,
) -> Result<(), AllocError>
    requires target { IsRegion target.now }
    requires within { IsRegion within.now }
    requires block { IsRegion block.now }
    requires ranks { target.now.rank ≡ block.now.rank }
    requires filled { length values.now ≡ length (members block.now) }
    ensures ok { OnOk result (into.new.items ≡ into.old.items
        ++ partials_of fold target.now within.now
        (record { storage = block.now; values = values.now })) }
    ensures err { OnErr result (into.new.items ≡ into.old.items) }
{
    let mut folds = Vec::new(alloc);
    let mut next = within.least();
    while let Some(x) = next {
        let tuples = reached(target, block, &x);
        if !tuples.is_empty() {
            folds.push(fold_at(fold, block, values, &tuples))?;
        }
        next = within.next_after(x);
    }
    into.extend_from_slice(&folds)
}
