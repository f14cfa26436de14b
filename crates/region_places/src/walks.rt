//! Steps over the tuples of a region, quick where all dimensions are ranges of step 1.
ghost use Rattle.std.specs.Prelude.{◌≡◌, IfSome, find, length};
ghost use Rattle.zpl_arrays.specs.of_zpl_region.Ends.{least_member};
ghost use Rattle.zpl_arrays.specs.of_zpl_region.Region.{IsRegion, is_before, members};
ghost use Rattle.region_places.specs.Walk.{HasAmong, IsOnes};

use zpl_arrays::zpl_region::{Dim, Region, Vec3};

/// Sees that there are three dimensions.
fn see_three(_dims: &[Dim; 3])
    ensures { length _dims.now ≡ 3 }
{}

/// The bounds of a range of step 1.
fn ones(dim: &Dim) -> Option<(i64, i64)>
    ensures { IfSome result (λ bounds. IsOnes dim.now bounds.0 bounds.1) }
{
    let Dim::Range { lo, hi, step, .. } = *dim else {
        return None;
    };
    if step == 1 {
        return Some((lo, hi));
    }
    None
}

/// The bounds of a range of step 1 that has the coordinate `x`.
fn ones_around(dim: &Dim, x: i64) -> Option<(i64, i64)>
    ensures { IfSome result (λ bounds. HasAmong dim.now bounds.0 bounds.1 x) }
{
    let Some((lo, hi)) = ones(dim) else {
        return None;
    };
    if x < lo {
        return None;
    }
    if hi < x {
        return None;
    }
    Some((lo, hi))
}

/// The first tuple in row-major order, or `None` where there is none.
#[inline(always)]
pub fn least(region: &Region) -> Option<Vec3>
    requires { IsRegion region.now }
    ensures { result ≡ least_member region.now }
{
    see_three(&region.dims);
    let [planes, rows, columns] = &region.dims;
    let Some((plane, last_plane)) = ones(planes) else {
        return region.least();
    };
    let Some((row, last_row)) = ones(rows) else {
        return region.least();
    };
    let Some((column, last_column)) = ones(columns) else {
        return region.least();
    };
    if last_plane < plane {
        return None;
    }
    if last_row < row {
        return None;
    }
    if last_column < column {
        return None;
    }
    Some([plane, row, column])
}

/// The first tuple that stands after `x` in row-major order, or `None` where none does. The vector
/// `x` may be no tuple of the region.
#[inline(always)]
pub fn next_after(region: &Region, x: &Vec3) -> Option<Vec3>
    requires { IsRegion region.now }
    ensures { result ≡ find (is_before x.now) (members region.now) }
{
    see_three(&region.dims);
    let [planes, rows, columns] = &region.dims;
    let [plane, row, column] = *x;
    let Some((_, last_plane)) = ones_around(planes, plane) else {
        return region.next_after(*x);
    };
    let Some((first_row, last_row)) = ones_around(rows, row) else {
        return region.next_after(*x);
    };
    let Some((first_column, last_column)) = ones_around(columns, column) else {
        return region.next_after(*x);
    };
    if column < last_column {
        return Some([plane, row, column + 1]);
    }
    if row < last_row {
        return Some([plane, row + 1, first_column]);
    }
    if plane < last_plane {
        return Some([plane + 1, first_row, first_column]);
    }
    None
}
