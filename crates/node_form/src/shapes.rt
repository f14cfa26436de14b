//! Ranks, vectors, regions and arrays that may stand in a row.
ghost use Rattle.std.specs.Prelude.{◌≡◌, ◌↔◌, IsTrue, All, drop};
ghost use Rattle.zpl_arrays.specs.of_zpl_region.Dim.{HasStep, IsUpTo};
ghost use Rattle.zpl_arrays.specs.of_zpl_region.Region.{IsWithinLimit, padding};
ghost use Rattle.node_form.specs.Fits.{
  FitsArray,
  FitsRegion,
  HasFringe,
  IsRange,
  IsRank,
  IsUnused,
  IsUnusedOrStar,
  IsVector,
  storage_dim,
  storage_of,
};

use crate::arrays::{ArrayDim, ArrayRow};
use zpl_arrays::zpl_region::{Dim, Region, Vec3};

/// The greatest size of a vector's component and of a fringe width.
const MAX_SIZE: i64 = 2_147_483_648;

/// Whether it is 1, 2 or 3.
pub fn is_rank(rank: u8) -> bool
    ensures { IsTrue result ↔ IsRank rank }
{
    1 <= rank && rank <= 3
}

/// Whether the components are at most 2^31 in size, and 0 past the rank.
pub(crate) fn is_vector(rank: u8, vector: &Vec3) -> bool
    ensures { IsTrue result ↔ IsVector rank vector.now }
{
    let from = usize::from(rank).min(3);
    vector.iter().all(is_component) && vector[from..].iter().all(|component| *component == 0)
}

fn is_component(component: &i64) -> bool
    ensures { IsTrue result ↔ IsUpTo 31 component.now }
{
    -MAX_SIZE <= *component && *component <= MAX_SIZE
}

/// Whether the region is within the limit, with steps of at least 1, and padded past its rank.
pub(crate) fn fits_region(region: &Region) -> bool
    ensures { IsTrue result ↔ FitsRegion region.now }
{
    is_rank(region.rank)
        && region.dims.iter().all(has_step)
        && region.dims[usize::from(region.rank)..]
            .iter()
            .all(is_padding)
        && Region::new(region.rank, region.dims).is_ok()
}

fn has_step(dim: &Dim) -> bool
    ensures { IsTrue result ↔ HasStep dim.now }
{
    match *dim {
        Dim::Range { step, .. } => 1 <= step,
        Dim::Flood => true,
    }
}

fn is_padding(dim: &Dim) -> bool
    ensures { IsTrue result ↔ (dim.now ≡ padding) }
{
    match *dim {
        Dim::Range {
            lo,
            hi,
            step,
            align,
        } => lo == 0 && hi == 0 && step == 1 && align == 0,
        Dim::Flood => false,
    }
}

/// Whether the array is as a row may have it: its storage and its fringes are within their limits,
/// and past the rank, and in each range of a temporary, stand zeros.
pub fn fits_array(row: &ArrayRow) -> bool
    ensures { IsTrue result ↔ FitsArray row.now }
{
    if !is_rank(row.rank) || !row.dims[usize::from(row.rank)..].iter().all(is_unused) {
        return false;
    }
    if row.stored {
        row.dims.iter().all(has_fringe) && has_storage(row)
    } else {
        row.dims.iter().all(is_unused_or_star)
    }
}

/// Whether the storage is within the limit of regions.
fn has_storage(row: &ArrayRow) -> bool
    requires rank { IsRank row.now.rank }
    requires padded { All IsUnused (drop row.now.rank row.now.dims) }
    ensures { IsTrue result ↔ IsWithinLimit (storage_of row.now) }
{
    let [planes, rows, columns] = row.dims;
    let dims = [storage_dim(planes), storage_dim(rows), storage_dim(columns)];
    Region::new(row.rank, dims).is_ok()
}

/// The dimension of the region of an array's places.
pub fn storage_dim(dim: ArrayDim) -> Dim
    ensures { result ≡ storage_dim dim }
{
    match dim {
        ArrayDim::Range { lo, hi, .. } => Dim::Range {
            lo,
            hi,
            step: 1,
            align: lo,
        },
        ArrayDim::Star => Dim::Flood,
    }
}

fn has_fringe(dim: &ArrayDim) -> bool
    ensures { IsTrue result ↔ HasFringe dim.now }
{
    match *dim {
        ArrayDim::Range { low, high, .. } => {
            0 <= low && low <= MAX_SIZE && 0 <= high && high <= MAX_SIZE
        }
        ArrayDim::Star => true,
    }
}

/// Whether the dimension is the range of four zeros.
fn is_unused(dim: &ArrayDim) -> bool
    ensures { IsTrue result ↔ IsUnused dim.now }
{
    match *dim {
        ArrayDim::Range { lo, hi, low, high } => lo == 0 && hi == 0 && low == 0 && high == 0,
        ArrayDim::Star => false,
    }
}

fn is_unused_or_star(dim: &ArrayDim) -> bool
    ensures { IsTrue result ↔ IsUnusedOrStar dim.now }
{
    match dim {
        ArrayDim::Range { .. } => is_unused(dim),
        ArrayDim::Star => true,
    }
}

pub(crate) fn is_range(dim: &ArrayDim) -> bool
    ensures { IsTrue result ↔ IsRange dim.now }
{
    matches!(dim, ArrayDim::Range { .. })
}
