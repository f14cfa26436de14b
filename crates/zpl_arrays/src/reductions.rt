//! Partial reductions: which tuples of the source count for a tuple of the target.
ghost use Rattle.std.specs.Prelude.{◌≡◌, ◌<◌, slice_index_or};
ghost use Rattle.zpl_region.specs.declared.dims.Dim.{Dim as Dimension};
ghost use Rattle.zpl_region.specs.Region.{IsRegion};
ghost use Rattle.zpl_arrays.specs.Conformity.{is_collapsed};
ghost use Rattle.zpl_arrays.specs.Fold.{agrees};

use zpl_region::{Dim, Region, Vec3};

/// Whether a partial reduction with this target collapses the dimension at `place`, counted from
/// 0: it is flood or has a single coordinate there, as past the rank.
fn collapses(target: &Region, place: u8) -> bool
    requires region { IsRegion target.now }
    requires place { place < 3 }
    ensures { result ≡ is_collapsed (slice_index_or target.now.dims place Dimension.Flood) }
{
    if place >= target.rank {
        return true;
    }
    match target.dims[usize::from(place)] {
        Dim::Flood => true,
        Dim::Range { .. } => target.single(place + 1).is_some(),
    }
}

/// Whether the tuple `t` of the source counts for the tuple `x` of the target: they have the same
/// coordinate in each dimension that the target doesn't collapse.
pub fn agrees(target: &Region, x: &Vec3, t: &Vec3) -> bool
    requires { IsRegion target.now }
    ensures { result ≡ agrees target.now.dims x.now t.now }
{
    for place in 0..3_u8 {
        if !collapses(target, place) && t[usize::from(place)] != x[usize::from(place)] {
            return false;
        }
    }
    true
}
