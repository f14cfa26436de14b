//! Tests of shapes that may not be known.
ghost use Rattle.std.specs.Prelude.{◌≡◌};
ghost use Rattle.name_kinds.specs.of_zpl_names.Faults as faults;
ghost use Rattle.name_kinds.specs.Seen.{known_of, shape_of};
ghost use Rattle.site_faults.specs.Reach.{reach_of};
ghost use Rattle.site_faults.specs.Flood.{is_flood_read, is_flood_written};

use crate::reach::Reach;
use name_kinds::{Kind, Shape, array_rank, array_shape};

/// Whether a dimension is flood.
pub fn has_flood(shape: Option<Shape>) -> bool
    ensures { result ≡ faults.has_flood (shape_of shape) }
{
    match shape {
        None => false,
        Some(shape) => shape.has_flood(),
    }
}

/// Whether a dimension is flood, counted from 1.
pub fn floods_at(shape: Option<Shape>, dimension: u8) -> bool
    ensures { result ≡ faults.floods_at (shape_of shape) dimension }
{
    let Some(shape) = shape else {
        return false;
    };
    if dimension == 0 {
        return false;
    }
    shape.dim(usize::from(dimension) - 1).unwrap_or(false)
}

/// Whether a region has a flood dimension that an array lacks.
pub fn reaches_beyond(region: Option<Shape>, array: Option<Shape>) -> bool
    ensures { result ≡ faults.both_known faults.reaches_beyond (shape_of region) (shape_of array) }
{
    match (region, array) {
        (Some(region), Some(array)) => region.reaches_beyond(array),
        _ => false,
    }
}

/// Whether an array is read under a region that has a flood dimension which it lacks.
pub fn is_read_beyond(reach: &Reach<'_>, kind: Option<Kind<'_>>) -> bool
    ensures { result ≡ is_flood_read (reach_of reach.now) (known_of kind.entry) }
{
    reaches_beyond(reach.shape_at(array_rank(kind)), array_shape(kind))
}

/// Whether an array is written under a region with other flood dimensions.
pub fn is_written_beyond(reach: &Reach<'_>, kind: Option<Kind<'_>>) -> bool
    ensures { result ≡ is_flood_written (reach_of reach.now) (known_of kind.entry) }
{
    let region = reach.shape_at(array_rank(kind));
    let array = array_shape(kind);
    reaches_beyond(region, array) || reaches_beyond(array, region)
}
