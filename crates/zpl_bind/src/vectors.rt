//! Vectors, and directions.
ghost use Rattle.std.specs.Prelude.{◌≡◌, ◌<◌, ◌≤◌, IfOk, slice_set};
ghost use Rattle.zpl_parts.specs.of_zpl_binding.Bound.{IsVector};
ghost use Rattle.zpl_parts.specs.of_zpl_binding.Vectors.{dir_of, is_component, vector_of};
ghost use Rattle.zpl_tree.specs.View.{dir_of as seen_dir, exprs_of};
ghost use Rattle.zpl_bind.specs.Fault.{Computes};
ghost use Rattle.zpl_bind.specs.Tables.{IsTable, computed, listed};

use crate::faults::BindFault;
use crate::tables::Table;
use crate::values::value_of;
use zpl_region::Vec3;
use zpl_tree::{Dir, Expr};

/// The greatest component of a vector, and the least one with the sign turned.
const COMPONENT_LIMIT: i64 = 32_767;

/// The vector with these components. All of them are computed before their limit is tested.
pub fn vector_of(values: &Table<'_, i64>, parts: &[Expr<'_>]) -> Result<Vec3, BindFault>
    requires { IsTable values.now }
    ensures computes { Computes result
        (vector_of (computed (listed values.now)) (exprs_of parts.now)) }
    ensures vector { IfOk result IsVector }
{
    let mut vector = [0; 3];
    let mut within = true;
    for (place, part) in parts.iter().enumerate() {
        let value = value_of(values, part)?;
        within = within && is_component(value);
        set_component(&mut vector, place, value);
    }
    if within {
        Ok(vector)
    } else {
        Err(BindFault::DirectionLimit)
    }
}

/// Writes a component. There is none past the third.
fn set_component(vector: &mut Vec3, place: usize, value: i64)
    ensures short { place < 3 → vector.new ≡ slice_set vector.old place value }
    ensures long { 3 ≤ place → vector.new ≡ vector.old }
{
    if place < 3 {
        vector[place] = value;
    }
}

fn is_component(part: i64) -> bool
    ensures { result ≡ is_component part }
{
    -COMPONENT_LIMIT <= part && part <= COMPONENT_LIMIT
}

/// The vector of a direction's name, or the one that stands in its place.
pub fn dir_of(
    values: &Table<'_, i64>,
    directions: &Table<'_, Vec3>,
    dir: &Dir<'_>,
) -> Result<Vec3, BindFault>
    requires values { IsTable values.now }
    requires directions { IsTable directions.now }
    ensures { Computes result (dir_of (computed (listed values.now))
        (computed (listed directions.now))
        (seen_dir dir.now)) }
{
    match dir {
        Dir::Named(name) => Ok(directions.find(name.text).unwrap_or([0; 3])),
        Dir::Vector(parts) => vector_of(values, parts),
    }
}
