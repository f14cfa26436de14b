//! What a place takes of what a name stands for.
ghost use Rattle.std.specs.Prelude.{◌≡◌, length};
ghost use Rattle.std.specs.Option.{option_map};
ghost use Rattle.zpl_names.specs.Ranks as ranks;
ghost use Rattle.zpl_names.specs.Scope as names;
ghost use Rattle.zpl_names.specs.Types as types;
ghost use Rattle.name_kinds.specs.Part.{base_seen};
ghost use Rattle.name_kinds.specs.Seen.{known_of, shape_of};

use crate::kinds::{BaseType, Kind};
use crate::ranks::Rank;
use crate::shapes::Shape;

/// Whether it has a value.
pub fn is_value(kind: Option<Kind<'_>>) -> bool
    ensures { result ≡ names.is_value (known_of kind.entry) }
{
    is_scalar(kind) || is_array(kind)
}

/// Whether it is an array.
pub fn is_array(kind: Option<Kind<'_>>) -> bool
    ensures { result ≡ names.is_array (known_of kind.entry) }
{
    match kind {
        Some(Kind::Array(_, _)) => true,
        _ => false,
    }
}

/// Whether it has a value and is no array.
pub fn is_scalar(kind: Option<Kind<'_>>) -> bool
    ensures { result ≡ names.is_scalar (known_of kind.entry) }
{
    match kind {
        Some(Kind::Config(_) | Kind::Constant(_) | Kind::Scalar(_)) => true,
        _ => false,
    }
}

/// Whether it is a config or a constant, which isn't assigned.
pub fn is_fixed(kind: Option<Kind<'_>>) -> bool
    ensures { result ≡ names.is_fixed (known_of kind.entry) }
{
    match kind {
        Some(Kind::Config(_) | Kind::Constant(_)) => true,
        _ => false,
    }
}

/// Whether it is a region.
pub fn is_region(kind: Option<Kind<'_>>) -> bool
    ensures { result ≡ names.is_region (known_of kind.entry) }
{
    match kind {
        Some(Kind::Region(_)) => true,
        _ => false,
    }
}

/// Whether it is a direction.
pub fn is_direction(kind: Option<Kind<'_>>) -> bool
    ensures { result ≡ names.is_direction (known_of kind.entry) }
{
    match kind {
        Some(Kind::Direction(_)) => true,
        _ => false,
    }
}

/// Whether it is a procedure.
pub fn is_procedure(kind: Option<Kind<'_>>) -> bool
    ensures { result ≡ names.is_procedure (known_of kind.entry) }
{
    match kind {
        Some(Kind::Procedure(_)) => true,
        _ => false,
    }
}

/// The shape of a region.
pub fn region_shape(kind: Option<Kind<'_>>) -> Option<Shape>
    ensures { shape_of result ≡ ranks.region_shape (known_of kind.entry) }
{
    match kind {
        Some(Kind::Region(shape)) => shape,
        _ => None,
    }
}

/// The shape of an array.
pub fn array_shape(kind: Option<Kind<'_>>) -> Option<Shape>
    ensures { shape_of result ≡ ranks.array_shape (known_of kind.entry) }
{
    match kind {
        Some(Kind::Array(_, shape)) => shape,
        _ => None,
    }
}

/// The rank of a shape.
pub fn shape_rank(shape: Option<Shape>) -> Rank
    ensures { result ≡ option_map length (shape_of shape) }
{
    match shape {
        None => None,
        Some(shape) => Some(shape.rank()),
    }
}

/// The rank of an array.
pub fn array_rank(kind: Option<Kind<'_>>) -> Rank
    ensures { result ≡ ranks.array_rank (known_of kind.entry) }
{
    shape_rank(array_shape(kind))
}

/// The rank of a direction.
pub fn direction_rank(kind: Option<Kind<'_>>) -> Rank
    ensures { result ≡ ranks.direction_rank (known_of kind.entry) }
{
    match kind {
        Some(Kind::Direction(rank)) => rank,
        _ => None,
    }
}

/// The rank of a name in an expression.
pub fn value_rank(kind: Option<Kind<'_>>) -> Rank
    ensures { result ≡ ranks.value_rank (known_of kind.entry) }
{
    if is_scalar(kind) {
        Some(0)
    } else {
        array_rank(kind)
    }
}

/// The base type of a name's value.
pub fn kind_base(kind: Option<Kind<'_>>) -> Option<BaseType>
    ensures { result ≡ base_seen (types.kind_base (known_of kind.entry)) }
{
    match kind {
        Some(Kind::Config(base)) => Some(BaseType::of(&base)),
        Some(Kind::Constant(base)) => Some(BaseType::of(&base)),
        Some(Kind::Scalar(base)) => Some(BaseType::of(&base)),
        Some(Kind::Array(base, _)) => Some(BaseType::of(&base)),
        _ => None,
    }
}

/// The base type that a procedure answers.
pub fn result_base(kind: Option<Kind<'_>>) -> Option<BaseType>
    ensures { result ≡ base_seen (types.result_base (known_of kind.entry)) }
{
    let Some(Kind::Procedure(signature)) = kind else {
        return None;
    };
    match signature.result {
        Some(base) => Some(BaseType::of(&base)),
        None => None,
    }
}
