//! Ranks and shapes of regions and directions.
ghost use Rattle.std.specs.Prelude.{◌≡◌, ◌≤◌, Some, length, map};
ghost use Rattle.zpl_names.specs.Kinds as kind;
ghost use Rattle.zpl_names.specs.Ranks as ranks;
ghost use Rattle.zpl_names.specs.Shapes as spec;
ghost use Rattle.zpl_tree.specs.View.{base_type_of, bracket_of, dim_of, dims_of, dir_of, inner_of};
ghost use Rattle.zpl_tree.specs.View.{name_of, posts_of, pre_of};
ghost use Rattle.name_kinds.specs.Reach.{scope_of};
ghost use Rattle.name_kinds.specs.Region.{HasFewDims};
ghost use Rattle.name_kinds.specs.Seen.{current_of, kind_of, shape_of, shapes_of};

use crate::kinds::Kind;
use crate::places::{direction_rank, is_region, region_shape, shape_rank};
use crate::ranks::{Rank, first_rank, known_rank, small_rank};
use crate::scope::Scope;
use crate::shapes::{Current, Shape, Shapes};
use zpl_tree::{Base, DimText, Dir, Inner, Name, Post, Pre, RegionBase};

/// The rank of a direction.
pub fn dir_rank(scope: &Scope<'_>, dir: &Dir<'_>) -> Rank
    ensures { result ≡ ranks.dir_rank (scope_of scope.now) (dir_of dir.now) }
{
    match dir {
        Dir::Named(name) => direction_rank(scope.find(name)),
        Dir::Vector(parts) => small_rank(parts.len()),
    }
}

/// Whether what stands in a bracket is an index that is a name alone.
pub fn is_index(scope: &Scope<'_>, pre: &[Pre<'_>], name: &Name<'_>, post: &[Post<'_>]) -> bool
    ensures { result ≡ ranks.is_index (scope_of scope.now) (map pre_of pre.now) (name_of name.now)
        (posts_of post.now) }
{
    pre.is_empty() && post.is_empty() && !is_region(scope.find(name))
}

// The rank of the direction directly before a region, or 0.
fn pre_rank(scope: &Scope<'_>, pre: &[Pre<'_>]) -> Rank
    ensures { result ≡ ranks.pre_rank (scope_of scope.now) (map pre_of pre.now) }
{
    match pre.last() {
        None => Some(0),
        Some(last) => direction_rank(scope.find(&last.dir)),
    }
}

// The rank of the direction directly behind a region, or 0.
fn post_rank(scope: &Scope<'_>, post: &[Post<'_>]) -> Rank
    ensures { result ≡ ranks.post_rank (scope_of scope.now) (posts_of post.now) }
{
    match post.split_first() {
        None => Some(0),
        Some((first, _)) => dir_rank(scope, &first.dir),
    }
}

/// The rank of a ditto, or 0 where nothing gives one.
pub fn ditto_rank(
    scope: &Scope<'_>,
    hint: Rank,
    prefix: Rank,
    pre: &[Pre<'_>],
    post: &[Post<'_>],
) -> Rank
    ensures { result ≡ ranks.ditto_rank (scope_of scope.now) hint prefix (map pre_of pre.now)
        (posts_of post.now) }
{
    let around = first_rank(hint, prefix);
    first_rank(
        pre_rank(scope, pre),
        first_rank(post_rank(scope, post), around),
    )
}

/// The rank of a region, for a hint and the rank of the innermost prefix, each 0 where there is
/// none.
pub fn inner_rank(scope: &Scope<'_>, hint: Rank, prefix: Rank, inner: &Inner<'_>) -> Rank
    ensures { result ≡ ranks.inner_rank (scope_of scope.now) hint prefix (inner_of inner.now) }
{
    match inner {
        Inner::Rexpr(rexpr) => match &rexpr.base {
            RegionBase::Named(name) => {
                if is_index(scope, rexpr.pre, name, rexpr.post) {
                    Some(1)
                } else {
                    shape_rank(region_shape(scope.find(name)))
                }
            }
            RegionBase::Ditto(_) => {
                known_rank(ditto_rank(scope, hint, prefix, rexpr.pre, rexpr.post))
            }
        },
        Inner::Dims(dims) => small_rank(dims.len()),
    }
}

/// The shape of a region of a rank, or none where it isn't known.
pub fn inner_shape(
    scope: &Scope<'_>,
    shapes: Shapes,
    rank: Rank,
    inner: &Inner<'_>,
) -> Option<Shape>
    requires { HasFewDims rank (inner_of inner.now) }
    ensures { shape_of result ≡ spec.inner_shape (scope_of scope.now) (shapes_of shapes) rank
        (inner_of inner.now) }
{
    match rank {
        None => None,
        Some(_) => shape_within(scope, shapes.at(rank), inner),
    }
}

// The shape of a region whose rank has this current region.
fn shape_within(scope: &Scope<'_>, current: Current, inner: &Inner<'_>) -> Option<Shape>
    requires { HasFewDims (Some 0) (inner_of inner.now) }
    ensures { shape_of result ≡ spec.shape_within (scope_of scope.now) (current_of current)
        (inner_of inner.now) }
{
    match inner {
        Inner::Rexpr(rexpr) => match &rexpr.base {
            RegionBase::Named(name) => {
                if is_index(scope, rexpr.pre, name, rexpr.post) {
                    Some(Shape::One(false))
                } else {
                    region_shape(scope.find(name))
                }
            }
            RegionBase::Ditto(_) => current.shape(),
        },
        Inner::Dims(dims) => dims_shape(current, dims),
    }
}

// The shape of a region that is written by its dimensions.
fn dims_shape(current: Current, dims: &[DimText<'_>]) -> Option<Shape>
    requires { length dims.now ≤ 3 }
    ensures { shape_of result ≡ spec.dims_shape (current_of current) 0 (dims_of dims.now) }
{
    match dims {
        [] => Some(Shape::Empty),
        [one] => Some(Shape::One(dim_shape(current, 0, one)?)),
        [one, two] => {
            let one = dim_shape(current, 0, one)?;
            let two = dim_shape(current, 1, two)?;
            Some(Shape::Two(one, two))
        }
        [one, two, three, ..] => {
            let one = dim_shape(current, 0, one)?;
            let two = dim_shape(current, 1, two)?;
            let three = dim_shape(current, 2, three)?;
            Some(Shape::Three(one, two, three))
        }
    }
}

// Whether a dimension is flood; a blank is that of the current region.
fn dim_shape(current: Current, place: usize, dim: &DimText<'_>) -> Option<bool>
    ensures { result ≡ spec.dim_shape (current_of current) place (dim_of dim.now) }
{
    match dim {
        DimText::Blank(_) => current.dim(place),
        DimText::Star(_) => Some(true),
        DimText::One(_) | DimText::Span(_, _) => Some(false),
    }
}

/// The shape of a declared region: no region is current, and no prefix is near.
pub fn declared_shape(scope: &Scope<'_>, inner: &Inner<'_>) -> Option<Shape>
    ensures { shape_of result ≡ spec.declared_shape (scope_of scope.now) (inner_of inner.now) }
{
    let rank = inner_rank(scope, Some(0), Some(0), inner);
    inner_shape(scope, Shapes::all(Current::Absent), rank, inner)
}

/// What a variable stands for: an array where it has a shape.
pub fn variable_kind<'a>(scope: &Scope<'_>, shape: &Option<Inner<'_>>, base: Base<'a>) -> Kind<'a>
    ensures { kind_of result ≡ spec.variable_kind (scope_of scope.now) (bracket_of shape.now)
        (base_type_of base.entry) }
{
    match shape {
        None => Kind::Scalar(base),
        Some(inner) => Kind::Array(base, declared_shape(scope, inner)),
    }
}
