//! Regions that are declared, each step tested at the limit.
ghost use Rattle.std.specs.Prelude.{◌≡◌, ◌≤◌, ◌==◌, ◌&&◌, [], ◌∷◌, All, IfOk, OkIff, length, map};
ghost use Rattle.zpl_region.specs.Dim.{HasStep};
ghost use Rattle.zpl_region.specs.Hull.{all_from};
ghost use Rattle.zpl_region.specs.Region.{IsPadded, IsRegion, IsWithinLimit};
ghost use Rattle.zpl_parts.specs.of_zpl_binding.Bound.{IsVector};
ghost use Rattle.zpl_parts.specs.of_zpl_binding.Outcome.{Gives, outcome_of};
ghost use Rattle.zpl_parts.specs.of_zpl_binding.Vectors.{three_components};
ghost use Rattle.zpl_parts.specs.of_zpl_binding.Regions.{before, behind, dim_of, inner_of, limited};
ghost use Rattle.zpl_parts.specs.of_zpl_binding.Regions.{named_or_index, no_region, region_named, region_of};
ghost use Rattle.zpl_parts.specs.of_zpl_binding.Regions.{spanned};
ghost use Rattle.zpl_tree.specs.Syntax.{NoPost, Rexpr};
ghost use Rattle.zpl_tree.specs.View.{base_of, dim_of as seen_dim, dims_of, inner_of as seen_inner};
ghost use Rattle.zpl_tree.specs.View.{name_of, posts_of, pre_of, region_of as seen_region};
ghost use Rattle.zpl_bind.specs.Fault.{Computes};
ghost use Rattle.zpl_bind.specs.Few.{IsFew};
ghost use Rattle.zpl_bind.specs.Forms.{formed_as};
ghost use Rattle.zpl_bind.specs.Known.{IsBuilt, IsKnown, known_in};

use crate::faults::BindFault;
use crate::known::Known;
use crate::values::value_of;
use crate::vectors::dir_of;
use zpl_region::{Dim, Region, RegionLimit, Vec3};
use zpl_tree::{DimText, Inner, Name, Post, Pre, RegionBase, RegionDef};

/// What stands for a dimension past the rank.
const PADDING: Dim = Dim::Range {
    lo: 0,
    hi: 0,
    step: 1,
    align: 0,
};

/// The forms of a region.
#[derive(Clone, Copy)]
pub enum Form {
    /// `d of R`.
    Of,
    /// `d in R`.
    In,
    /// `R at d`.
    At,
    /// `R by d`.
    By,
}

fn all_from(lo: i64, hi: i64) -> Dim
    ensures { result ≡ all_from lo hi }
{
    Dim::Range {
        lo,
        hi,
        step: 1,
        align: lo,
    }
}

/// A dimension. A blank, which no declaration has, counts as one without coordinates.
fn dim_of(known: &Known<'_>, dim: &DimText<'_>) -> Result<Dim, BindFault>
    requires { IsKnown known.now }
    ensures computes { Computes result (dim_of (known_in known.now) (seen_dim dim.now)) }
    ensures step { IfOk result HasStep }
{
    match dim {
        DimText::Blank(_) => Ok(all_from(1, 0)),
        DimText::Star(_) => Ok(Dim::Flood),
        DimText::One(index) => {
            let value = value_of(&known.values, index)?;
            Ok(all_from(value, value))
        }
        DimText::Span(low, high) => {
            let first = value_of(&known.values, low)?;
            let last = value_of(&known.values, high)?;
            Ok(all_from(first, last))
        }
    }
}

/// The region of these dimensions, where it is within the limit.
pub fn limited(rank: u8, dims: [Dim; 3]) -> Result<Region, BindFault>
    requires low { rank ≤ 3 }
    requires steps { All HasStep dims }
    requires padded { IsPadded rank dims }
    ensures computes { Computes result (limited (record { rank = rank; dims = dims })) }
    ensures built { IfOk result IsBuilt }
{
    if rank == 0 {
        return Ok(Region { rank, dims });
    }
    match Region::new(rank, dims) {
        Ok(region) => Ok(region),
        Err(_) => Err(BindFault::RegionLimit),
    }
}

/// The region of up to three dimensions. All bounds are computed before the limit is tested.
fn spanned(known: &Known<'_>, dims: &[DimText<'_>]) -> Result<Region, BindFault>
    requires known { IsKnown known.now }
    requires few { length dims.now ≤ 3 }
    ensures computes { Computes result (spanned (known_in known.now) (dims_of dims.now)) }
    ensures built { IfOk result IsBuilt }
{
    match dims {
        [] => limited(0, [PADDING, PADDING, PADDING]),
        [row] => {
            let row = dim_of(known, row)?;
            limited(1, [row, PADDING, PADDING])
        }
        [row, column] => {
            let row = dim_of(known, row)?;
            let column = dim_of(known, column)?;
            limited(2, [row, column, PADDING])
        }
        [plane, row, column] => {
            let plane = dim_of(known, plane)?;
            let row = dim_of(known, row)?;
            let column = dim_of(known, column)?;
            limited(3, [plane, row, column])
        }
        _ => unreachable!(),
    }
}

/// A form of a region.
fn made(form: Form, region: &Region, vector: Vec3) -> Result<Region, RegionLimit>
    requires { IsRegion region.now }
    ensures limit { OkIff result (IsWithinLimit (formed_as form vector region.now))
        (formed_as form vector region.now) }
    ensures region { IfOk result IsRegion }
{
    match form {
        Form::Of => region.of(vector),
        Form::In => region.inside(vector),
        Form::At => region.at(vector),
        Form::By => region.by(vector),
    }
}

/// A form of a region, where it is within the limit.
fn formed(form: Form, region: &Region, vector: Vec3) -> Result<Region, BindFault>
    requires { IsBuilt region.now }
    ensures computes { Computes result (limited (formed_as form vector region.now)) }
    ensures built { IfOk result IsBuilt }
{
    if region.rank == 0 {
        return Ok(*region);
    }
    match made(form, region, vector) {
        Ok(region) => Ok(region),
        Err(_) => Err(BindFault::RegionLimit),
    }
}

/// `R at d` or `R by d`.
fn with_post(known: &Known<'_>, region: &Region, post: &Post<'_>) -> Result<Region, BindFault>
    requires known { IsKnown known.now }
    requires region { IsBuilt region.now }
    ensures computes { Computes result
        (behind (known_in known.now) (Gives region.now) (posts_of (post.now ∷ []))) }
    ensures built { IfOk result IsBuilt }
{
    let vector = dir_of(&known.values, &known.directions, &post.dir)?;
    if post.stride {
        formed(Form::By, region, vector)
    } else {
        formed(Form::At, region, vector)
    }
}

/// `R at d` and `R by d`, one after the other.
fn behind(known: &Known<'_>, region: Region, posts: &[Post<'_>]) -> Result<Region, BindFault>
    requires known { IsKnown known.now }
    requires region { IsBuilt region }
    ensures computes { Computes result (behind (known_in known.now) (Gives region)
        (posts_of posts.now)) }
    ensures built { IfOk result IsBuilt }
{
    let mut region = region;
    for post in posts {
        region = with_post(known, &region, post)?;
    }
    Ok(region)
}

/// `d of R` or `d in R`.
fn with_pre(known: &Known<'_>, region: &Region, pre: &Pre<'_>) -> Result<Region, BindFault>
    requires known { IsKnown known.now }
    requires region { IsBuilt region.now }
    ensures computes { Computes result
        (before (known_in known.now) (pre_of pre.now ∷ []) (Gives region.now)) }
    ensures built { IfOk result IsBuilt }
{
    let vector = direction_named(known, &pre.dir);
    if pre.outside {
        formed(Form::Of, region, vector)
    } else {
        formed(Form::In, region, vector)
    }
}

/// The direction with a name. What isn't declared counts as one without a shift.
pub fn direction_named(known: &Known<'_>, name: &Name<'_>) -> Vec3
    requires { IsKnown known.now }
    ensures named { outcome_of (three_components []) (known_in known.now).directions
        name.now.text.now ≡ Gives result }
    ensures vector { IsVector result }
{
    known.directions.find(name.text).unwrap_or([0; 3])
}

/// `d of R` and `d in R`, the one directly before R first.
fn before(known: &Known<'_>, pre: &[Pre<'_>], region: Region) -> Result<Region, BindFault>
    requires known { IsKnown known.now }
    requires region { IsBuilt region }
    ensures computes { Computes result (before (known_in known.now) (map pre_of pre.now)
        (Gives region)) }
    ensures built { IfOk result IsBuilt }
{
    let mut region = region;
    let mut left = pre.len();
    while left > 0 {
        left -= 1;
        region = with_pre(known, &region, &pre[left])?;
    }
    Ok(region)
}

/// The region with a name. What isn't declared counts as a region without tuples.
fn region_named(known: &Known<'_>, name: &Name<'_>) -> Region
    requires { IsKnown known.now }
    ensures named { region_named (known_in known.now) (name_of name.now) ≡ Gives result }
    ensures built { IsBuilt result }
{
    match known.regions.find(name.text) {
        Some(region) => region,
        None => no_region(),
    }
}

/// A region without tuples.
pub fn no_region() -> Region
    ensures { result ≡ no_region }
{
    Region {
        rank: 1,
        dims: [all_from(1, 0), PADDING, PADDING],
    }
}

/// A single name: a region, or an index of rank 1.
fn named_or_index(known: &Known<'_>, name: &Name<'_>) -> Result<Region, BindFault>
    requires { IsKnown known.now }
    ensures computes { Computes result (named_or_index (known_in known.now) []
        (name_of name.now) NoPost) }
    ensures built { IfOk result IsBuilt }
{
    match known.regions.find(name.text) {
        Some(region) => Ok(region),
        None => {
            let value = known.values.find(name.text).unwrap_or(0);
            limited(1, [all_from(value, value), PADDING, PADDING])
        }
    }
}

/// What stands between brackets.
pub fn inner_of(known: &Known<'_>, inner: &Inner<'_>) -> Result<Region, BindFault>
    requires known { IsKnown known.now }
    requires few { IsFew (seen_inner inner.now) }
    ensures computes { Computes result (inner_of (known_in known.now) (seen_inner inner.now)) }
    ensures built { IfOk result IsBuilt }
{
    match inner {
        Inner::Rexpr(rexpr) => rexpr_of(known, rexpr.pre, &rexpr.base, rexpr.post),
        Inner::Dims(dims) => spanned(known, dims),
    }
}

/// A region expression.
fn rexpr_of(
    known: &Known<'_>,
    pre: &[Pre<'_>],
    base: &RegionBase<'_>,
    post: &[Post<'_>],
) -> Result<Region, BindFault>
    requires known { IsKnown known.now }
    ensures computes { Computes result (inner_of (known_in known.now)
        (Rexpr (map pre_of pre.now) (base_of base.now) (posts_of post.now))) }
    ensures built { IfOk result IsBuilt }
{
    let RegionBase::Named(name) = base else {
        return Ok(no_region());
    };
    if is_plain(pre, post) {
        return named_or_index(known, name);
    }
    let region = behind(known, region_named(known, name), post)?;
    before(known, pre, region)
}

/// Whether a name stands by itself.
pub fn is_plain(pre: &[Pre<'_>], post: &[Post<'_>]) -> bool
    ensures { result ≡ ((length pre.now == 0) && (length post.now == 0)) }
{
    pre.is_empty() && post.is_empty()
}

/// A declared region.
pub fn region_of(known: &Known<'_>, region: &RegionDef<'_>) -> Result<Region, BindFault>
    requires known { IsKnown known.now }
    requires few { IsFew (seen_inner region.now.body) }
    ensures computes { Computes result (region_of (known_in known.now) (seen_region region.now)) }
    ensures built { IfOk result IsBuilt }
{
    let body = inner_of(known, &region.body)?;
    behind(known, body, region.posts)
}
