//! Directions, regions and masks.
ghost use Rattle.std.specs.Prelude.{◌≡◌, [], if◌then◌else◌, map, not};
ghost use Rattle.std.specs.List.{flat_map};
ghost use Rattle.name_kinds.specs.of_zpl_names.Accepted as kind;
ghost use Rattle.name_kinds.specs.of_zpl_names.Faults as faults;
ghost use Rattle.name_kinds.specs.of_zpl_names.Scope.{is_direction};
ghost use Rattle.name_kinds.specs.of_zpl_names.Sites.{AtDir, AtMask, AtPosts, AtRegion};
ghost use Rattle.zpl_tree.specs.View.{base_of, dim_of, dims_of, dir_of, exprs_of, inner_of};
ghost use Rattle.zpl_tree.specs.View.{mask_of, posts_of, pre_of, prefix_of};
ghost use Rattle.name_kinds.specs.Seen.{known_of};
ghost use Rattle.site_faults.specs.Findings.{tells};
ghost use Rattle.site_faults.specs.Reach.{reach_of};
ghost use Rattle.site_faults.specs.Regions.{is_blank, is_ditto};
ghost use Rattle.site_faults.specs.Walk.{Tells, state_of};

use crate::findings::{FaultKind, Findings};
use crate::nodes::dir_at;
use crate::reach::Reach;
use crate::shapes::reaches_beyond;
use name_kinds::{
    BaseType, Kind, Rank, array_rank, array_shape, dir_rank, direction_rank, ditto_rank,
    inner_rank, inner_shape, is_array, is_direction, is_index, is_region, is_zero, ranks_clash,
    small_rank,
};
use zpl_tree::{DimText, Dir, Expr, Inner, Mask, Post, Pre, Prefix, RegionBase};

/// Tells what is wrong with a direction.
pub fn tell_dir(findings: &mut Findings<'_>, reach: &Reach<'_>, dir: &Dir<'_>)
    ensures { Tells findings.old findings.new (AtDir (reach_of reach.now) (dir_of dir.now)) }
{
    match dir {
        Dir::Named(name) => {
            let is_other = !is_direction(reach.kind(name));
            findings.add_if(is_other, FaultKind::UnknownName, name.at);
        }
        Dir::Vector(parts) => tell_fourth_part(findings, parts),
    }
}

// Tells the fourth component of a vector.
fn tell_fourth_part(findings: &mut Findings<'_>, parts: &[Expr<'_>])
    ensures { state_of findings.new ≡ tells kind.RankClash (faults.fourth_part (exprs_of parts.now))
        (state_of findings.old) }
{
    if parts.len() > 3 {
        findings.add_if(true, FaultKind::RankClash, parts[3].at);
    }
}

// The offset of a dimension.
#[tactic(auto, using(crate::proofs::FindingLemmas::offsets))]
fn dim_at(dim: &DimText<'_>) -> u32
    ensures { result ≡ faults.dim_at (dim_of dim.now) }
{
    match dim {
        DimText::Blank(at) | DimText::Star(at) => *at,
        DimText::One(index) => index.at,
        DimText::Span(low, _) => low.at,
    }
}

// The offset of the region that a region expression begins with.
fn base_at(base: &RegionBase<'_>) -> u32
    ensures { result ≡ faults.base_at (base_of base.now) }
{
    match base {
        RegionBase::Named(name) => name.at,
        RegionBase::Ditto(at) => *at,
    }
}

// Tells the fourth dimension of a region.
fn tell_fourth_dim(findings: &mut Findings<'_>, dims: &[DimText<'_>])
    ensures { state_of findings.new ≡ tells kind.RankClash (faults.fourth_dim (dims_of dims.now))
        (state_of findings.old) }
{
    if dims.len() > 3 {
        findings.add_if(true, FaultKind::RankClash, dim_at(&dims[3]));
    }
}

// Whether a dimension is that of the current region.
fn is_blank(dim: &DimText<'_>) -> bool
    ensures { result ≡ is_blank (dim_of dim.now) }
{
    match dim {
        DimText::Blank(_) => true,
        _ => false,
    }
}

// Tells each blank, where there is no current region.
fn tell_blanks(findings: &mut Findings<'_>, lacks: bool, dims: &[DimText<'_>])
    ensures { state_of findings.new ≡ tells kind.NoRegion
        (if lacks then faults.blanks (dims_of dims.now) else []) (state_of findings.old) }
{
    for dim in dims {
        findings.add_if(lacks & is_blank(dim), FaultKind::NoRegion, dim_at(dim));
    }
}

// Tells each name before a region that isn't a direction's.
fn tell_pres(findings: &mut Findings<'_>, reach: &Reach<'_>, pre: &[Pre<'_>])
    ensures { state_of findings.new ≡ tells kind.UnknownName
        (flat_map (λ pre. faults.unless_taken (reach_of reach.now) is_direction pre.dir)
        (map pre_of pre.now)) (state_of findings.old) }
{
    for one in pre {
        let is_other = !is_direction(reach.kind(&one.dir));
        findings.add_if(is_other, FaultKind::UnknownName, one.dir.at);
    }
}

// Tells each direction before a region whose rank clashes with what follows it.
fn tell_pre_clashes(
    findings: &mut Findings<'_>,
    reach: &Reach<'_>,
    rank: Rank,
    pre: &[Pre<'_>],
    base: u32,
)
    ensures { state_of findings.new ≡ tells kind.RankClash
        (faults.pre_clashes (reach_of reach.now) rank (map pre_of pre.now) base)
        (state_of findings.old) }
{
    let mut before = Some(0);
    for one in pre {
        findings.add_if(ranks_clash(before, rank), FaultKind::RankClash, one.dir.at);
        before = direction_rank(reach.kind(&one.dir));
    }
    findings.add_if(ranks_clash(before, rank), FaultKind::RankClash, base);
}

// Tells each direction behind a region whose rank clashes with it.
fn tell_post_clashes(findings: &mut Findings<'_>, reach: &Reach<'_>, rank: Rank, posts: &[Post<'_>])
    ensures { state_of findings.new ≡ tells kind.RankClash
        (faults.post_clashes (reach_of reach.now) rank (posts_of posts.now))
        (state_of findings.old) }
{
    for post in posts {
        let clashes = ranks_clash(rank, dir_rank(&reach.scope, &post.dir));
        findings.add_if(clashes, FaultKind::RankClash, dir_at(&post.dir));
    }
}

/// Tells what is wrong with what stands behind the bracket of a declared region.
pub fn tell_posts(
    findings: &mut Findings<'_>,
    reach: &Reach<'_>,
    region: &Inner<'_>,
    posts: &[Post<'_>],
)
    ensures { Tells findings.old findings.new
        (AtPosts (reach_of reach.now) (inner_of region.now) (posts_of posts.now)) }
{
    let rank = inner_rank(&reach.scope, Some(0), reach.prefix, region);
    tell_post_clashes(findings, reach, rank, posts);
}

/// Tells what is wrong with a region.
pub fn tell_region(findings: &mut Findings<'_>, reach: &Reach<'_>, hint: Rank, region: &Inner<'_>)
    ensures { Tells findings.old findings.new
        (AtRegion (reach_of reach.now) hint (inner_of region.now)) }
{
    match region {
        Inner::Rexpr(rexpr) => {
            let rank = inner_rank(&reach.scope, hint, reach.prefix, region);
            tell_pres(findings, reach, rexpr.pre);
            tell_base(findings, reach, rexpr.pre, &rexpr.base, rexpr.post);
            tell_pre_clashes(findings, reach, rank, rexpr.pre, base_at(&rexpr.base));
            tell_post_clashes(findings, reach, rank, rexpr.post);
            let is_ditto = is_ditto(&rexpr.base);
            let lacks = is_ditto & (reach.declared | reach.lacks_region(rank));
            findings.add_if(lacks, FaultKind::NoRegion, base_at(&rexpr.base));
            let given = ditto_rank(&reach.scope, hint, reach.prefix, rexpr.pre, rexpr.post);
            let is_rankless = is_ditto & is_zero(given);
            findings.add_if(is_rankless, FaultKind::RankUnknown, base_at(&rexpr.base));
        }
        Inner::Dims(dims) => {
            tell_fourth_dim(findings, dims);
            let lacks = reach.declared | reach.lacks_region(small_rank(dims.len()));
            tell_blanks(findings, lacks, dims);
        }
    }
}

// Whether it is the current region.
fn is_ditto(base: &RegionBase<'_>) -> bool
    ensures { result ≡ is_ditto (base_of base.now) }
{
    match base {
        RegionBase::Ditto(_) => true,
        RegionBase::Named(_) => false,
    }
}

// Tells a name in the place of a region that isn't a region's and no index.
#[tactic(auto, using(crate::proofs::FindingLemmas::nothing_told))]
fn tell_base(
    findings: &mut Findings<'_>,
    reach: &Reach<'_>,
    pre: &[Pre<'_>],
    base: &RegionBase<'_>,
    post: &[Post<'_>],
)
    ensures { state_of findings.new ≡ tells kind.UnknownName
        (faults.unknown_base (reach_of reach.now) (map pre_of pre.now) (base_of base.now)
        (posts_of post.now)) (state_of findings.old) }
{
    match base {
        RegionBase::Named(name) => {
            let is_known = is_region(reach.kind(name)) | is_index(&reach.scope, pre, name, post);
            findings.add_if(!is_known, FaultKind::UnknownName, name.at);
        }
        RegionBase::Ditto(_) => {}
    }
}

// Whether it is no boolean array.
fn is_no_mask(kind: Option<Kind<'_>>) -> bool
    ensures { result ≡ not (faults.is_mask (known_of kind.entry)) }
{
    match kind {
        Some(Kind::Array(base, _)) => BaseType::of(&base) == BaseType::Integer,
        _ => true,
    }
}

/// Tells what is wrong with a mask.
#[tactic(auto, using(crate::proofs::RegionTold::mask_told))]
pub fn tell_mask(
    findings: &mut Findings<'_>,
    reach: &Reach<'_>,
    prefix: &Prefix<'_>,
    mask: &Mask<'_>,
)
    ensures { Tells findings.old findings.new
        (AtMask (reach_of reach.now) (prefix_of prefix.now) (mask_of mask.now)) }
{
    let kind = reach.kind(&mask.name);
    let rank = reach.prefix_rank(prefix);
    findings.add_if(!is_array(kind), FaultKind::UnknownName, mask.name.at);
    let clashes = ranks_clash(rank, array_rank(kind));
    findings.add_if(clashes, FaultKind::RankClash, mask.name.at);
    findings.add_if(is_no_mask(kind), FaultKind::MaskPlace, mask.name.at);
    let shape = inner_shape(&reach.scope, reach.shapes, rank, &prefix.region);
    let floods = reaches_beyond(shape, array_shape(kind));
    findings.add_if_reached(floods, FaultKind::FloodClash, mask.name.at);
}
