//! The walk over expressions, regions and directions.
ghost use Rattle.std.specs.Prelude.{◌≡◌, ◌++◌, IfOk, OnOk, map};
ghost use Rattle.name_kinds.specs.of_zpl_names.Sites as sites;
ghost use Rattle.zpl_tree.specs.Syntax as plain;
ghost use Rattle.zpl_tree.specs.View.{base_of, bracket_of, dim_of, dims_of, dir_of, expr_of};
ghost use Rattle.zpl_tree.specs.View.{exprs_of, inner_of, posts_of, pre_of};
ghost use Rattle.name_kinds.specs.Part.{part_of};
ghost use Rattle.name_kinds.specs.Region.{HasFewDims};
ghost use Rattle.site_faults.specs.Reach.{reach_of, role_of};
ghost use Rattle.site_faults.specs.Walk.{Walks};

use crate::calls::{tell_actual_name, tell_call};
use crate::findings::Findings;
use crate::nodes::{
    tell_coord, tell_flood, tell_named, tell_not, tell_pair, tell_partial, tell_reduce, tell_remap,
    tell_scan, tell_shifted,
};
use crate::reach::{CallRole, Reach, Role};
use crate::regions::{tell_dir, tell_region};
use crate::whole::{rank_at, tell_whole};
use name_kinds::zpl_nums::Fold;
use name_kinds::{BaseType, Part, Rank, both_ranks, inner_rank, is_index, part_of, parts_of};
use std::alloc::AllocError;
use zpl_tree::{DimText, Dir, Expr, ExprForm, Inner, Post, Pre, RegionBase};

/// Walks over the nodes of an expression that has a rank.
#[cycle(walk)]
#[tactic(auto, using(crate::proofs::WalkRules::expr_rules))]
pub fn walk_expr<'a>(
    findings: &mut Findings<'a>,
    reach: &Reach<'a>,
    rank: Rank,
    expr: &Expr<'a>,
) -> Result<Part, AllocError>
    ensures part { IfOk result (λ part. part ≡ part_of (reach_of reach.now).scope
        (reach_of reach.now).prefix (expr_of expr.now)) }
    ensures sites { OnOk result (Walks findings.old findings.new
        (sites.expr_sites (reach_of reach.now) rank (expr_of expr.now))) }
{
    let at = expr.at;
    match &expr.form {
        ExprForm::Number(_) => Ok(Part::leaf(false, BaseType::Integer)),
        ExprForm::Truth(_) => Ok(Part::leaf(false, BaseType::Boolean)),
        ExprForm::Coord(dimension) => {
            tell_coord(findings, reach, rank, at, *dimension);
            Ok(Part::leaf(true, BaseType::Integer))
        }
        ExprForm::Named(name) => {
            let kind = reach.kind(name);
            tell_named(findings, reach, rank, at, name, kind);
            Ok(Part::named(kind))
        }
        ExprForm::Shifted(name, shift) | ExprForm::Around(name, shift) => {
            let kind = reach.kind(name);
            tell_shifted(findings, reach, rank, at, name, shift, kind);
            walk_dir(findings, reach, shift)?;
            Ok(Part::shifted(kind))
        }
        ExprForm::Remap(name, indices) => {
            let kind = reach.kind(name);
            tell_remap(findings, reach, rank, at, name, indices, kind);
            walk_exprs(findings, reach, rank, indices)?;
            Ok(Part::remap(kind, parts_of(&reach.scope, reach.prefix, indices)))
        }
        ExprForm::Call(name, actuals) => {
            tell_call(findings, reach, CallRole::Elsewhere, name, actuals)?;
            walk_actuals(findings, reach, actuals)?;
            let parts = parts_of(&reach.scope, reach.prefix, actuals);
            Ok(Part::call(reach.kind(name), parts))
        }
        ExprForm::Paren(inside) => walk_expr(findings, reach, rank, inside),
        ExprForm::Neg(operand) | ExprForm::Abs(operand) => {
            let part = walk_expr(findings, reach, rank, operand)?;
            Ok(part.with_base(BaseType::Integer))
        }
        ExprForm::Not(operand) => {
            let part = walk_expr(findings, reach, rank, operand)?;
            tell_not(findings, reach, rank, at, operand, part);
            Ok(part.with_base(BaseType::Boolean))
        }
        ExprForm::Pair(op, left, right) => {
            let one = walk_expr(findings, reach, rank, left)?;
            let two = walk_expr(findings, reach, rank, right)?;
            tell_pair(findings, reach, rank, at, *op, (left, right), (one, two));
            Ok(Part::pair(*op, one, two))
        }
        ExprForm::Reduce(operator, over, operand) => {
            walk_reduce(findings, reach, rank, at, *operator, over, operand)
        }
        ExprForm::Scan(operator, along, operand) => {
            let part = walk_expr(findings, reach, rank, operand)?;
            tell_scan(findings, reach, rank, at, *operator, *along, operand, part);
            Ok(Part::scan(*operator, part))
        }
        ExprForm::Flood(source, operand) => {
            let part = part_of(&reach.scope, reach.prefix, operand);
            let over = inner_rank(&reach.scope, part.own, reach.prefix, source);
            tell_flood(findings, reach, rank, at, (source, over), operand, part);
            walk_over(findings, reach, part.own, over, source, operand)?;
            Ok(Part::flood(over, part))
        }
    }
}

// Walks over a reduction.
#[cycle(walk)]
#[tactic(auto, using(crate::proofs::WalkRules::expr_rules))]
fn walk_reduce<'a>(
    findings: &mut Findings<'a>,
    reach: &Reach<'a>,
    rank: Rank,
    at: u32,
    operator: Fold,
    over: &Option<Inner<'a>>,
    operand: &Expr<'a>,
) -> Result<Part, AllocError>
    ensures part { IfOk result (λ part. part ≡ part_of (reach_of reach.now).scope
        (reach_of reach.now).prefix
        (plain.Reduce at operator (bracket_of over.now) (expr_of operand.now))) }
    ensures sites { OnOk result (Walks findings.old findings.new
        (sites.expr_sites (reach_of reach.now) rank
        (plain.Reduce at operator (bracket_of over.now) (expr_of operand.now)))) }
{
    match over {
        None => {
            let part = walk_whole(findings, reach, Role::Operand, operand)?;
            tell_reduce(findings, reach, rank, at, operator, operand, part);
            Ok(Part::reduce(operator, Some(0)))
        }
        Some(source) => {
            let part = part_of(&reach.scope, reach.prefix, operand);
            let over = inner_rank(&reach.scope, part.own, reach.prefix, source);
            tell_partial(
                findings,
                reach,
                rank,
                at,
                operator,
                (source, over),
                operand,
                part,
            );
            walk_over(findings, reach, part.own, over, source, operand)?;
            Ok(Part::reduce(operator, both_ranks(over, part.own)))
        }
    }
}

// Walks over the region that an operator is over, which has a rank, and over its operand.
#[cycle(walk)]
fn walk_over<'a>(
    findings: &mut Findings<'a>,
    reach: &Reach<'a>,
    hint: Rank,
    over: Rank,
    source: &Inner<'a>,
    operand: &Expr<'a>,
) -> Result<(), AllocError>
    requires { HasFewDims over (inner_of source.now) }
    ensures { OnOk result (Walks findings.old findings.new
        (sites.region_sites (reach_of reach.now) hint (inner_of source.now) ++
        sites.expr_sites (sites.over_source (reach_of reach.now) over (inner_of source.now)) over
        (expr_of operand.now))) }
{
    walk_region(findings, reach, hint, source)?;
    let within = reach.over_source(over, source);
    walk_expr(findings, &within, over, operand)?;
    Ok(())
}

/// Walks over an expression that stands by itself.
#[cycle(walk)]
pub fn walk_whole<'a>(
    findings: &mut Findings<'a>,
    reach: &Reach<'a>,
    role: Role<'a>,
    expr: &Expr<'a>,
) -> Result<Part, AllocError>
    ensures part { IfOk result (λ part. part ≡ part_of (reach_of reach.now).scope
        (reach_of reach.now).prefix (expr_of expr.now)) }
    ensures sites { OnOk result (Walks findings.old findings.new
        (sites.whole_sites (reach_of reach.now) (role_of role.entry) (expr_of expr.now))) }
{
    let part = part_of(&reach.scope, reach.prefix, expr);
    tell_whole(findings, reach, role, expr, part);
    walk_expr(findings, reach, rank_at(reach, role, part), expr)
}

// Walks over the indices of a remap read.
#[cycle(walk)]
fn walk_exprs<'a>(
    findings: &mut Findings<'a>,
    reach: &Reach<'a>,
    rank: Rank,
    exprs: &[Expr<'a>],
) -> Result<(), AllocError>
    ensures { OnOk result (Walks findings.old findings.new
        (sites.exprs_sites (reach_of reach.now) rank (exprs_of exprs.now))) }
{
    for expr in exprs {
        walk_expr(findings, reach, rank, expr)?;
    }
    Ok(())
}

/// Walks over actuals.
#[cycle(walk)]
pub fn walk_actuals<'a>(
    findings: &mut Findings<'a>,
    reach: &Reach<'a>,
    actuals: &[Expr<'a>],
) -> Result<(), AllocError>
    ensures { OnOk result (Walks findings.old findings.new
        (sites.actuals_sites (reach_of reach.now) (exprs_of actuals.now))) }
{
    for actual in actuals {
        walk_actual(findings, reach, actual)?;
    }
    Ok(())
}

// Walks over an actual. One that is a name alone may be handed on without being read.
#[cycle(walk)]
fn walk_actual<'a>(
    findings: &mut Findings<'a>,
    reach: &Reach<'a>,
    actual: &Expr<'a>,
) -> Result<(), AllocError>
    ensures { OnOk result (Walks findings.old findings.new
        (sites.actuals_sites (reach_of reach.now) (plain.ThenExpr (expr_of actual.now)
        plain.NoExpr))) }
{
    if let ExprForm::Named(name) = &actual.form {
        tell_actual_name(findings, reach, name);
        return Ok(());
    }
    walk_whole(findings, reach, Role::Actual, actual)?;
    Ok(())
}

/// Walks over a direction.
#[cycle(walk)]
pub fn walk_dir<'a>(
    findings: &mut Findings<'a>,
    reach: &Reach<'a>,
    dir: &Dir<'a>,
) -> Result<(), AllocError>
    ensures { OnOk result (Walks findings.old findings.new
        (sites.dir_sites (reach_of reach.now) (dir_of dir.now))) }
{
    tell_dir(findings, reach, dir);
    match dir {
        Dir::Named(_) => Ok(()),
        Dir::Vector(parts) => walk_components(findings, &reach.in_vector(), parts),
    }
}

// Walks over the components of a vector.
#[cycle(walk)]
fn walk_components<'a>(
    findings: &mut Findings<'a>,
    reach: &Reach<'a>,
    parts: &[Expr<'a>],
) -> Result<(), AllocError>
    ensures { OnOk result (Walks findings.old findings.new
        (sites.components_sites (reach_of reach.now) (exprs_of parts.now))) }
{
    for part in parts {
        walk_whole(findings, reach, Role::Component, part)?;
    }
    Ok(())
}

/// Walks over a region.
#[cycle(walk)]
pub fn walk_region<'a>(
    findings: &mut Findings<'a>,
    reach: &Reach<'a>,
    hint: Rank,
    region: &Inner<'a>,
) -> Result<(), AllocError>
    ensures { OnOk result (Walks findings.old findings.new
        (sites.region_sites (reach_of reach.now) hint (inner_of region.now))) }
{
    tell_region(findings, reach, hint, region);
    match region {
        Inner::Rexpr(rexpr) => {
            walk_index(findings, reach, rexpr.pre, &rexpr.base, rexpr.post);
            walk_posts(findings, reach, rexpr.post)
        }
        Inner::Dims(dims) => walk_dims(findings, reach, dims),
    }
}

/// Walks over what stands behind a region.
#[cycle(walk)]
pub fn walk_posts<'a>(
    findings: &mut Findings<'a>,
    reach: &Reach<'a>,
    posts: &[Post<'a>],
) -> Result<(), AllocError>
    ensures { OnOk result (Walks findings.old findings.new
        (sites.posts_sites (reach_of reach.now) (posts_of posts.now))) }
{
    for post in posts {
        walk_dir(findings, reach, &post.dir)?;
    }
    Ok(())
}

// Walks over the dimensions of a region.
#[cycle(walk)]
fn walk_dims<'a>(
    findings: &mut Findings<'a>,
    reach: &Reach<'a>,
    dims: &[DimText<'a>],
) -> Result<(), AllocError>
    ensures { OnOk result (Walks findings.old findings.new
        (sites.dims_sites (reach_of reach.now) (dims_of dims.now))) }
{
    for dim in dims {
        walk_dim(findings, reach, dim)?;
    }
    Ok(())
}

// Walks over a dimension.
#[cycle(walk)]
fn walk_dim<'a>(
    findings: &mut Findings<'a>,
    reach: &Reach<'a>,
    dim: &DimText<'a>,
) -> Result<(), AllocError>
    ensures { OnOk result (Walks findings.old findings.new
        (sites.dim_sites (reach_of reach.now) (dim_of dim.now))) }
{
    match dim {
        DimText::Blank(_) | DimText::Star(_) => {}
        DimText::One(index) => {
            walk_whole(findings, reach, Role::Bound, index)?;
        }
        DimText::Span(low, high) => {
            walk_whole(findings, reach, Role::Bound, low)?;
            walk_whole(findings, reach, Role::Bound, high)?;
        }
    }
    Ok(())
}

// Walks over an index that is a name alone.
fn walk_index<'a>(
    findings: &mut Findings<'a>,
    reach: &Reach<'a>,
    pre: &[Pre<'a>],
    base: &RegionBase<'a>,
    post: &[Post<'a>],
)
    ensures { Walks findings.old findings.new (sites.index_sites (reach_of reach.now)
        (map pre_of pre.now) (base_of base.now) (posts_of post.now)) }
{
    let RegionBase::Named(name) = base else {
        return;
    };
    if is_index(&reach.scope, pre, name, post) {
        let kind = reach.kind(name);
        let part = Part::named(kind);
        let index = Expr {
            at: name.at,
            form: ExprForm::Named(*name),
        };
        tell_whole(findings, reach, Role::Bound, &index, part);
        tell_named(
            findings,
            reach,
            rank_at(reach, Role::Bound, part),
            name.at,
            name,
            kind,
        );
    }
}
