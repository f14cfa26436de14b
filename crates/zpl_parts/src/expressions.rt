//! The parts of expressions, directions and regions.
ghost use Rattle.std.specs.Prelude.{◌≡◌, ◌++◌, OnOk};
ghost use Rattle.zpl_binding.specs.of_zpl_tree.View.{bracket_of, dim_of, dims_of, dir_of, expr_of, exprs_of};
ghost use Rattle.zpl_binding.specs.of_zpl_tree.View.{inner_of, posts_of};
ghost use Rattle.zpl_parts.specs.View.{seen};
ghost use Rattle.zpl_parts.specs.Walk.{bracket_parts, dim_parts, dims_parts, dir_parts, expr_parts};
ghost use Rattle.zpl_parts.specs.Walk.{exprs_parts, inner_parts, posts_parts};

use crate::parts::{Part, Parts};
use std::alloc::AllocError;
use zpl_tree::{DimText, Dir, Expr, ExprForm, Inner, Post};

#[cycle(walk_expression)]
pub fn walk_expr<'a>(
    into: &mut Parts<'a>,
    declared: bool,
    expr: &Expr<'a>,
) -> Result<(), AllocError>
    ensures { OnOk result (seen into.new
        ≡ seen into.old ++ expr_parts declared (expr_of expr.now)) }
{
    match &expr.form {
        ExprForm::Number(_) | ExprForm::Truth(_) | ExprForm::Coord(_) | ExprForm::Named(_) => Ok(
            (),
        ),
        ExprForm::Shifted(_, shift) => walk_dir(into, declared, shift),
        ExprForm::Around(name, shift) => {
            into.put(Part::Around(*name, *shift))?;
            walk_dir(into, declared, shift)
        }
        ExprForm::Remap(_, indices) => walk_exprs(into, declared, indices),
        ExprForm::Call(name, actuals) => {
            into.put(Part::Call(*name, actuals))?;
            walk_exprs(into, declared, actuals)
        }
        ExprForm::Paren(operand)
        | ExprForm::Neg(operand)
        | ExprForm::Not(operand)
        | ExprForm::Abs(operand)
        | ExprForm::Scan(_, _, operand) => walk_expr(into, declared, operand),
        ExprForm::Pair(_, left, right) => {
            walk_expr(into, declared, left)?;
            walk_expr(into, declared, right)
        }
        ExprForm::Reduce(_, over, operand) => {
            walk_bracket(into, declared, over)?;
            walk_expr(into, declared, operand)
        }
        ExprForm::Flood(source, operand) => {
            walk_inner(into, declared, source)?;
            walk_expr(into, declared, operand)
        }
    }
}

#[cycle(walk_expression)]
pub fn walk_exprs<'a>(
    into: &mut Parts<'a>,
    declared: bool,
    exprs: &[Expr<'a>],
) -> Result<(), AllocError>
    ensures { OnOk result (seen into.new
        ≡ seen into.old ++ exprs_parts declared (exprs_of exprs.now)) }
{
    for expr in exprs {
        walk_expr(into, declared, expr)?;
    }
    Ok(())
}

#[cycle(walk_expression)]
fn walk_dir<'a>(into: &mut Parts<'a>, declared: bool, dir: &Dir<'a>) -> Result<(), AllocError>
    ensures { OnOk result (seen into.new ≡ seen into.old ++ dir_parts declared (dir_of dir.now)) }
{
    match dir {
        Dir::Named(_) => Ok(()),
        Dir::Vector(parts) => {
            into.put_vector(declared, parts)?;
            walk_exprs(into, declared, parts)
        }
    }
}

#[cycle(walk_expression)]
pub fn walk_bracket<'a>(
    into: &mut Parts<'a>,
    declared: bool,
    bracket: &Option<Inner<'a>>,
) -> Result<(), AllocError>
    ensures { OnOk result (seen into.new
        ≡ seen into.old ++ bracket_parts declared (bracket_of bracket.now)) }
{
    match bracket {
        None => Ok(()),
        Some(inner) => walk_inner(into, declared, inner),
    }
}

#[cycle(walk_expression)]
pub fn walk_inner<'a>(
    into: &mut Parts<'a>,
    declared: bool,
    inner: &Inner<'a>,
) -> Result<(), AllocError>
    ensures { OnOk result (seen into.new
        ≡ seen into.old ++ inner_parts declared (inner_of inner.now)) }
{
    match inner {
        Inner::Rexpr(rexpr) => {
            into.put_border(rexpr.pre, &rexpr.base, rexpr.post)?;
            walk_posts(into, declared, rexpr.post)
        }
        Inner::Dims(dims) => walk_dims(into, declared, dims),
    }
}

#[cycle(walk_expression)]
pub fn walk_posts<'a>(
    into: &mut Parts<'a>,
    declared: bool,
    posts: &[Post<'a>],
) -> Result<(), AllocError>
    ensures { OnOk result (seen into.new
        ≡ seen into.old ++ posts_parts declared (posts_of posts.now)) }
{
    for post in posts {
        walk_dir(into, declared, &post.dir)?;
    }
    Ok(())
}

#[cycle(walk_expression)]
fn walk_dims<'a>(
    into: &mut Parts<'a>,
    declared: bool,
    dims: &[DimText<'a>],
) -> Result<(), AllocError>
    ensures { OnOk result (seen into.new
        ≡ seen into.old ++ dims_parts declared (dims_of dims.now)) }
{
    for dim in dims {
        walk_dim(into, declared, dim)?;
    }
    Ok(())
}

#[cycle(walk_expression)]
fn walk_dim<'a>(into: &mut Parts<'a>, declared: bool, dim: &DimText<'a>) -> Result<(), AllocError>
    ensures { OnOk result (seen into.new ≡ seen into.old ++ dim_parts declared (dim_of dim.now)) }
{
    match dim {
        DimText::Blank(_) | DimText::Star(_) => Ok(()),
        DimText::One(index) => walk_expr(into, declared, index),
        DimText::Span(low, high) => {
            walk_expr(into, declared, low)?;
            walk_expr(into, declared, high)
        }
    }
}
