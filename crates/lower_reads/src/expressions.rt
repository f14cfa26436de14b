//! Reads that wrap round in expressions.
ghost use Rattle.std.specs.Prelude.{◌≡◌, ◌+◌, OnOk, map};
ghost use Rattle.zpl_lowering.specs.of_zpl_tree.View.{dim_of, dims_of, dir_of, expr_of, exprs_of};
ghost use Rattle.zpl_lowering.specs.of_zpl_tree.View.{inner_of, posts_of, prefix_of};
ghost use Rattle.lower_reads.specs.Reads.{dim_reads, dims_reads, dir_reads, expr_reads};
ghost use Rattle.lower_reads.specs.Reads.{exprs_reads, inner_reads, posts_reads, prefixes_reads};

use std::alloc::AllocError;
use zpl_tree::{
    DimText, Dir, Expr, ExprForm, Inner, Post, Prefix, nodes_are_seen_with_their_lists,
};

/// One more. From 2^32 on there is no room for the number.
fn add_one(count: &mut u32) -> Result<(), AllocError>
    ensures { OnOk result (count.new ≡ count.old + 1) }
{
    *count = count.checked_add(1).ok_or(AllocError)?;
    Ok(())
}

/// Counts the reads in an expression.
#[cycle(reads)]
pub fn count_expr(count: &mut u32, expr: &Expr<'_>) -> Result<(), AllocError>
    ensures { OnOk result (count.new ≡ count.old + expr_reads (expr_of expr.now)) }
{
    nodes_are_seen_with_their_lists();
    match &expr.form {
        ExprForm::Number(_) | ExprForm::Truth(_) | ExprForm::Coord(_) | ExprForm::Named(_) => Ok(
            (),
        ),
        ExprForm::Shifted(_, shift) => {
            count_dir(count, shift)?;
            Ok(())
        }
        ExprForm::Around(_, shift) => {
            add_one(count)?;
            count_dir(count, shift)?;
            Ok(())
        }
        ExprForm::Remap(_, indices) => {
            count_exprs(count, indices)?;
            Ok(())
        }
        ExprForm::Call(_, actuals) => {
            count_exprs(count, actuals)?;
            Ok(())
        }
        ExprForm::Paren(inside) => {
            count_expr(count, inside)?;
            Ok(())
        }
        ExprForm::Neg(operand) => {
            count_expr(count, operand)?;
            Ok(())
        }
        ExprForm::Not(operand) => {
            count_expr(count, operand)?;
            Ok(())
        }
        ExprForm::Abs(operand) => {
            count_expr(count, operand)?;
            Ok(())
        }
        ExprForm::Pair(_, left, right) => {
            count_expr(count, left)?;
            count_expr(count, right)?;
            Ok(())
        }
        ExprForm::Reduce(_, None, operand) => {
            count_expr(count, operand)?;
            Ok(())
        }
        ExprForm::Reduce(_, Some(source), operand) => {
            count_inner(count, source)?;
            count_expr(count, operand)?;
            Ok(())
        }
        ExprForm::Scan(_, _, operand) => {
            count_expr(count, operand)?;
            Ok(())
        }
        ExprForm::Flood(source, operand) => {
            count_inner(count, source)?;
            count_expr(count, operand)?;
            Ok(())
        }
    }
}

/// Counts the reads in expressions.
#[cycle(reads)]
pub fn count_exprs(count: &mut u32, exprs: &[Expr<'_>]) -> Result<(), AllocError>
    ensures { OnOk result (count.new ≡ count.old + exprs_reads (exprs_of exprs.now)) }
{
    for expr in exprs {
        count_expr(count, expr)?;
    }
    Ok(())
}

/// Counts the reads in a vector.
#[cycle(reads)]
fn count_dir(count: &mut u32, dir: &Dir<'_>) -> Result<(), AllocError>
    ensures { OnOk result (count.new ≡ count.old + dir_reads (dir_of dir.now)) }
{
    nodes_are_seen_with_their_lists();
    match dir {
        Dir::Named(_) => Ok(()),
        Dir::Vector(parts) => {
            count_exprs(count, parts)?;
            Ok(())
        }
    }
}

/// Counts the reads in a bracket.
#[cycle(reads)]
fn count_inner(count: &mut u32, inner: &Inner<'_>) -> Result<(), AllocError>
    ensures { OnOk result (count.new ≡ count.old + inner_reads (inner_of inner.now)) }
{
    nodes_are_seen_with_their_lists();
    match inner {
        Inner::Rexpr(rexpr) => {
            count_posts(count, rexpr.post)?;
            Ok(())
        }
        Inner::Dims(dims) => {
            count_dims(count, dims)?;
            Ok(())
        }
    }
}

/// Counts the reads in vectors behind a region.
#[cycle(reads)]
fn count_posts(count: &mut u32, posts: &[Post<'_>]) -> Result<(), AllocError>
    ensures { OnOk result (count.new ≡ count.old + posts_reads (posts_of posts.now)) }
{
    for post in posts {
        count_dir(count, &post.dir)?;
    }
    Ok(())
}

/// Counts the reads in the bounds of a dimension.
#[cycle(reads)]
fn count_dim(count: &mut u32, dim: &DimText<'_>) -> Result<(), AllocError>
    ensures { OnOk result (count.new ≡ count.old + dim_reads (dim_of dim.now)) }
{
    match dim {
        DimText::Blank(_) | DimText::Star(_) => Ok(()),
        DimText::One(index) => {
            count_expr(count, index)?;
            Ok(())
        }
        DimText::Span(low, high) => {
            count_expr(count, low)?;
            count_expr(count, high)?;
            Ok(())
        }
    }
}

/// Counts the reads in bounds.
#[cycle(reads)]
fn count_dims(count: &mut u32, dims: &[DimText<'_>]) -> Result<(), AllocError>
    ensures { OnOk result (count.new ≡ count.old + dims_reads (dims_of dims.now)) }
{
    for dim in dims {
        count_dim(count, dim)?;
    }
    Ok(())
}

/// Counts the reads in the brackets of prefixes.
pub fn count_prefixes(count: &mut u32, prefixes: &[Prefix<'_>]) -> Result<(), AllocError>
    ensures { OnOk result (count.new
        ≡ count.old + prefixes_reads (map prefix_of prefixes.now)) }
{
    for prefix in prefixes {
        count_inner(count, &prefix.region)?;
    }
    Ok(())
}
