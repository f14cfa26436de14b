//! Printing expressions, directions and regions.
ghost use Rattle.std.specs.Prelude.{◌≡◌, ◌++◌, OnOk, map};
ghost use Rattle.std.specs.List.{flat_map};
ghost use Rattle.zpl_tokens.specs.declared.symbols.Sym.TheVariants as sym;
ghost use Rattle.zpl_tree.specs.Spelling.{along_words, base_words, bracket_words, dim_words};
ghost use Rattle.zpl_tree.specs.Spelling.{dims_words, dir_words, expr_words, exprs_words};
ghost use Rattle.zpl_tree.specs.Spelling.{fold_words, in_round, in_square, inner_words, name_words};
ghost use Rattle.zpl_tree.specs.Spelling.{pair_words, posts_words, pre_words, symbol};
ghost use Rattle.zpl_tree.specs.View.{base_of, bracket_of, dim_of, dims_of, dir_of, expr_of};
ghost use Rattle.zpl_tree.specs.View.{exprs_of, inner_of, name_of, posts_of, pre_of};
ghost use Rattle.zpl_tree.specs.Word.{Gains};

use super::words::{
    put_ditto, put_fold, put_index, put_keyword, put_name, put_number, put_operator, put_symbol,
};
use crate::expressions::{Expr, ExprForm};
use crate::names::Name;
use crate::regions::{DimText, Dir, Inner, Post, Pre, RegionBase};
use std::alloc::AllocError;
use zpl_nums::{Fold, Op};
use zpl_tokens::{Key, Sym};

#[cycle(print_expression)]
pub fn print_expr(text: &mut Vec<u8>, expr: &Expr<'_>) -> Result<(), AllocError>
    ensures { OnOk result (Gains text.old.items text.new.items (expr_words (expr_of expr.now))) }
{
    match &expr.form {
        ExprForm::Number(value) => put_number(text, *value),
        ExprForm::Truth(true) => put_keyword(text, Key::True),
        ExprForm::Truth(false) => put_keyword(text, Key::False),
        ExprForm::Coord(dimension) => put_index(text, *dimension),
        ExprForm::Named(name) => put_name(text, name),
        ExprForm::Shifted(name, shift) => {
            put_name(text, name)?;
            put_symbol(text, Sym::At)?;
            print_dir(text, shift)
        }
        ExprForm::Around(name, shift) => {
            put_name(text, name)?;
            put_symbol(text, Sym::At)?;
            put_symbol(text, Sym::Caret)?;
            print_dir(text, shift)
        }
        ExprForm::Remap(name, indices) => print_remap(text, name, indices),
        ExprForm::Call(name, actuals) => print_call(text, name, actuals),
        ExprForm::Paren(inside) => print_in_round(text, inside),
        ExprForm::Neg(operand) => {
            put_symbol(text, Sym::Minus)?;
            print_expr(text, operand)
        }
        ExprForm::Not(operand) => {
            put_symbol(text, Sym::Not)?;
            print_expr(text, operand)
        }
        ExprForm::Abs(operand) => {
            put_keyword(text, Key::Abs)?;
            print_in_round(text, operand)
        }
        ExprForm::Pair(op, left, right) => print_pair(text, *op, left, right),
        ExprForm::Reduce(fold, over, operand) => print_reduce(text, *fold, over, operand),
        ExprForm::Scan(fold, along, operand) => print_scan(text, *fold, *along, operand),
        ExprForm::Flood(source, operand) => {
            put_symbol(text, Sym::Flood)?;
            print_in_square(text, source)?;
            print_expr(text, operand)
        }
    }
}

/// Appends a call: the name, and the actuals in round brackets.
#[cycle(print_expression)]
pub fn print_call(
    text: &mut Vec<u8>,
    name: &Name<'_>,
    actuals: &[Expr<'_>],
) -> Result<(), AllocError>
    ensures { OnOk result (Gains text.old.items text.new.items
        (name_words (name_of name.now) ++ in_round (exprs_words (exprs_of actuals.now)))) }
{
    put_name(text, name)?;
    put_symbol(text, Sym::OpenParen)?;
    print_exprs(text, actuals)?;
    put_symbol(text, Sym::CloseParen)
}

// An array at computed indices: the name, and the indices in square brackets.
#[cycle(print_expression)]
fn print_remap(text: &mut Vec<u8>, name: &Name<'_>, indices: &[Expr<'_>]) -> Result<(), AllocError>
    ensures { OnOk result (Gains text.old.items text.new.items
        (name_words (name_of name.now) ++ symbol sym.Hash
        ++ in_square (exprs_words (exprs_of indices.now)))) }
{
    put_name(text, name)?;
    put_symbol(text, Sym::Hash)?;
    put_symbol(text, Sym::OpenBracket)?;
    print_exprs(text, indices)?;
    put_symbol(text, Sym::CloseBracket)
}

// An expression in round brackets.
#[cycle(print_expression)]
fn print_in_round(text: &mut Vec<u8>, inside: &Expr<'_>) -> Result<(), AllocError>
    ensures { OnOk result (Gains text.old.items text.new.items
        (in_round (expr_words (expr_of inside.now)))) }
{
    put_symbol(text, Sym::OpenParen)?;
    print_expr(text, inside)?;
    put_symbol(text, Sym::CloseParen)
}

// An operator between its operands, or before both in round brackets.
#[cycle(print_expression)]
fn print_pair(
    text: &mut Vec<u8>,
    op: Op,
    left: &Expr<'_>,
    right: &Expr<'_>,
) -> Result<(), AllocError>
    ensures { OnOk result (Gains text.old.items text.new.items
        (pair_words op (expr_words (expr_of left.now)) (expr_words (expr_of right.now)))) }
{
    match op {
        Op::Max | Op::Min => {
            put_operator(text, op)?;
            put_symbol(text, Sym::OpenParen)?;
            print_expr(text, left)?;
            put_symbol(text, Sym::Comma)?;
            print_expr(text, right)?;
            put_symbol(text, Sym::CloseParen)
        }
        _ => {
            print_expr(text, left)?;
            put_operator(text, op)?;
            print_expr(text, right)
        }
    }
}

// A reduction, with the region that it runs over if it is written.
#[cycle(print_expression)]
fn print_reduce(
    text: &mut Vec<u8>,
    fold: Fold,
    over: &Option<Inner<'_>>,
    operand: &Expr<'_>,
) -> Result<(), AllocError>
    ensures { OnOk result (Gains text.old.items text.new.items
        (fold_words fold ++ symbol sym.Reduce ++ bracket_words (bracket_of over.now)
        ++ expr_words (expr_of operand.now))) }
{
    put_fold(text, fold)?;
    put_symbol(text, Sym::Reduce)?;
    print_bracket(text, over)?;
    print_expr(text, operand)
}

// A scan, with the dimension that it runs along if it is written.
#[cycle(print_expression)]
fn print_scan(
    text: &mut Vec<u8>,
    fold: Fold,
    along: Option<i64>,
    operand: &Expr<'_>,
) -> Result<(), AllocError>
    ensures { OnOk result (Gains text.old.items text.new.items
        (fold_words fold ++ symbol sym.Scan ++ along_words along
        ++ expr_words (expr_of operand.now))) }
{
    put_fold(text, fold)?;
    put_symbol(text, Sym::Scan)?;
    print_along(text, along)?;
    print_expr(text, operand)
}

/// Appends expressions with commas between them.
#[cycle(print_expression)]
pub fn print_exprs(text: &mut Vec<u8>, exprs: &[Expr<'_>]) -> Result<(), AllocError>
    ensures { OnOk result (Gains text.old.items text.new.items (exprs_words (exprs_of exprs.now))) }
{
    let Some((first, rest)) = exprs.split_first() else {
        return Ok(());
    };
    print_expr(text, first)?;
    for expr in rest {
        put_symbol(text, Sym::Comma)?;
        print_expr(text, expr)?;
    }
    Ok(())
}

#[cycle(print_expression)]
fn print_dir(text: &mut Vec<u8>, dir: &Dir<'_>) -> Result<(), AllocError>
    ensures { OnOk result (Gains text.old.items text.new.items (dir_words (dir_of dir.now))) }
{
    match dir {
        Dir::Named(name) => put_name(text, name),
        Dir::Vector(parts) => {
            put_symbol(text, Sym::OpenBracket)?;
            print_exprs(text, parts)?;
            put_symbol(text, Sym::CloseBracket)
        }
    }
}

/// Appends a region in its brackets, if there is one.
#[cycle(print_expression)]
pub fn print_bracket(text: &mut Vec<u8>, bracket: &Option<Inner<'_>>) -> Result<(), AllocError>
    ensures { OnOk result (Gains text.old.items text.new.items
        (bracket_words (bracket_of bracket.now))) }
{
    match bracket {
        None => Ok(()),
        Some(inner) => print_in_square(text, inner),
    }
}

/// Appends a region in its brackets.
#[cycle(print_expression)]
pub fn print_in_square(text: &mut Vec<u8>, inner: &Inner<'_>) -> Result<(), AllocError>
    ensures { OnOk result (Gains text.old.items text.new.items
        (in_square (inner_words (inner_of inner.now)))) }
{
    put_symbol(text, Sym::OpenBracket)?;
    print_inner(text, inner)?;
    put_symbol(text, Sym::CloseBracket)
}

#[cycle(print_expression)]
pub fn print_inner(text: &mut Vec<u8>, inner: &Inner<'_>) -> Result<(), AllocError>
    ensures { OnOk result (Gains text.old.items text.new.items (inner_words (inner_of inner.now))) }
{
    match inner {
        Inner::Rexpr(rexpr) => {
            print_pres(text, rexpr.pre)?;
            print_base(text, &rexpr.base)?;
            print_posts(text, rexpr.post)
        }
        Inner::Dims(dims) => print_dims(text, dims),
    }
}

#[cycle(print_expression)]
pub fn print_posts(text: &mut Vec<u8>, posts: &[Post<'_>]) -> Result<(), AllocError>
    ensures { OnOk result (Gains text.old.items text.new.items (posts_words (posts_of posts.now))) }
{
    for post in posts {
        put_keyword(text, if post.stride { Key::By } else { Key::At })?;
        print_dir(text, &post.dir)?;
    }
    Ok(())
}

#[cycle(print_expression)]
fn print_dims(text: &mut Vec<u8>, dims: &[DimText<'_>]) -> Result<(), AllocError>
    ensures { OnOk result (Gains text.old.items text.new.items (dims_words (dims_of dims.now))) }
{
    let Some((first, rest)) = dims.split_first() else {
        return Ok(());
    };
    print_dim(text, first)?;
    for dim in rest {
        put_symbol(text, Sym::Comma)?;
        print_dim(text, dim)?;
    }
    Ok(())
}

#[cycle(print_expression)]
fn print_dim(text: &mut Vec<u8>, dim: &DimText<'_>) -> Result<(), AllocError>
    ensures { OnOk result (Gains text.old.items text.new.items (dim_words (dim_of dim.now))) }
{
    match dim {
        DimText::Blank(_) => Ok(()),
        DimText::Star(_) => put_symbol(text, Sym::Star),
        DimText::One(index) => print_expr(text, index),
        DimText::Span(low, high) => {
            print_expr(text, low)?;
            put_symbol(text, Sym::DotDot)?;
            print_expr(text, high)
        }
    }
}

// What stands before a region: directions with their `of` and `in`.
fn print_pres(text: &mut Vec<u8>, pres: &[Pre<'_>]) -> Result<(), AllocError>
    ensures { OnOk result (Gains text.old.items text.new.items
        (flat_map pre_words (map pre_of pres.now))) }
{
    for pre in pres {
        put_name(text, &pre.dir)?;
        put_keyword(text, if pre.outside { Key::Of } else { Key::In })?;
    }
    Ok(())
}

// The region that a region expression begins with.
fn print_base(text: &mut Vec<u8>, base: &RegionBase<'_>) -> Result<(), AllocError>
    ensures { OnOk result (Gains text.old.items text.new.items (base_words (base_of base.now))) }
{
    match base {
        RegionBase::Named(name) => put_name(text, name),
        RegionBase::Ditto(_) => put_ditto(text),
    }
}

// The dimension that a scan runs along, if it is written.
fn print_along(text: &mut Vec<u8>, along: Option<i64>) -> Result<(), AllocError>
    ensures { OnOk result (Gains text.old.items text.new.items (along_words along)) }
{
    let Some(dimension) = along else {
        return Ok(());
    };
    put_symbol(text, Sym::OpenBracket)?;
    put_number(text, dimension)?;
    put_symbol(text, Sym::CloseBracket)
}
