//! Rules of expressions.
ghost use Rattle.std.specs.Prelude.{◌≡◌, ◌<◌, ◌≤◌, ◌-◌, ℕ, length, Some, IfOk, MatchResult};
ghost use Rattle.zpl_tree.specs.Depth.{expr_depth, exprs_depth};
ghost use Rattle.zpl_tree.specs.Syntax.{Pair as PairTree};
ghost use Rattle.zpl_tree.specs.View.{expr_of, exprs_of, form_of, name_of};
ghost use Rattle.zpl_parse.specs.declared.classes.Opening.TheVariants as opening;
ghost use Rattle.zpl_parse.specs.declared.faults.ParseFault.TheVariants.{NoMemory};
ghost use Rattle.zpl_parse.specs.Classes.{folding_of};
ghost use Rattle.zpl_parse.specs.Reading.{IsReadDeep};
ghost use Rattle.zpl_parse.specs.Operators.{of_level, operand_of};
ghost use Rattle.zpl_grammar.specs.Lexeme.{lexeme_of, head_kind};
ghost use Rattle.zpl_parse.specs.Expressions.{levels};
ghost use Rattle.zpl_parse.specs.Expressions as rule;

use crate::classes::{
    Folding, Level, Opening, Suffix, below, folded_by, opened_by, operator, stands_alone,
    suffixed_by,
};
use crate::faults::ParseFault;
use crate::placing::{placed, placed_list};
use crate::regions::{bracket, dir, in_bracket};
use crate::tokens::{
    ReadDeep, along, begins_with, behind, first_kind, named, refused, symbol, too_deep,
};
use bumpalo::Bump;
use std::alloc::Global;
use zpl_nums::{Fold, Op};
use zpl_text::Token;
use zpl_tokens::{Kind, Sym};
use zpl_tree::{Expr, ExprForm, Name};

/// An expression, of depth `deep` at most.
#[cycle(expression)]
pub fn expr<'a, 't>(
    alloc: Global,
    arena: &'a Bump<Global>,
    bytes: &'a [u8],
    tokens: &'t [Token],
    deep: u32,
) -> ReadDeep<'t, Expr<'a>>
    ensures follows { (most : ℕ) → length tokens.now < most
        → IsReadDeep result (levels most deep).expr expr_of bytes.now tokens.now }
    ensures shorter { IfOk result (λ r. length r.2.now < length tokens.now) }
    ensures depth { IfOk result (λ r. r.1 ≡ expr_depth (expr_of r.0)) }
    ensures within { IfOk result (λ r. r.1 ≤ deep) }
{
    operations(alloc, arena, bytes, Level::Or, tokens, deep)
}

/// Operands with the operators of a level between them, which group to the left:
///
/// expr = conj { "|" conj }; conj = comp { "&" comp };
/// comp = sum [ ( "=" | "!=" | "<" | "<=" | ">" | ">=" ) sum ];
/// sum = term { ( "+" | "-" ) term }; term = unary { ( "*" | "/" | "%" ) unary }.
#[cycle(expression)]
fn operations<'a, 't>(
    alloc: Global,
    arena: &'a Bump<Global>,
    bytes: &'a [u8],
    level: Level,
    tokens: &'t [Token],
    deep: u32,
) -> ReadDeep<'t, Expr<'a>>
    ensures follows { (most : ℕ) → length tokens.now < most
        → IsReadDeep result (of_level level (levels most deep)) expr_of bytes.now tokens.now }
    ensures shorter { IfOk result (λ r. length r.2.now < length tokens.now) }
    ensures depth { IfOk result (λ r. r.1 ≡ expr_depth (expr_of r.0)) }
    ensures within { IfOk result (λ r. r.1 ≤ deep) }
{
    let (mut left, mut depth, mut rest) = operand(alloc, arena, bytes, level, tokens, deep)?;
    while let Some(op) = operator(level, first_kind(rest)) {
        if depth >= deep {
            return Err(ParseFault::TooDeep);
        }
        let next = behind(rest);
        let (right, right_depth, after) = operand(alloc, arena, bytes, level, next, deep - 1)?;
        left = pair(arena, left.at, op, left, right)?;
        depth = 1 + depth.max(right_depth);
        rest = after;
        if stands_alone(level) {
            return Ok((left, depth, rest));
        }
    }
    Ok((left, depth, rest))
}

/// What stands between the operators of a level.
#[cycle(expression)]
fn operand<'a, 't>(
    alloc: Global,
    arena: &'a Bump<Global>,
    bytes: &'a [u8],
    level: Level,
    tokens: &'t [Token],
    deep: u32,
) -> ReadDeep<'t, Expr<'a>>
    ensures follows { (most : ℕ) → length tokens.now < most
        → IsReadDeep result (operand_of level (levels most deep)) expr_of bytes.now tokens.now }
    ensures shorter { IfOk result (λ r. length r.2.now < length tokens.now) }
    ensures depth { IfOk result (λ r. r.1 ≡ expr_depth (expr_of r.0)) }
    ensures within { IfOk result (λ r. r.1 ≤ deep) }
{
    match below(level) {
        Some(level) => operations(alloc, arena, bytes, level, tokens, deep),
        None => unary(alloc, arena, bytes, tokens, deep),
    }
}

/// unary = ( "-" | "!" ) unary | foldop "<<" [ bracket ] unary
/// | foldop "||" [ "[" NUMBER "]" ] unary | ">>" bracket unary | primary.
#[cycle(expression)]
fn unary<'a, 't>(
    alloc: Global,
    arena: &'a Bump<Global>,
    bytes: &'a [u8],
    tokens: &'t [Token],
    deep: u32,
) -> ReadDeep<'t, Expr<'a>>
    ensures follows { (most : ℕ) → length tokens.now < most
        → IsReadDeep result (levels most deep).unary expr_of bytes.now tokens.now }
    ensures shorter { IfOk result (λ r. length r.2.now < length tokens.now) }
    ensures depth { IfOk result (λ r. r.1 ≡ expr_depth (expr_of r.0)) }
    ensures within { IfOk result (λ r. r.1 ≤ deep) }
{
    let Some((first, rest)) = tokens.split_first() else {
        return Err(refused(tokens));
    };
    let opening = opened_by(first.kind);
    if deep == 0 {
        return Err(too_deep(opening.is_some(), tokens));
    }
    match opening {
        Some(opening) => opened(alloc, arena, bytes, opening, first, rest, deep),
        None => Err(refused(tokens)),
    }
}

/// unary, behind its first token.
#[cycle(expression)]
fn opened<'a, 't>(
    alloc: Global,
    arena: &'a Bump<Global>,
    bytes: &'a [u8],
    opening: Opening,
    first: &Token,
    tokens: &'t [Token],
    deep: u32,
) -> ReadDeep<'t, Expr<'a>>
    requires { 0 < deep }
    ensures follows { (most : ℕ) → length tokens.now < most
        → IsReadDeep result
        (rule.unary_by most (levels most (deep - 1)) (Some opening)
        (lexeme_of bytes.now first.now))
        expr_of bytes.now tokens.now }
    ensures shorter { IfOk result (λ r. length r.2.now ≤ length tokens.now) }
    ensures depth { IfOk result (λ r. r.1 ≡ expr_depth (expr_of r.0)) }
    ensures within { IfOk result (λ r. r.1 ≤ deep) }
{
    let at = first.from;
    match opening {
        Opening::Number(value) => Ok((leaf(at, ExprForm::Number(value)), 1, tokens)),
        Opening::Truth(value) => Ok((leaf(at, ExprForm::Truth(value)), 1, tokens)),
        Opening::Coord(dimension) => Ok((leaf(at, ExprForm::Coord(dimension)), 1, tokens)),
        Opening::Name => behind_name(alloc, arena, bytes, named(bytes, first), tokens, deep),
        Opening::Paren => {
            let (inside, depth, rest) = inside(alloc, arena, bytes, tokens, deep - 1)?;
            let inside = placed(arena, inside)?;
            Ok((leaf(at, ExprForm::Paren(inside)), 1 + depth, rest))
        }
        Opening::Minus => {
            let (operand, depth, rest) = unary(alloc, arena, bytes, tokens, deep - 1)?;
            let operand = placed(arena, operand)?;
            Ok((leaf(at, ExprForm::Neg(operand)), 1 + depth, rest))
        }
        Opening::Not => {
            let (operand, depth, rest) = unary(alloc, arena, bytes, tokens, deep - 1)?;
            let operand = placed(arena, operand)?;
            Ok((leaf(at, ExprForm::Not(operand)), 1 + depth, rest))
        }
        Opening::Abs => absolute(alloc, arena, bytes, first, tokens, deep),
        Opening::Fold(operator) => folded(alloc, arena, bytes, at, operator, tokens, deep),
        Opening::Flood => flood(alloc, arena, bytes, first, tokens, deep),
    }
}

/// "(" expr ")", behind an "abs".
#[cycle(expression)]
fn absolute<'a, 't>(
    alloc: Global,
    arena: &'a Bump<Global>,
    bytes: &'a [u8],
    first: &Token,
    tokens: &'t [Token],
    deep: u32,
) -> ReadDeep<'t, Expr<'a>>
    requires { 0 < deep }
    ensures follows { (most : ℕ) → length tokens.now < most
        → IsReadDeep result
        (rule.unary_by most (levels most (deep - 1)) (Some opening.Abs)
        (lexeme_of bytes.now first.now))
        expr_of bytes.now tokens.now }
    ensures shorter { IfOk result (λ r. length r.2.now < length tokens.now) }
    ensures depth { IfOk result (λ r. r.1 ≡ expr_depth (expr_of r.0)) }
    ensures within { IfOk result (λ r. r.1 ≤ deep) }
{
    let (_, rest) = symbol(tokens, Sym::OpenParen)?;
    let (inside, depth, rest) = inside(alloc, arena, bytes, rest, deep - 1)?;
    let inside = placed(arena, inside)?;
    Ok((leaf(first.from, ExprForm::Abs(inside)), 1 + depth, rest))
}

/// bracket unary, behind a ">>".
#[cycle(expression)]
fn flood<'a, 't>(
    alloc: Global,
    arena: &'a Bump<Global>,
    bytes: &'a [u8],
    first: &Token,
    tokens: &'t [Token],
    deep: u32,
) -> ReadDeep<'t, Expr<'a>>
    requires { 0 < deep }
    ensures follows { (most : ℕ) → length tokens.now < most
        → IsReadDeep result
        (rule.unary_by most (levels most (deep - 1)) (Some opening.Flood)
        (lexeme_of bytes.now first.now))
        expr_of bytes.now tokens.now }
    ensures shorter { IfOk result (λ r. length r.2.now < length tokens.now) }
    ensures depth { IfOk result (λ r. r.1 ≡ expr_depth (expr_of r.0)) }
    ensures within { IfOk result (λ r. r.1 ≤ deep) }
{
    let (source, source_depth, rest) = in_bracket(alloc, arena, bytes, tokens, deep - 1)?;
    let (operand, depth, rest) = unary(alloc, arena, bytes, rest, deep - 1)?;
    let operand = placed(arena, operand)?;
    let form = ExprForm::Flood(source, operand);
    Ok((leaf(first.from, form), 1 + depth.max(source_depth), rest))
}

/// What stands behind a name: [ "@" [ "^" ] dir ] | "#" "[" expr { "," expr } "]"
/// | "(" [ expr { "," expr } ] ")".
#[cycle(expression)]
fn behind_name<'a, 't>(
    alloc: Global,
    arena: &'a Bump<Global>,
    bytes: &'a [u8],
    name: Name<'a>,
    tokens: &'t [Token],
    deep: u32,
) -> ReadDeep<'t, Expr<'a>>
    requires { 0 < deep }
    ensures follows { (most : ℕ) → length tokens.now < most
        → IsReadDeep result (rule.behind_name most (levels most (deep - 1)) (name_of name.entry))
        expr_of bytes.now tokens.now }
    ensures shorter { IfOk result (λ r. length r.2.now ≤ length tokens.now) }
    ensures depth { IfOk result (λ r. r.1 ≡ expr_depth (expr_of r.0)) }
    ensures within { IfOk result (λ r. r.1 ≤ deep) }
{
    let at = name.at;
    let Some(suffix) = suffixed_by(first_kind(tokens)) else {
        return Ok((leaf(at, ExprForm::Named(name)), 1, tokens));
    };
    let rest = behind(tokens);
    match suffix {
        Suffix::Shift => shifted(alloc, arena, bytes, name, rest, deep),
        Suffix::Remap => remapped(alloc, arena, bytes, name, rest, deep),
        Suffix::Call => {
            let (those, depth, rest) = actuals(alloc, arena, bytes, rest, deep - 1)?;
            Ok((leaf(at, ExprForm::Call(name, those)), 1 + depth, rest))
        }
    }
}

/// [ "^" ] dir, behind a name and an "@".
#[cycle(expression)]
fn shifted<'a, 't>(
    alloc: Global,
    arena: &'a Bump<Global>,
    bytes: &'a [u8],
    name: Name<'a>,
    tokens: &'t [Token],
    deep: u32,
) -> ReadDeep<'t, Expr<'a>>
    requires { 0 < deep }
    ensures follows { (most : ℕ) → length tokens.now < most
        → IsReadDeep result (rule.shifted most (levels most (deep - 1)) (name_of name.entry))
        expr_of bytes.now tokens.now }
    ensures shorter { IfOk result (λ r. length r.2.now < length tokens.now) }
    ensures depth { IfOk result (λ r. r.1 ≡ expr_depth (expr_of r.0)) }
    ensures within { IfOk result (λ r. r.1 ≤ deep) }
{
    let at = name.at;
    if begins_with(tokens, Kind::Symbol(Sym::Caret)) {
        let (way, depth, rest) = dir(alloc, arena, bytes, behind(tokens), deep - 1)?;
        return Ok((leaf(at, ExprForm::Around(name, way)), 1 + depth, rest));
    }
    let (way, depth, rest) = dir(alloc, arena, bytes, tokens, deep - 1)?;
    Ok((leaf(at, ExprForm::Shifted(name, way)), 1 + depth, rest))
}

/// "[" expr { "," expr } "]", behind a name and a "#".
#[cycle(expression)]
fn remapped<'a, 't>(
    alloc: Global,
    arena: &'a Bump<Global>,
    bytes: &'a [u8],
    name: Name<'a>,
    tokens: &'t [Token],
    deep: u32,
) -> ReadDeep<'t, Expr<'a>>
    requires { 0 < deep }
    ensures follows { (most : ℕ) → length tokens.now < most
        → IsReadDeep result (rule.remapped most (levels most (deep - 1)) (name_of name.entry))
        expr_of bytes.now tokens.now }
    ensures shorter { IfOk result (λ r. length r.2.now < length tokens.now) }
    ensures depth { IfOk result (λ r. r.1 ≡ expr_depth (expr_of r.0)) }
    ensures within { IfOk result (λ r. r.1 ≤ deep) }
{
    let at = name.at;
    let (_, rest) = symbol(tokens, Sym::OpenBracket)?;
    let (indices, depth, rest) = components(alloc, arena, bytes, rest, deep - 1)?;
    Ok((leaf(at, ExprForm::Remap(name, indices)), 1 + depth, rest))
}

/// What stands behind an operator that folds: "<<" [ bracket ] unary
/// | "||" [ "[" NUMBER "]" ] unary, and for two of them "(" expr "," expr ")".
#[cycle(expression)]
fn folded<'a, 't>(
    alloc: Global,
    arena: &'a Bump<Global>,
    bytes: &'a [u8],
    at: u32,
    operator: Fold,
    tokens: &'t [Token],
    deep: u32,
) -> ReadDeep<'t, Expr<'a>>
    requires { 0 < deep }
    ensures follows { (most : ℕ) → length tokens.now < most
        → IsReadDeep result
        (λ lexemes. rule.folded most at operator (levels most (deep - 1))
        (folding_of operator (head_kind lexemes)) lexemes)
        expr_of bytes.now tokens.now }
    ensures shorter { IfOk result (λ r. length r.2.now ≤ length tokens.now) }
    ensures depth { IfOk result (λ r. r.1 ≡ expr_depth (expr_of r.0)) }
    ensures within { IfOk result (λ r. r.1 ≤ deep) }
{
    match folded_by(operator, first_kind(tokens)) {
        Some(Folding::Reduce) => {
            let (over, over_depth, rest) = bracket(alloc, arena, bytes, behind(tokens), deep - 1)?;
            let (operand, depth, rest) = unary(alloc, arena, bytes, rest, deep - 1)?;
            let operand = placed(arena, operand)?;
            Ok((
                leaf(at, ExprForm::Reduce(operator, over, operand)),
                1 + depth.max(over_depth),
                rest,
            ))
        }
        Some(Folding::Scan) => {
            let (dimension, rest) = along(behind(tokens))?;
            let (operand, depth, rest) = unary(alloc, arena, bytes, rest, deep - 1)?;
            let operand = placed(arena, operand)?;
            Ok((
                leaf(at, ExprForm::Scan(operator, dimension, operand)),
                1 + depth,
                rest,
            ))
        }
        Some(Folding::Pair(op)) => both(alloc, arena, bytes, at, op, behind(tokens), deep),
        None => Err(refused(tokens)),
    }
}

/// expr "," expr ")", behind a "(".
#[cycle(expression)]
fn both<'a, 't>(
    alloc: Global,
    arena: &'a Bump<Global>,
    bytes: &'a [u8],
    at: u32,
    op: Op,
    tokens: &'t [Token],
    deep: u32,
) -> ReadDeep<'t, Expr<'a>>
    requires { 0 < deep }
    ensures follows { (most : ℕ) → length tokens.now < most
        → IsReadDeep result (rule.both at op (levels most (deep - 1))) expr_of
        bytes.now tokens.now }
    ensures shorter { IfOk result (λ r. length r.2.now < length tokens.now) }
    ensures depth { IfOk result (λ r. r.1 ≡ expr_depth (expr_of r.0)) }
    ensures within { IfOk result (λ r. r.1 ≤ deep) }
{
    let (left, left_depth, rest) = expr(alloc, arena, bytes, tokens, deep - 1)?;
    let (_, rest) = symbol(rest, Sym::Comma)?;
    let (right, right_depth, rest) = inside(alloc, arena, bytes, rest, deep - 1)?;
    let both = pair(arena, at, op, left, right)?;
    Ok((both, 1 + left_depth.max(right_depth), rest))
}

/// expr ")", behind a "(".
#[cycle(expression)]
fn inside<'a, 't>(
    alloc: Global,
    arena: &'a Bump<Global>,
    bytes: &'a [u8],
    tokens: &'t [Token],
    deep: u32,
) -> ReadDeep<'t, Expr<'a>>
    ensures follows { (most : ℕ) → length tokens.now < most
        → IsReadDeep result (rule.inside (levels most deep)) expr_of bytes.now tokens.now }
    ensures shorter { IfOk result (λ r. length r.2.now < length tokens.now) }
    ensures depth { IfOk result (λ r. r.1 ≡ expr_depth (expr_of r.0)) }
    ensures within { IfOk result (λ r. r.1 ≤ deep) }
{
    let (value, depth, rest) = expr(alloc, arena, bytes, tokens, deep)?;
    let (_, rest) = symbol(rest, Sym::CloseParen)?;
    Ok((value, depth, rest))
}

/// [ expr { "," expr } ] ")", behind a "(".
#[cycle(expression)]
pub fn actuals<'a, 't>(
    alloc: Global,
    arena: &'a Bump<Global>,
    bytes: &'a [u8],
    tokens: &'t [Token],
    deep: u32,
) -> ReadDeep<'t, &'a [Expr<'a>]>
    ensures follows { (few most : ℕ) → length tokens.now < few → length tokens.now < most
        → IsReadDeep result (rule.actuals few (levels most deep).expr) (λ read. exprs_of read.now)
        bytes.now tokens.now }
    ensures shorter { IfOk result (λ r. length r.2.now ≤ length tokens.now) }
    ensures depth { IfOk result (λ r. r.1 ≡ exprs_depth (exprs_of r.0.now)) }
    ensures within { IfOk result (λ r. r.1 ≤ deep) }
{
    if begins_with(tokens, Kind::Symbol(Sym::CloseParen)) {
        return Ok((&[], 0, behind(tokens)));
    }
    let (those, depth, rest) = exprs(alloc, arena, bytes, tokens, deep)?;
    let (_, rest) = symbol(rest, Sym::CloseParen)?;
    Ok((those, depth, rest))
}

/// expr { "," expr } "]", behind a "[".
#[cycle(expression)]
pub fn components<'a, 't>(
    alloc: Global,
    arena: &'a Bump<Global>,
    bytes: &'a [u8],
    tokens: &'t [Token],
    deep: u32,
) -> ReadDeep<'t, &'a [Expr<'a>]>
    ensures follows { (few most : ℕ) → length tokens.now < few → length tokens.now < most
        → IsReadDeep result (rule.components few (levels most deep).expr)
        (λ read. exprs_of read.now) bytes.now tokens.now }
    ensures shorter { IfOk result (λ r. length r.2.now < length tokens.now) }
    ensures depth { IfOk result (λ r. r.1 ≡ exprs_depth (exprs_of r.0.now)) }
    ensures within { IfOk result (λ r. r.1 ≤ deep) }
{
    let (parts, depth, rest) = exprs(alloc, arena, bytes, tokens, deep)?;
    let (_, rest) = symbol(rest, Sym::CloseBracket)?;
    Ok((parts, depth, rest))
}

/// expr { "," expr }.
#[cycle(expression)]
fn exprs<'a, 't>(
    alloc: Global,
    arena: &'a Bump<Global>,
    bytes: &'a [u8],
    tokens: &'t [Token],
    deep: u32,
) -> ReadDeep<'t, &'a [Expr<'a>]>
    ensures follows { (few most : ℕ) → length tokens.now < few → length tokens.now < most
        → IsReadDeep result (rule.exprs few (levels most deep).expr) (λ read. exprs_of read.now)
        bytes.now tokens.now }
    ensures shorter { IfOk result (λ r. length r.2.now < length tokens.now) }
    ensures depth { IfOk result (λ r. r.1 ≡ exprs_depth (exprs_of r.0.now)) }
    ensures within { IfOk result (λ r. r.1 ≤ deep) }
{
    let mut exprs = Vec::new(alloc);
    let mut deepest = 0;
    let mut rest = tokens;
    loop {
        let (next, depth, after) = expr(alloc, arena, bytes, rest, deep)?;
        exprs.push(next)?;
        deepest = depth.max(deepest);
        if !begins_with(after, Kind::Symbol(Sym::Comma)) {
            let exprs = placed_list(arena, exprs.as_slice())?;
            return Ok((exprs, deepest, after));
        }
        rest = behind(after);
    }
}

/// An expression of a form, at an offset.
fn leaf<'a>(at: u32, form: ExprForm<'a>) -> Expr<'a>
    ensures { expr_of result ≡ form_of at form.entry }
{
    Expr { at, form }
}

/// An operator with its operands.
fn pair<'a>(
    arena: &'a Bump<Global>,
    at: u32,
    op: Op,
    left: Expr<'a>,
    right: Expr<'a>,
) -> Result<Expr<'a>, ParseFault>
    ensures { MatchResult result
        (λ pair. expr_of pair ≡ PairTree at op (expr_of left.entry) (expr_of right.entry))
        (λ e. e ≡ NoMemory) }
{
    let left = placed(arena, left)?;
    let right = placed(arena, right)?;
    let form = ExprForm::Pair(op, left, right);
    Ok(Expr { at, form })
}
