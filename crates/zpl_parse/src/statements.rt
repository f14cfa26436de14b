//! Rules of statements. Expressions may be `MOST_DEEP` deep.
ghost use Rattle.std.specs.Prelude.{◌≡◌, ◌<◌, ◌≤◌, ℕ, List, map, length, IfOk};
ghost use Rattle.std.specs.Option.{option_map};
ghost use Rattle.zpl_tree.specs.View.{name_of, expr_of, mask_of, prefix_of, head_of, item_of};
ghost use Rattle.zpl_tree.specs.View.{statement_of, stmt_of, stmts_of, arm_of, arms_of};
ghost use Rattle.zpl_parse.specs.Classes.{assigning, start_of};
ghost use Rattle.zpl_parse.specs.Reading.{IsRead, nested};
ghost use Rattle.zpl_grammar.specs.Lexeme.{lexemes_of, head_kind, head_at, behind as behind_of};
ghost use Rattle.zpl_parse.specs.Outcome.{and_then};
ghost use Rattle.zpl_parse.specs.Tokens.{name as name_rule};
ghost use Rattle.zpl_tree.specs.View.{else_of};
ghost use Rattle.zpl_parse.specs.Whole.{any_expr};
ghost use Rattle.zpl_parse.specs.Statements as rule;

use crate::classes::{Start, assignment, begins_statement, downwards, started_by, without};
use crate::expressions::{actuals, expr};
use crate::faults::ParseFault;
use crate::placing::{placed, placed_head, placed_list};
use crate::regions::inner;
use crate::tokens::{
    Read, begins_with, behind, closing, first_kind, keyword, name, names, offset, refused, string,
    symbol, too_deep,
};
use bumpalo::Bump;
use std::alloc::Global;
use zpl_text::Token;
use zpl_tokens::{Key, Kind, Sym};
use zpl_tree::{Arm, Expr, ForHead, Form, Item, Mask, Name, Prefix, Stmt};

/// How deep expressions and nests of statements may be.
pub const MOST_DEEP: u32 = 200;

/// An expression, placed in the arena.
pub fn value<'a, 't>(
    alloc: Global,
    arena: &'a Bump<Global>,
    bytes: &'a [u8],
    tokens: &'t [Token],
) -> Read<'t, &'a Expr<'a>>
    ensures follows { (most : ℕ) → length tokens.now < most
        → IsRead result (any_expr most) (λ read. expr_of read.now) bytes.now tokens.now }
    ensures shorter { IfOk result (λ r. length r.1.now < length tokens.now) }
{
    let (value, _, rest) = expr(alloc, arena, bytes, tokens, MOST_DEEP)?;
    let value = placed(arena, value)?;
    Ok((value, rest))
}

/// stmt = { prefix } simple, in which statements nest `deep` deep at most.
#[cycle(statement)]
pub fn stmt<'a, 't>(
    alloc: Global,
    arena: &'a Bump<Global>,
    bytes: &'a [u8],
    tokens: &'t [Token],
    deep: u32,
) -> Read<'t, Stmt<'a>>
    ensures follows { (few most : ℕ) → length tokens.now < few → length tokens.now < most
        → IsRead result (rule.stmt few (any_expr most) deep) stmt_of bytes.now tokens.now }
    ensures shorter { IfOk result (λ r. length r.1.now < length tokens.now) }
{
    if deep == 0 {
        return Err(too_deep(begins_statement(first_kind(tokens)), tokens));
    }
    let (prefixes, rest) = prefixes(alloc, arena, bytes, tokens)?;
    let at = offset(rest);
    let (form, rest) = form(alloc, arena, bytes, rest, deep - 1)?;
    Ok((Stmt { at, prefixes, form }, rest))
}

/// A statement behind its prefixes, by its first token. Those in it nest `deep` deep at most.
#[cycle(statement)]
fn form<'a, 't>(
    alloc: Global,
    arena: &'a Bump<Global>,
    bytes: &'a [u8],
    tokens: &'t [Token],
    deep: u32,
) -> Read<'t, Form<'a>>
    ensures follows { (few most : ℕ) → length tokens.now < few → length tokens.now < most
        → IsRead result
        (λ lexemes. rule.form_by few (any_expr most) (nested few most deep)
        (start_of (head_kind lexemes)) lexemes)
        statement_of bytes.now tokens.now }
    ensures shorter { IfOk result (λ r. length r.1.now < length tokens.now) }
{
    let Some(start) = started_by(first_kind(tokens)) else {
        return Err(refused(tokens));
    };
    let rest = behind(tokens);
    match start {
        Start::Name => assign_or_call(alloc, arena, bytes, tokens),
        Start::Block => {
            let (body, rest) = body_end(alloc, arena, bytes, rest, deep)?;
            Ok((Form::Block(body), rest))
        }
        Start::If => choice(alloc, arena, bytes, tokens, deep),
        Start::While => while_loop(alloc, arena, bytes, rest, deep),
        Start::Repeat => repeat_loop(alloc, arena, bytes, rest, deep),
        Start::For => for_loop(alloc, arena, bytes, rest, deep),
        Start::Border(kind) => {
            let (those, rest) = names(alloc, arena, bytes, rest)?;
            let (_, rest) = symbol(rest, Sym::Semicolon)?;
            Ok((Form::Border(kind, those), rest))
        }
        Start::Write(line) => {
            let (_, rest) = symbol(rest, Sym::OpenParen)?;
            let (those, rest) = items(alloc, arena, bytes, rest)?;
            let (_, rest) = symbol(rest, Sym::Semicolon)?;
            Ok((Form::Write(line, those), rest))
        }
        Start::Return => {
            let (value, rest) = value(alloc, arena, bytes, rest)?;
            let (_, rest) = symbol(rest, Sym::Semicolon)?;
            Ok((Form::Return(value), rest))
        }
    }
}

/// NAME assign expr ";" | NAME "(" [ expr { "," expr } ] ")" ";".
fn assign_or_call<'a, 't>(
    alloc: Global,
    arena: &'a Bump<Global>,
    bytes: &'a [u8],
    tokens: &'t [Token],
) -> Read<'t, Form<'a>>
    ensures follows { (few most : ℕ) → length tokens.now < few → length tokens.now < most
        → IsRead result
        (λ lexemes. and_then (name_rule lexemes) (rule.assign_or_call few (any_expr most)))
        statement_of bytes.now tokens.now }
    ensures shorter { IfOk result (λ r. length r.1.now < length tokens.now) }
{
    let (target, rest) = name(bytes, tokens)?;
    let Some(op) = assignment(first_kind(rest)) else {
        return invocation(alloc, arena, bytes, target, rest);
    };
    let (value, rest) = value(alloc, arena, bytes, behind(rest))?;
    let (_, rest) = symbol(rest, Sym::Semicolon)?;
    Ok((Form::Assign(target, op, value), rest))
}

/// "(" [ expr { "," expr } ] ")" ";", behind a name.
fn invocation<'a, 't>(
    alloc: Global,
    arena: &'a Bump<Global>,
    bytes: &'a [u8],
    target: Name<'a>,
    tokens: &'t [Token],
) -> Read<'t, Form<'a>>
    ensures follows { (few most : ℕ) → length tokens.now < few → length tokens.now < most
        → assigning (head_kind (lexemes_of bytes.now tokens.now)) ≡ None
        → IsRead result (rule.assign_or_call few (any_expr most) (name_of target.entry))
        statement_of bytes.now tokens.now }
    ensures shorter { IfOk result (λ r. length r.1.now < length tokens.now) }
{
    let (_, rest) = symbol(tokens, Sym::OpenParen)?;
    let (those, _, rest) = actuals(alloc, arena, bytes, rest, MOST_DEEP)?;
    let (_, rest) = symbol(rest, Sym::Semicolon)?;
    Ok((Form::Call(target, those), rest))
}

/// { stmt } "end" ";".
#[cycle(statement)]
pub fn body_end<'a, 't>(
    alloc: Global,
    arena: &'a Bump<Global>,
    bytes: &'a [u8],
    tokens: &'t [Token],
    deep: u32,
) -> Read<'t, &'a [Stmt<'a>]>
    ensures follows { (few most : ℕ) → length tokens.now < few → length tokens.now < most
        → IsRead result (rule.body_end (nested few most deep)) (λ read. stmts_of read.now)
        bytes.now tokens.now }
    ensures shorter { IfOk result (λ r. length r.1.now < length tokens.now) }
{
    let (body, rest) = stmts(alloc, arena, bytes, tokens, deep)?;
    let (_, rest) = closing(rest)?;
    Ok((body, rest))
}

/// { stmt }.
#[cycle(statement)]
fn stmts<'a, 't>(
    alloc: Global,
    arena: &'a Bump<Global>,
    bytes: &'a [u8],
    tokens: &'t [Token],
    deep: u32,
) -> Read<'t, &'a [Stmt<'a>]>
    ensures follows { (few most : ℕ) → length tokens.now < few → length tokens.now < most
        → IsRead result (nested few most deep) (λ read. stmts_of read.now) bytes.now tokens.now }
    ensures shorter { IfOk result (λ r. length r.1.now ≤ length tokens.now) }
{
    let mut stmts = Vec::new(alloc);
    let mut rest = tokens;
    while begins_statement(first_kind(rest)) {
        let (next, after) = stmt(alloc, arena, bytes, rest, deep)?;
        stmts.push(next)?;
        rest = after;
    }
    let stmts = placed_list(arena, stmts.as_slice())?;
    Ok((stmts, rest))
}

/// "if" expr "then" { stmt } { "elsif" expr "then" { stmt } } [ "else" { stmt } ] "end" ";".
#[cycle(statement)]
fn choice<'a, 't>(
    alloc: Global,
    arena: &'a Bump<Global>,
    bytes: &'a [u8],
    tokens: &'t [Token],
    deep: u32,
) -> Read<'t, Form<'a>>
    ensures follows { (few most : ℕ) → length tokens.now < few → length tokens.now < most
        → IsRead result
        (λ lexemes. rule.choice few (any_expr most) (nested few most deep)
        (head_at lexemes) (behind_of lexemes))
        statement_of bytes.now tokens.now }
    ensures shorter { IfOk result (λ r. length r.1.now < length tokens.now) }
{
    let (arms, rest) = arms(alloc, arena, bytes, tokens, deep)?;
    let (otherwise, rest) = otherwise(alloc, arena, bytes, rest, deep)?;
    let (_, rest) = closing(rest)?;
    Ok((Form::If(arms, otherwise), rest))
}

/// expr "then" { stmt } { "elsif" expr "then" { stmt } }, behind the first token.
#[cycle(statement)]
fn arms<'a, 't>(
    alloc: Global,
    arena: &'a Bump<Global>,
    bytes: &'a [u8],
    tokens: &'t [Token],
    deep: u32,
) -> Read<'t, &'a [Arm<'a>]>
    ensures follows { (few most : ℕ) → length tokens.now < few → length tokens.now < most
        → IsRead result
        (λ lexemes. rule.arms few (any_expr most) (nested few most deep)
        (head_at lexemes) (behind_of lexemes))
        (λ read. arms_of read.now) bytes.now tokens.now }
    ensures shorter { IfOk result (λ r. length r.1.now < length tokens.now) }
{
    let mut arms = Vec::new(alloc);
    let mut rest = tokens;
    loop {
        let (next, after) = arm(alloc, arena, bytes, rest, deep)?;
        arms.push(next)?;
        if !begins_with(after, Kind::Word(Key::Elsif)) {
            let arms = placed_list(arena, arms.as_slice())?;
            return Ok((arms, after));
        }
        rest = after;
    }
}

/// expr "then" { stmt }, behind the first token.
#[cycle(statement)]
fn arm<'a, 't>(
    alloc: Global,
    arena: &'a Bump<Global>,
    bytes: &'a [u8],
    tokens: &'t [Token],
    deep: u32,
) -> Read<'t, Arm<'a>>
    ensures follows { (few most : ℕ) → length tokens.now < few → length tokens.now < most
        → IsRead result
        (λ lexemes. rule.arm (any_expr most) (nested few most deep)
        (head_at lexemes) (behind_of lexemes))
        arm_of bytes.now tokens.now }
    ensures shorter { IfOk result (λ r. length r.1.now < length tokens.now) }
{
    let at = offset(tokens);
    let (test, rest) = value(alloc, arena, bytes, behind(tokens))?;
    let (_, rest) = keyword(rest, Key::Then)?;
    let (body, rest) = stmts(alloc, arena, bytes, rest, deep)?;
    Ok((Arm { at, test, body }, rest))
}

/// [ "else" { stmt } ].
#[cycle(statement)]
fn otherwise<'a, 't>(
    alloc: Global,
    arena: &'a Bump<Global>,
    bytes: &'a [u8],
    tokens: &'t [Token],
    deep: u32,
) -> Read<'t, Option<&'a [Stmt<'a>]>>
    ensures follows { (few most : ℕ) → length tokens.now < few → length tokens.now < most
        → IsRead result (rule.otherwise (nested few most deep)) else_of bytes.now tokens.now }
    ensures shorter { IfOk result (λ r. length r.1.now ≤ length tokens.now) }
{
    if !begins_with(tokens, Kind::Word(Key::Else)) {
        return Ok((None, tokens));
    }
    let (body, rest) = stmts(alloc, arena, bytes, behind(tokens), deep)?;
    Ok((Some(body), rest))
}

/// expr "do" { stmt } "end" ";", behind a "while".
#[cycle(statement)]
fn while_loop<'a, 't>(
    alloc: Global,
    arena: &'a Bump<Global>,
    bytes: &'a [u8],
    tokens: &'t [Token],
    deep: u32,
) -> Read<'t, Form<'a>>
    ensures follows { (few most : ℕ) → length tokens.now < few → length tokens.now < most
        → IsRead result (rule.while_loop (any_expr most) (nested few most deep)) statement_of
        bytes.now tokens.now }
    ensures shorter { IfOk result (λ r. length r.1.now < length tokens.now) }
{
    let (test, rest) = value(alloc, arena, bytes, tokens)?;
    let (_, rest) = keyword(rest, Key::Do)?;
    let (body, rest) = body_end(alloc, arena, bytes, rest, deep)?;
    Ok((Form::While(test, body), rest))
}

/// { stmt } "until" expr ";", behind a "repeat".
#[cycle(statement)]
fn repeat_loop<'a, 't>(
    alloc: Global,
    arena: &'a Bump<Global>,
    bytes: &'a [u8],
    tokens: &'t [Token],
    deep: u32,
) -> Read<'t, Form<'a>>
    ensures follows { (few most : ℕ) → length tokens.now < few → length tokens.now < most
        → IsRead result (rule.repeat_loop (any_expr most) (nested few most deep)) statement_of
        bytes.now tokens.now }
    ensures shorter { IfOk result (λ r. length r.1.now < length tokens.now) }
{
    let (body, rest) = stmts(alloc, arena, bytes, tokens, deep)?;
    let (until, rest) = keyword(rest, Key::Until)?;
    let (test, rest) = value(alloc, arena, bytes, rest)?;
    let (_, rest) = symbol(rest, Sym::Semicolon)?;
    Ok((Form::Repeat(body, until, test), rest))
}

/// NAME ":=" expr ( "to" | "downto" ) expr [ "by" expr ] "do" { stmt } "end" ";", behind a "for".
#[cycle(statement)]
fn for_loop<'a, 't>(
    alloc: Global,
    arena: &'a Bump<Global>,
    bytes: &'a [u8],
    tokens: &'t [Token],
    deep: u32,
) -> Read<'t, Form<'a>>
    ensures follows { (few most : ℕ) → length tokens.now < few → length tokens.now < most
        → IsRead result (rule.for_loop (any_expr most) (nested few most deep)) statement_of
        bytes.now tokens.now }
    ensures shorter { IfOk result (λ r. length r.1.now < length tokens.now) }
{
    let (head, rest) = for_head(alloc, arena, bytes, tokens)?;
    let head = placed_head(arena, head)?;
    let (_, rest) = keyword(rest, Key::Do)?;
    let (body, rest) = body_end(alloc, arena, bytes, rest, deep)?;
    Ok((Form::For(head, body), rest))
}

/// NAME ":=" expr ( "to" | "downto" ) expr [ "by" expr ].
fn for_head<'a, 't>(
    alloc: Global,
    arena: &'a Bump<Global>,
    bytes: &'a [u8],
    tokens: &'t [Token],
) -> Read<'t, ForHead<'a>>
    ensures follows { (most : ℕ) → length tokens.now < most
        → IsRead result (rule.for_head (any_expr most)) head_of bytes.now tokens.now }
    ensures shorter { IfOk result (λ r. length r.1.now < length tokens.now) }
{
    let (name, rest) = name(bytes, tokens)?;
    let (_, rest) = symbol(rest, Sym::Assign)?;
    let (first, rest) = value(alloc, arena, bytes, rest)?;
    let (down, rest) = way_down(rest)?;
    let (last, rest) = value(alloc, arena, bytes, rest)?;
    let (step, rest) = step(alloc, arena, bytes, rest)?;
    let head = ForHead {
        name,
        first,
        down,
        last,
        step,
    };
    Ok((head, rest))
}

/// "to" | "downto".
fn way_down(tokens: &[Token]) -> Read<'_, bool>
    ensures follows { (text : List ℕ) → IsRead result rule.way_down (λ read. read) text tokens.now }
    ensures shorter { IfOk result (λ r. length r.1.now ≤ length tokens.now) }
{
    match downwards(first_kind(tokens)) {
        Some(down) => Ok((down, behind(tokens))),
        None => Err(refused(tokens)),
    }
}

/// [ "by" expr ].
fn step<'a, 't>(
    alloc: Global,
    arena: &'a Bump<Global>,
    bytes: &'a [u8],
    tokens: &'t [Token],
) -> Read<'t, Option<&'a Expr<'a>>>
    ensures follows { (most : ℕ) → length tokens.now < most
        → IsRead result (rule.step (any_expr most))
        (λ read. option_map (λ step. expr_of step.now) read) bytes.now tokens.now }
    ensures shorter { IfOk result (λ r. length r.1.now ≤ length tokens.now) }
{
    if !begins_with(tokens, Kind::Word(Key::By)) {
        return Ok((None, tokens));
    }
    let (step, rest) = value(alloc, arena, bytes, behind(tokens))?;
    Ok((Some(step), rest))
}

/// [ item { "," item } ] ")", behind a "(".
fn items<'a, 't>(
    alloc: Global,
    arena: &'a Bump<Global>,
    bytes: &'a [u8],
    tokens: &'t [Token],
) -> Read<'t, &'a [Item<'a>]>
    ensures follows { (few most : ℕ) → length tokens.now < few → length tokens.now < most
        → IsRead result (rule.items few (any_expr most)) (λ read. map item_of read.now)
        bytes.now tokens.now }
    ensures shorter { IfOk result (λ r. length r.1.now ≤ length tokens.now) }
{
    if begins_with(tokens, Kind::Symbol(Sym::CloseParen)) {
        return Ok((&[], behind(tokens)));
    }
    let (those, rest) = some_items(alloc, arena, bytes, tokens)?;
    let (_, rest) = symbol(rest, Sym::CloseParen)?;
    Ok((those, rest))
}

/// item { "," item }.
fn some_items<'a, 't>(
    alloc: Global,
    arena: &'a Bump<Global>,
    bytes: &'a [u8],
    tokens: &'t [Token],
) -> Read<'t, &'a [Item<'a>]>
    ensures follows { (few most : ℕ) → length tokens.now < few → length tokens.now < most
        → IsRead result (rule.some_items few (any_expr most)) (λ read. map item_of read.now)
        bytes.now tokens.now }
    ensures shorter { IfOk result (λ r. length r.1.now < length tokens.now) }
{
    let mut items = Vec::new(alloc);
    let mut rest = tokens;
    loop {
        let (next, after) = item(alloc, arena, bytes, rest)?;
        items.push(next)?;
        if !begins_with(after, Kind::Symbol(Sym::Comma)) {
            let items = placed_list(arena, items.as_slice())?;
            return Ok((items, after));
        }
        rest = behind(after);
    }
}

/// item = STRING | expr.
fn item<'a, 't>(
    alloc: Global,
    arena: &'a Bump<Global>,
    bytes: &'a [u8],
    tokens: &'t [Token],
) -> Read<'t, Item<'a>>
    ensures follows { (most : ℕ) → length tokens.now < most
        → IsRead result (rule.item (any_expr most)) item_of bytes.now tokens.now }
    ensures shorter { IfOk result (λ r. length r.1.now < length tokens.now) }
{
    if begins_with(tokens, Kind::Str) {
        let (inside, rest) = string(bytes, tokens)?;
        return Ok((Item::Str(inside), rest));
    }
    let (value, rest) = value(alloc, arena, bytes, tokens)?;
    Ok((Item::Value(value), rest))
}

/// { prefix }.
pub fn prefixes<'a, 't>(
    alloc: Global,
    arena: &'a Bump<Global>,
    bytes: &'a [u8],
    tokens: &'t [Token],
) -> Read<'t, &'a [Prefix<'a>]>
    ensures follows { (few most : ℕ) → length tokens.now < few → length tokens.now < most
        → IsRead result (rule.prefixes few (any_expr most)) (λ read. map prefix_of read.now)
        bytes.now tokens.now }
    ensures shorter { IfOk result (λ r. length r.1.now ≤ length tokens.now) }
{
    let mut prefixes = Vec::new(alloc);
    let mut rest = tokens;
    while begins_with(rest, Kind::Symbol(Sym::OpenBracket)) {
        let (next, after) = prefix(alloc, arena, bytes, rest)?;
        prefixes.push(next)?;
        rest = after;
    }
    let prefixes = placed_list(arena, prefixes.as_slice())?;
    Ok((prefixes, rest))
}

/// prefix = "[" inner [ ( "with" | "without" ) NAME ] "]".
fn prefix<'a, 't>(
    alloc: Global,
    arena: &'a Bump<Global>,
    bytes: &'a [u8],
    tokens: &'t [Token],
) -> Read<'t, Prefix<'a>>
    ensures follows { (few most : ℕ) → length tokens.now ≤ few → length tokens.now < most
        → IsRead result (rule.prefix few (any_expr most)) prefix_of bytes.now tokens.now }
    ensures shorter { IfOk result (λ r. length r.1.now < length tokens.now) }
{
    let (at, rest) = symbol(tokens, Sym::OpenBracket)?;
    let (region, _, rest) = inner(alloc, arena, bytes, rest, MOST_DEEP)?;
    let (mask, rest) = mask(bytes, rest)?;
    let (_, rest) = symbol(rest, Sym::CloseBracket)?;
    Ok((Prefix { at, region, mask }, rest))
}

/// [ ( "with" | "without" ) NAME ].
fn mask<'a, 't>(bytes: &'a [u8], tokens: &'t [Token]) -> Read<'t, Option<Mask<'a>>>
    ensures follows { IsRead result rule.mask (option_map mask_of) bytes.now tokens.now }
    ensures shorter { IfOk result (λ r. length r.1.now ≤ length tokens.now) }
{
    let Some(without) = without(first_kind(tokens)) else {
        return Ok((None, tokens));
    };
    let (name, rest) = name(bytes, behind(tokens))?;
    Ok((Some(Mask { name, without }), rest))
}
