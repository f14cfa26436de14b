//! Rules of single tokens, at the front of those that are left.
ghost use Rattle.std.specs.Prelude.{◌≡◌, ◌<◌, ◌≤◌, ◌-◌, ◌↔◌, if◌then◌else◌};
ghost use Rattle.std.specs.Prelude.{ℕ, List, map, length, IfOk, IsTrue};
ghost use Rattle.zpl_tree.specs.View.{name_of};
ghost use Rattle.zpl_grammar.specs.Written.{token_text};
ghost use Rattle.zpl_parse.specs.declared.faults.ParseFault.TheVariants.{Syntax, TooDeep};
ghost use Rattle.zpl_parse.specs.Following.{BeginsWith, HasNoValue};
ghost use Rattle.zpl_grammar.specs.Lexeme.{lexemes_of, head_kind, second_kind, head_at};
ghost use Rattle.zpl_grammar.specs.Lexeme.{behind as behind_of};
ghost use Rattle.zpl_parse.specs.Expressions.{along as along_rule};
ghost use Rattle.zpl_parse.specs.Reading.{IsRead};
ghost use Rattle.zpl_parse.specs.Tokens.{next_is, string_of, in_quotes};
ghost use Rattle.zpl_parse.specs.Tokens as rule;

use crate::classes::{Opening, opened_by};
use crate::faults::ParseFault;
use crate::placing::placed_list;
use bumpalo::Bump;
use std::alloc::Global;
use zpl_text::Token;
use zpl_tokens::{Key, Kind, Sym};
use zpl_tree::Name;

/// What a rule read, and the tokens behind it.
pub type Read<'t, T> = Result<(T, &'t [Token]), ParseFault>;

/// What a rule read, the greatest depth of an expression in it, and the tokens behind it.
pub type ReadDeep<'t, T> = Result<(T, u32, &'t [Token]), ParseFault>;

/// Whether the first token is of a kind.
fn has_first(tokens: &[Token], kind: Kind) -> bool
    ensures { IsTrue result ↔ BeginsWith kind tokens.now }
{
    match tokens.split_first() {
        Some((first, _)) => first.kind == kind,
        None => false,
    }
}

/// Whether the first token is of a kind, which is that of no number.
pub fn begins_with(tokens: &[Token], wanted: Kind) -> bool
    requires { HasNoValue wanted }
    ensures is { (text : List ℕ) → result ≡ next_is wanted (lexemes_of text tokens.now) }
    ensures some { IsTrue result → 0 < length tokens.now }
{
    has_first(tokens, wanted)
}

/// The kind of the first token.
pub fn first_kind(tokens: &[Token]) -> Kind
    ensures { (text : List ℕ) → result ≡ head_kind (lexemes_of text tokens.now) }
{
    match tokens {
        [first, ..] => first.kind,
        [] => Kind::End,
    }
}

/// The kind of the second token.
pub fn second_kind(tokens: &[Token]) -> Kind
    ensures { (text : List ℕ) → result ≡ second_kind (lexemes_of text tokens.now) }
{
    match tokens {
        [_, second, ..] => second.kind,
        _ => Kind::End,
    }
}

/// The offset of the first token.
pub fn offset(tokens: &[Token]) -> u32
    ensures { (text : List ℕ) → result ≡ head_at (lexemes_of text tokens.now) }
{
    match tokens {
        [first, ..] => first.from,
        [] => 0,
    }
}

/// The tokens behind the first.
pub fn behind(tokens: &[Token]) -> &[Token]
    ensures rest { (text : List ℕ)
        → lexemes_of text result.now ≡ behind_of (lexemes_of text tokens.now) }
    ensures shorter { length result.now ≡ length tokens.now - 1 }
{
    match tokens {
        [_, rest @ ..] => rest,
        [] => tokens,
    }
}

/// The fault where the first token can't stand.
pub fn refused(tokens: &[Token]) -> ParseFault
    ensures { (text : List ℕ) → result ≡ Syntax (head_at (lexemes_of text tokens.now)) }
{
    ParseFault::Syntax { at: offset(tokens) }
}

/// The fault where no depth is left: too deep at a token that may begin a tree, and a fault of
/// syntax at any other.
pub fn too_deep(begins: bool, tokens: &[Token]) -> ParseFault
    ensures { (text : List ℕ)
        → result ≡ (if begins then TooDeep else Syntax (head_at (lexemes_of text tokens.now))) }
{
    if begins {
        ParseFault::TooDeep
    } else {
        refused(tokens)
    }
}

/// A token of a kind, and its offset.
pub fn expect(tokens: &[Token], wanted: Kind) -> Read<'_, u32>
    requires { HasNoValue wanted }
    ensures follows { (text : List ℕ)
        → IsRead result (rule.expect wanted) (λ read. read) text tokens.now }
    ensures shorter { IfOk result (λ r. length r.1.now < length tokens.now) }
{
    if begins_with(tokens, wanted) {
        Ok((offset(tokens), behind(tokens)))
    } else {
        Err(refused(tokens))
    }
}

/// A symbol.
pub fn symbol(tokens: &[Token], symbol: Sym) -> Read<'_, u32>
    ensures follows { (text : List ℕ)
        → IsRead result (rule.symbol symbol) (λ read. read) text tokens.now }
    ensures shorter { IfOk result (λ r. length r.1.now < length tokens.now) }
{
    expect(tokens, Kind::Symbol(symbol))
}

/// A keyword.
pub fn keyword(tokens: &[Token], keyword: Key) -> Read<'_, u32>
    ensures follows { (text : List ℕ)
        → IsRead result (rule.keyword keyword) (λ read. read) text tokens.now }
    ensures shorter { IfOk result (λ r. length r.1.now < length tokens.now) }
{
    expect(tokens, Kind::Word(keyword))
}

/// NAME.
pub fn name<'a, 't>(bytes: &'a [u8], tokens: &'t [Token]) -> Read<'t, Name<'a>>
    ensures follows { IsRead result rule.name name_of bytes.now tokens.now }
    ensures shorter { IfOk result (λ r. length r.1.now < length tokens.now) }
{
    let Some((first, rest)) = tokens.split_first() else {
        return Err(refused(tokens));
    };
    match first.kind {
        Kind::Name => Ok((named(bytes, first), rest)),
        _ => Err(refused(tokens)),
    }
}

/// The name that a token is.
pub fn named<'a>(bytes: &'a [u8], token: &Token) -> Name<'a>
    ensures text { result.text.now ≡ token_text bytes.now token.now }
    ensures at { result.at ≡ token.now.from }
{
    let text = text_of(bytes, token);
    let at = token.from;
    Name { text, at }
}

/// NUMBER.
pub fn natural(tokens: &[Token]) -> Read<'_, i64>
    ensures follows { (text : List ℕ) → IsRead result rule.natural (λ read. read) text tokens.now }
    ensures shorter { IfOk result (λ r. length r.1.now < length tokens.now) }
{
    let Some((first, rest)) = tokens.split_first() else {
        return Err(refused(tokens));
    };
    match opened_by(first.kind) {
        Some(Opening::Number(value)) => Ok((value, rest)),
        _ => Err(refused(tokens)),
    }
}

/// NAME { "," NAME }.
pub fn names<'a, 't>(
    alloc: Global,
    arena: &'a Bump<Global>,
    bytes: &'a [u8],
    tokens: &'t [Token],
) -> Read<'t, &'a [Name<'a>]>
    ensures follows { (most : ℕ) → length tokens.now < most
        → IsRead result (rule.names most) (λ read. map name_of read.now) bytes.now tokens.now }
    ensures shorter { IfOk result (λ r. length r.1.now < length tokens.now) }
{
    let mut names = Vec::new(alloc);
    let mut rest = tokens;
    loop {
        let (next, after) = name(bytes, rest)?;
        names.push(next)?;
        if !begins_with(after, Kind::Symbol(Sym::Comma)) {
            let names = placed_list(arena, names.as_slice())?;
            return Ok((names, after));
        }
        rest = behind(after);
    }
}

/// "end" ";".
pub fn closing(tokens: &[Token]) -> Read<'_, u32>
    ensures follows { (text : List ℕ) → IsRead result rule.closing (λ read. read) text tokens.now }
    ensures shorter { IfOk result (λ r. length r.1.now < length tokens.now) }
{
    let (_, rest) = keyword(tokens, Key::End)?;
    symbol(rest, Sym::Semicolon)
}

/// What stands between the quotes of the first token.
pub fn string<'a, 't>(bytes: &'a [u8], tokens: &'t [Token]) -> Read<'t, &'a [u8]>
    ensures follows { IsRead result string_of (λ read. read.now) bytes.now tokens.now }
    ensures shorter { IfOk result (λ r. length r.1.now < length tokens.now) }
{
    match tokens.split_first() {
        Some((first, rest)) => Ok((inside_quotes(text_of(bytes, first)), rest)),
        None => Err(refused(tokens)),
    }
}

/// What stands between the quotes of a string.
fn inside_quotes(text: &[u8]) -> &[u8]
    ensures { result.now ≡ in_quotes text.now }
{
    match text {
        [_, inside @ .., _] => inside,
        _ => &[],
    }
}

/// The bytes of a token.
pub fn text_of<'a>(bytes: &'a [u8], token: &Token) -> &'a [u8]
    ensures { result.now ≡ token_text bytes.now token.now }
{
    let from = bytes.len().min(token.from as usize);
    let behind = &bytes[from..];
    let size = token.to.saturating_sub(token.from) as usize;
    &behind[..size.min(behind.len())]
}

/// [ "[" NUMBER "]" ].
pub fn along(tokens: &[Token]) -> Read<'_, Option<i64>>
    ensures follows { (text : List ℕ) → IsRead result along_rule (λ read. read) text tokens.now }
    ensures shorter { IfOk result (λ r. length r.1.now ≤ length tokens.now) }
{
    if !begins_with(tokens, Kind::Symbol(Sym::OpenBracket)) {
        return Ok((None, tokens));
    }
    let (dimension, rest) = natural(behind(tokens))?;
    let (_, rest) = symbol(rest, Sym::CloseBracket)?;
    Ok((Some(dimension), rest))
}
