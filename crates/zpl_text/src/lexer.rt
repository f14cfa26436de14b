//! The whole text.
ghost use Rattle.std.specs.Prelude.{◌≡◌, ◌≤◌, ◌<◌, ◌⊎◌, [], List, Ok, Err, length, MatchResult};
ghost use Rattle.std.specs.Prelude.{MatchOption, IfOk, IfSome, OnOk, IfErr, IsOkUnless, vec_len};
ghost use Rattle.std.specs.Vec.{vec_capacity};
ghost use Rattle.zpl_text.specs.declared.TheConstants.{MOST_SOURCE};
ghost use Rattle.zpl_text.specs.declared.tokens.Token.{Token as Cutting};
ghost use Rattle.zpl_text.specs.declared.faults.LexFault.{LexFault as Fault};
ghost use Rattle.zpl_text.specs.declared.faults.LexFault.TheVariants.{NoMemory};
ghost use Rattle.zpl_text.specs.Gaps.{Skips, IsPastGap};
ghost use Rattle.zpl_text.specs.Cutting.{opens_ditto, IsCut, IsSound, IsWrong};
ghost use Rattle.zpl_text.specs.Tokens.{Place, Takes, IsFaultAt, IsTokens, HasFault, Appends};
ghost use Rattle.zpl_text.specs.Tokens.{Refuses};

use crate::faults::LexFault;
use crate::gaps::past_gap;
use crate::numbers::number_at;
use crate::strings::string_at;
use crate::symbols::symbol_at;
use crate::tokens::{Token, offset_of};
use crate::words::{is_word_start, word_at};
use std::alloc::Global;
use zpl_tokens::{Key, Kind, Sym};

/// Appends the tokens of a text, of which the last stands at its end. Where the text has no tokens,
/// the first fault is the answer, and the tokens before it are appended. They are kept as well
/// where the vector can't grow. The vector grows in its own allocator, and nothing else takes
/// memory.
pub fn lex(alloc: Global, bytes: &[u8], into: &mut Vec<Token>) -> Result<(), LexFault>
    requires { length bytes.now ≤ MOST_SOURCE }

    // What an answer tells.
    ensures ok { OnOk result (Appends into.old.items into.new.items (IsTokens bytes.now)) }
    ensures err { IfErr result
        (λ fault. Appends into.old.items into.new.items (Refuses bytes.now fault)) }

    // Memory runs out only where the tokens have filled the room that there was.
    ensures full { result ≡ Err NoMemory → vec_capacity into.old ≤ vec_len into.new }

    // When each answer comes: as the text has tokens or a fault, unless memory runs out.
    ensures accepts { (tokens : List Cutting) →
        IsTokens bytes.now tokens → IsOkUnless result NoMemory }
    ensures refuses { (found : List Cutting) (fault : Fault) → HasFault bytes.now found fault
        → (result ≡ Err fault) ⊎ (result ≡ Err NoMemory) }
{
    let _ = alloc;
    let mut rest = bytes;
    let mut ditto = false;
    while let Some((token, after)) = next_token(bytes, rest, ditto)? {
        into.push(token)?;
        rest = after;
        ditto = opens_ditto(token.kind);
    }
    let end = bytes.len() as u32;
    into.push(Token {
        kind: Kind::End,
        from: end,
        to: end,
    })?;
    Ok(())
}

/// The next token of what is left of the text, and what is left behind it, or None where only a gap
/// is left.
fn next_token<'a>(
    text: &[u8],
    rest: &'a [u8],
    ditto: bool,
) -> Result<Option<(Token, &'a [u8])>, LexFault>
    requires within { length rest.now ≤ length text.now }
    requires limit { length text.now ≤ MOST_SOURCE }
    ensures step { let here : Place = record { rest = rest.now; ditto = ditto } in
        MatchResult result
        (λ found. MatchOption found
        (Skips rest.now [])
        (λ next. Takes text.now here next.0
        (record { rest = next.1.now; ditto = opens_ditto next.0.kind })))
        (λ fault. IsFaultAt text.now here fault) }
    ensures shorter { IfOk result (λ found.
        IfSome found (λ next. length next.1.now < length rest.now)) }
{
    let begin = match past_gap(rest) {
        Ok(begin) => begin,
        Err(comment) => return Err(LexFault::OpenComment(offset_of(text, comment))),
    };
    if begin.is_empty() {
        return Ok(None);
    }
    let (kind, after) = cut(text, begin, ditto)?;
    let from = offset_of(text, begin);
    let to = offset_of(text, after);
    Ok(Some((Token { kind, from, to }, after)))
}

/// The kind of the token at the front of what is left of the text, and what is left behind it.
fn cut<'a>(text: &[u8], rest: &'a [u8], ditto: bool) -> Result<(Kind, &'a [u8]), LexFault>
    requires some { 0 < length rest.now }
    requires past_gap { IsPastGap rest.now }
    requires within { length rest.now ≤ length text.now }
    requires limit { length text.now ≤ MOST_SOURCE }
    ensures cut { MatchResult result
        (λ found. IsCut ditto rest.now found.0 found.1.now × IsSound found.0 found.1.now)
        (λ fault. IsWrong text.now ditto rest.now fault) }
    ensures shorter { IfOk result (λ found. length found.1.now < length rest.now) }
{
    let first = rest[0];
    if first == b'"' && ditto {
        Ok((Kind::Ditto, &rest[1..]))
    } else if first == b'"' {
        string_at(text, rest)
    } else if first.is_ascii_digit() {
        number_at(text, rest)
    } else if is_word_start(first) {
        Ok(word_at(rest))
    } else if let Some((symbol, after)) = symbol_at(rest) {
        Ok((Kind::Symbol(symbol), after))
    } else {
        Err(LexFault::BadByte(offset_of(text, rest)))
    }
}

/// Whether a quote directly behind a token of this kind is a ditto.
fn opens_ditto(kind: Kind) -> bool
    ensures { result ≡ opens_ditto kind }
{
    matches!(
        kind,
        Kind::Symbol(Sym::OpenBracket) | Kind::Word(Key::Of) | Kind::Word(Key::In)
    )
}
