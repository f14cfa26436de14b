//! Strings.
ghost use Rattle.std.specs.Prelude.{◌≤◌, ◌<◌, ◌↔◌, [], ◌∷◌, false, length, IsTrue, MatchResult};
ghost use Rattle.std.specs.Prelude.{IfOk};
ghost use Rattle.zpl_text.specs.declared.TheConstants.{MOST_SOURCE};
ghost use Rattle.zpl_text.specs.Scanning.{BeginsEscape, BeginsPlain, IsWholeBody};
ghost use Rattle.zpl_text.specs.Bytes.{quote, BeginsWith, EndsLine};
ghost use Rattle.zpl_text.specs.Cutting.{IsCut, IsSound, IsWrong};

use crate::faults::LexFault;
use crate::tokens::offset_of;
use zpl_tokens::Kind;

/// The string at the front of what is left of the text, and what is left behind it.
pub fn string_at<'a>(text: &[u8], rest: &'a [u8]) -> Result<(Kind, &'a [u8]), LexFault>
    requires quoted { BeginsWith (quote ∷ []) rest.now }
    requires within { length rest.now ≤ length text.now }
    requires limit { length text.now ≤ MOST_SOURCE }
    ensures cut { MatchResult result
        (λ found. IsCut false rest.now found.0 found.1.now × IsSound found.0 found.1.now)
        (λ fault. IsWrong text.now false rest.now fault) }
    ensures shorter { IfOk result (λ found. length found.1.now < length rest.now) }
{
    let tail = past_body(&rest[1..]);
    if tail.starts_with(b"\"") {
        Ok((Kind::Str, &tail[1..]))
    } else if ends_line(tail) {
        Err(LexFault::OpenString(offset_of(text, rest)))
    } else {
        Err(LexFault::BadByte(offset_of(text, tail)))
    }
}

/// Whether the line ends here.
fn ends_line(bytes: &[u8]) -> bool
    ensures { IsTrue result ↔ EndsLine bytes.now }
{
    bytes.is_empty() || bytes[0] == b'\n'
}

/// What is left from the first byte on that doesn't belong to a string's body: a quote, the end of
/// the line, or the backslash of an unknown escape.
fn past_body(bytes: &[u8]) -> &[u8]
    ensures body { IsWholeBody bytes.now result.now }
    ensures shorter { length result.now ≤ length bytes.now }
{
    let mut rest = bytes;
    loop {
        if begins_escape(rest) {
            rest = &rest[2..];
        } else if begins_plain(rest) {
            rest = &rest[1..];
        } else {
            return rest;
        }
    }
}

/// Whether a backslash and one of its letters stand at the front.
fn begins_escape(bytes: &[u8]) -> bool
    ensures { IsTrue result ↔ BeginsEscape bytes.now }
{
    bytes.len() >= 2 && bytes[0] == b'\\' && matches!(bytes[1], b'n' | b't' | b'\\' | b'"')
}

/// Whether the first byte stands for itself.
fn begins_plain(bytes: &[u8]) -> bool
    ensures { IsTrue result ↔ BeginsPlain bytes.now }
{
    !bytes.is_empty() && !matches!(bytes[0], b'"' | b'\n' | b'\\')
}
