//! All lines of a listing.
ghost use Rattle.std.specs.Prelude.{◌≡◌, ◌≢◌, ◌+◌, ◌^◌, ◌<◌, ◌≤◌, ◌++◌, [], ◌∷◌, ℕ, List, All};
ghost use Rattle.std.specs.Prelude.{OnOk, OnErr, IfOk, IfErr, MatchOption, Some, None};
ghost use Rattle.std.specs.Prelude.{if◌then◌else◌, length, reverse, slice_index};
ghost use Rattle.listing_lines.specs.Form.{has_form};
ghost use Rattle.listing_lines.specs.Line.{IsLine, line_text, lines_text};
ghost use Rattle.listing_lines.specs.Listing.{AreLines, BeginsWithLine, Explains};
ghost use Rattle.listing_lines.specs.Place.{part_behind, place_behind, role_of};

use crate::forms::has_form;
use crate::lines::{Line, read_line, write_line};
use crate::places::{Opening, Part, is_end, part_behind, reopen, role_of};
use std::alloc::{AllocError, Global};

/// Why bytes have no lines of a listing.
#[derive(Clone, Copy, Debug, PartialEq, Eq, Drop)]
pub enum LinesFault {
    /// This line, counted from 1, has none of the forms in its place; or it is the one behind the
    /// last, and a part is missing.
    BadLine { line: u32 },
    NoMemory,
}

impl From<AllocError> for LinesFault {
    ghost use Rattle.std.specs.Prelude.{◌≡◌};
    ghost use Rattle.listing_lines.specs.declared.listings.LinesFault.TheVariants.{NoMemory};

    ghost from_gives = { λ error fault. fault ≡ NoMemory };

    fn from(_error: AllocError) -> LinesFault {
        LinesFault::NoMemory
    }
}

/// Appends lines, each with a newline behind it. Where memory runs out nothing is appended.
pub fn write_lines(alloc: Global, lines: &[Line], into: &mut Vec<u8>) -> Result<(), AllocError>
    ensures ok { OnOk result (into.new.items ≡ into.old.items ++ lines_text lines.now) }
    ensures err { OnErr result (into.new.items ≡ into.old.items) }
{
    let mut text = Vec::new(alloc);
    for line in lines {
        write_line(alloc, line, &mut text)?;
        text.push(b'\n')?;
    }
    into.extend_from_slice(&text)
}

// ---- reading

/// How many bytes stand before the first newline, or all where there is none.
fn line_len(bytes: &[u8]) -> usize
    ensures within { result ≤ length bytes.now }
    ensures before { (k : ℕ) → k < result → slice_index bytes.now k ≢ 10 }
    ensures found { result < length bytes.now → slice_index bytes.now result ≡ 10 }
{
    for (i, byte) in bytes.iter().enumerate() {
        if *byte == b'\n' {
            return i;
        }
    }
    bytes.len()
}

/// Whether a line may stand here: its form, and its part; if so, what comes behind it.
fn next_part(part: Part, line: &Line) -> Option<Part>
    ensures { result
        ≡ (if has_form line.now then part_behind part (role_of line.now.keyword) else None) }
{
    if has_form(line) {
        part_behind(part, role_of(line.keyword))
    } else {
        None
    }
}

/// The first line of the bytes, if it has a form in its place, with the part behind it and the
/// bytes that are left. It opens and closes members.
fn next_line<'a>(
    alloc: Global,
    part: Part,
    openings: &mut Vec<Opening>,
    bytes: &'a [u8],
) -> Result<Option<(Line, Part, &'a [u8])>, AllocError>
    ensures { IfOk result (λ found. MatchOption found
        (BeginsWithLine (record { part = part; openings = reverse openings.old.items }) bytes.now
        → ⊥)
        (λ next. IsLine next.0
        × (place_behind (record { part = part; openings = reverse openings.old.items }) next.0
        ≡ Some (record { part = next.1; openings = reverse openings.new.items }))
        × (bytes.now ≡ line_text next.0 ++ 10 ∷ next.2.now))) }
{
    let len = line_len(bytes);
    if len == bytes.len() {
        return Ok(None);
    }
    let Some(line) = read_line(alloc, &bytes[..len])? else {
        return Ok(None);
    };
    let Some(next) = next_part(part, &line) else {
        return Ok(None);
    };
    if !reopen(openings, line.keyword)? {
        return Ok(None);
    }
    Ok(Some((line, next, &bytes[len + 1..])))
}

/// The lines of a listing.
pub fn read_lines(alloc: Global, bytes: &[u8]) -> Result<Vec<Line>, LinesFault>
    requires { length bytes.now < 2 ^ 32 }
    ensures lines { IfOk result (λ lines. AreLines bytes.now lines.items) }
    ensures fault { IfErr result (Explains bytes.now) }
{
    let mut lines = Vec::new(alloc);
    let mut part = Part::Version;
    let mut openings = Vec::new(alloc);
    let mut rest = bytes;
    while !rest.is_empty() {
        let Some((line, next, after)) = next_line(alloc, part, &mut openings, rest)? else {
            return Err(bad_line(&lines));
        };
        keep(&mut lines, line)?;
        part = next;
        rest = after;
    }
    if !is_end(part) {
        return Err(bad_line(&lines));
    }
    Ok(lines)
}

/// Appends a line.
fn keep(lines: &mut Vec<Line>, line: Line) -> Result<(), AllocError>
    ensures { OnOk result (lines.new.items ≡ lines.old.items ++ line ∷ []) }
{
    lines.push(line)?;
    Ok(())
}

/// The fault at the line behind these.
fn bad_line(lines: &[Line]) -> LinesFault
    requires { length lines.now + 1 < 2 ^ 32 }
    ensures { result ≡ LinesFault.BadLine (length lines.now + 1) }
{
    LinesFault::BadLine {
        line: lines.len() as u32 + 1,
    }
}
