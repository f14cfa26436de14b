//! Texts of lines.
ghost use Rattle.std.specs.Prelude.{◌≡◌, ◌≢◌, ◌↔◌, ◌++◌, ◌==◌, ◌+◌, ◌^◌, ◌<◌, ◌≤◌, [], ◌∷◌, ℕ};
ghost use Rattle.std.specs.Prelude.{List};
ghost use Rattle.std.specs.Prelude.{IfErr, IfOk, IsTrue, MatchOption, OnOk, length, map};
ghost use Rattle.std.specs.Prelude.{slice_index};
ghost use Rattle.std.specs.Fmt.{signed_decimal};
ghost use Rattle.std.specs.List.{flat_map, slice_split};
ghost use Rattle.listing_lines.specs.Line.{spaced};
ghost use Rattle.save_lines.specs.declared.lines.SavedLine.{SavedLine as Line};
ghost use Rattle.save_lines.specs.Line.{IsSavedLine, line_text, proc_words, saved_text};
ghost use Rattle.save_lines.specs.Line.{words_behind};
ghost use Rattle.save_lines.specs.Lines.{AreLines, BeginsWithLine, Explains};

use crate::guesses::guess;
use crate::lines::{ProcRow, SavedLine};
use crate::numbers::{write_number, write_numbers};
use crate::words::{write_boxes, write_dims, write_end};
use std::alloc::{AllocError, Global};

/// Why bytes are no lines of states.
#[derive(Clone, Copy, Debug, PartialEq, Eq, Drop)]
pub enum LinesFault {
    /// This line, counted from 1, is none.
    BadLine { line: u32 },
    NoMemory,
}

impl From<AllocError> for LinesFault {
    ghost use Rattle.std.specs.Prelude.{◌≡◌};
    ghost use Rattle.save_lines.specs.declared.texts.LinesFault.TheVariants.{NoMemory};

    ghost from_gives = { λ error fault. fault ≡ NoMemory };

    fn from(_error: AllocError) -> LinesFault {
        LinesFault::NoMemory
    }
}

// ---- writing

/// Appends a word and a number, each behind a space.
fn write_named(name: &[u8], number: &i128, into: &mut Vec<u8>) -> Result<(), AllocError>
    ensures { OnOk result (into.new.items
        ≡ into.old.items ++ flat_map spaced (name.now ∷ signed_decimal number.now ∷ [])) }
{
    into.push(b' ')?;
    into.extend_from_slice(name)?;
    write_spaced(number, into)
}

/// Appends a number behind a space.
fn write_spaced(number: &i128, into: &mut Vec<u8>) -> Result<(), AllocError>
    ensures { OnOk result (into.new.items
        ≡ into.old.items ++ flat_map spaced (signed_decimal number.now ∷ [])) }
{
    into.push(b' ')?;
    write_number(*number, into)
}

fn write_row(row: &ProcRow, into: &mut Vec<u8>) -> Result<(), AllocError>
    ensures { OnOk result (into.new.items
        ≡ into.old.items ++ flat_map spaced (proc_words row.now)) }
{
    write_spaced(&row.processor, into)?;
    write_named(b"at", &row.at, into)?;
    write_named(b"made", &row.made, into)?;
    write_named(b"index", &row.index, into)?;
    write_named(b"member", &row.member, into)?;
    write_named(b"flag", &row.flag, into)?;
    into.extend_from_slice(b" end ")?;
    write_end(row.end, into)
}

/// Appends the words behind the first one, each behind a space.
fn write_behind(line: &SavedLine, into: &mut Vec<u8>) -> Result<(), AllocError>
    ensures { OnOk result (into.new.items
        ≡ into.old.items ++ flat_map spaced (words_behind line.now)) }
{
    match line {
        SavedLine::Proc(row) => write_row(row, into),
        SavedLine::Scalars(values) | SavedLine::Cells(values) => {
            write_numbers(values.as_slice(), into)
        }
        SavedLine::Slot(dims) => write_dims(dims.as_slice(), into),
        SavedLine::Store(dims, values) => {
            write_boxes(dims.as_slice(), into)?;
            into.extend_from_slice(b" :")?;
            write_numbers(values.as_slice(), into)
        }
        SavedLine::Kept(from, values) => {
            write_spaced(from, into)?;
            write_numbers(values.as_slice(), into)
        }
        SavedLine::Msg(to, tag, values) => {
            write_spaced(to, into)?;
            write_spaced(tag, into)?;
            write_numbers(values.as_slice(), into)
        }
    }
}

/// Appends a line, without a newline.
fn write_text(line: &SavedLine, into: &mut Vec<u8>) -> Result<(), AllocError>
    ensures { OnOk result (into.new.items ≡ into.old.items ++ line_text line.now) }
{
    into.extend_from_slice(line.kind().text())?;
    write_behind(line, into)
}

/// Appends a line and a newline.
pub fn write_line(line: &SavedLine, into: &mut Vec<u8>) -> Result<(), AllocError>
    ensures { OnOk result (into.new.items ≡ into.old.items ++ saved_text (line.now ∷ [])) }
{
    write_text(line, into)?;
    into.extend_from_slice(b"\n")
}

// ---- reading

/// The words of a line: what stands between its spaces.
fn words_of(alloc: Global, text: &[u8]) -> Result<Vec<&[u8]>, AllocError>
    ensures { IfOk result (λ words.
        map (λ word. word.now) words.items ≡ slice_split (λ byte. byte == 32) text.now) }
{
    text.split(|byte| *byte == b' ').collect(alloc)
}

/// Whether the line is written as this text.
fn is_written(alloc: Global, line: &SavedLine, text: &[u8]) -> Result<bool, AllocError>
    ensures { IfOk result (λ same. IsTrue same ↔ (text.now ≡ line_text line.now)) }
{
    let mut own = Vec::new(alloc);
    write_text(line, &mut own)?;
    Ok(own.as_slice() == text)
}

/// The line that is written so.
fn read_line(alloc: Global, text: &[u8]) -> Result<Option<SavedLine>, AllocError>
    ensures { IfOk result (λ found. MatchOption found
        ((line : Line) → IsSavedLine line → text.now ≢ line_text line)
        (λ line. IsSavedLine line × (text.now ≡ line_text line))) }
{
    let words = words_of(alloc, text)?;
    let Some(line) = guess(alloc, &words)? else {
        return Ok(None);
    };
    if !is_written(alloc, &line, text)? {
        return Ok(None);
    }
    Ok(Some(line))
}

/// How many bytes stand before the first newline, or all where there is none.
fn line_len(bytes: &[u8]) -> usize
    ensures within { result ≤ length bytes.now }
    ensures before { (k : ℕ) → k < result → slice_index bytes.now k ≢ 10 }
    ensures found { result < length bytes.now → slice_index bytes.now result ≡ 10 }
{
    for (i, byte) in bytes.iter().enumerate() {
        if *byte == b'\n' {
            return i;
        }
    }
    bytes.len()
}

/// The line that the bytes begin with, and the bytes behind it.
fn next_line<'a>(
    alloc: Global,
    bytes: &'a [u8],
) -> Result<Option<(SavedLine, &'a [u8])>, AllocError>
    ensures { IfOk result (λ found. MatchOption found
        (BeginsWithLine bytes.now → ⊥)
        (λ next. IsSavedLine next.0 × (bytes.now ≡ line_text next.0 ++ 10 ∷ next.1.now))) }
{
    let len = line_len(bytes);
    if len == bytes.len() {
        return Ok(None);
    }
    match read_line(alloc, &bytes[..len])? {
        Some(line) => Ok(Some((line, &bytes[len + 1..]))),
        None => Ok(None),
    }
}

/// The lines of states that the bytes are.
pub fn read_lines(alloc: Global, bytes: &[u8]) -> Result<Vec<SavedLine>, LinesFault>
    requires { length bytes.now < 2 ^ 32 }
    ensures lines { IfOk result (λ lines. AreLines bytes.now lines.items) }
    ensures fault { IfErr result (Explains bytes.now) }
{
    let mut lines = Vec::new(alloc);
    let mut rest = bytes;
    while !rest.is_empty() {
        let Some((line, behind)) = next_line(alloc, rest)? else {
            return Err(bad_line(&lines));
        };
        keep(&mut lines, line)?;
        rest = behind;
    }
    Ok(lines)
}

/// Appends a line.
fn keep(lines: &mut Vec<SavedLine>, line: SavedLine) -> Result<(), AllocError>
    ensures { OnOk result (lines.new.items ≡ lines.old.items ++ line ∷ []) }
{
    lines.push(line)?;
    Ok(())
}

/// The fault at the line behind these.
fn bad_line(lines: &[SavedLine]) -> LinesFault
    requires { length lines.now + 1 < 2 ^ 32 }
    ensures { result ≡ LinesFault.BadLine (length lines.now + 1) }
{
    LinesFault::BadLine {
        line: lines.len() as u32 + 1,
    }
}
