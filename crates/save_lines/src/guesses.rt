//! The line that words may be those of: each line is found in its own words.
ghost use Rattle.std.specs.Prelude.{◌≡◌, ◌≤◌, ◌++◌, ◌∷◌, ℕ, ℤ, List, All, IfOk, IfSome, Some};
ghost use Rattle.std.specs.Prelude.{codes, drop, length, map, slice_get};
ghost use Rattle.std.specs.Fmt.{signed_decimal};
ghost use Rattle.zpl_nums.specs.Integer.{IsInteger};
ghost use Rattle.save_lines.specs.declared.lines.Kind.{Kind as Word};
ghost use Rattle.save_lines.specs.declared.lines.ProcRow.{ProcRow as Standing};
ghost use Rattle.save_lines.specs.declared.lines.SavedLine.{SavedLine as Line};
ghost use Rattle.save_lines.specs.Line.{IsEndWord, IsProcRow, IsSavedLine};
ghost use Rattle.save_lines.specs.Line.{kind_of, proc_words, words_behind, words_of};
ghost use Rattle.save_lines.specs.Reading.{IsOther};

use crate::lines::{EndWord, Kind, ProcRow, SavedLine, kind_named};
use crate::numbers::{number_at, numbers_of};
use crate::words::{boxes_of, dims_of, end_at, is_word};
use node_form::Row;
use std::alloc::{AllocError, Global};

fn wide_at(words: &[&[u8]], at: usize) -> Option<i128>
    ensures found { (number : ℤ) → IsInteger number →
        slice_get (map (λ word. word.now) words.now) at ≡ Some (signed_decimal number) → result
        ≡ Some number }
    ensures range { IfSome result IsInteger }
{
    match number_at(words, at) {
        Some(number) => Some(i128::from(number)),
        None => None,
    }
}

fn row_of(words: &[&[u8]], end: EndWord) -> Option<ProcRow>
    requires { IsEndWord end }
    ensures found { (row : Standing) → IsProcRow row → row.end ≡ end →
        map (λ word. word.now) words.now ≡ proc_words row → result ≡ Some row }
    ensures range { IfSome result IsProcRow }
{
    Some(ProcRow {
        processor: wide_at(words, 0)?,
        at: wide_at(words, 2)?,
        made: wide_at(words, 4)?,
        index: wide_at(words, 6)?,
        member: wide_at(words, 8)?,
        flag: wide_at(words, 10)?,
        end,
    })
}

fn proc_line(alloc: Global, words: &[&[u8]]) -> Result<Option<SavedLine>, AllocError>
    ensures found { IfOk result (λ found. (line : Line) → IsSavedLine line → kind_of line
        ≡ Word.Proc → map (λ word. word.now) words.now ≡ words_behind line → found ≡ Some line) }
    ensures range { IfOk result (λ found. IfSome found IsSavedLine) }
{
    let Some(end) = end_at(alloc, words, 12)? else {
        return Ok(None);
    };
    match row_of(words, end) {
        Some(row) => Ok(Some(SavedLine::Proc(row))),
        None => Ok(None),
    }
}

fn scalars_line(alloc: Global, words: &[&[u8]]) -> Result<Option<SavedLine>, AllocError>
    ensures found { IfOk result (λ found. (line : Line) → IsSavedLine line → kind_of line
        ≡ Word.Scalars → map (λ word. word.now) words.now ≡ words_behind line → found
        ≡ Some line) }
    ensures range { IfOk result (λ found. IfSome found IsSavedLine) }
{
    match numbers_of(alloc, words)? {
        Some(numbers) => Ok(Some(SavedLine::Scalars(Row::of(numbers)))),
        None => Ok(None),
    }
}

fn cells_line(alloc: Global, words: &[&[u8]]) -> Result<Option<SavedLine>, AllocError>
    ensures found { IfOk result (λ found. (line : Line) → IsSavedLine line → kind_of line
        ≡ Word.Cells → map (λ word. word.now) words.now ≡ words_behind line → found ≡ Some line) }
    ensures range { IfOk result (λ found. IfSome found IsSavedLine) }
{
    match numbers_of(alloc, words)? {
        Some(numbers) => Ok(Some(SavedLine::Cells(Row::of(numbers)))),
        None => Ok(None),
    }
}

fn slot_line(alloc: Global, words: &[&[u8]]) -> Result<Option<SavedLine>, AllocError>
    ensures found { IfOk result (λ found. (line : Line) → IsSavedLine line → kind_of line
        ≡ Word.Slot → map (λ word. word.now) words.now ≡ words_behind line → found ≡ Some line) }
    ensures range { IfOk result (λ found. IfSome found IsSavedLine) }
{
    let Some(dims) = dims_of(alloc, words)? else {
        return Ok(None);
    };
    if dims.is_empty() {
        return Ok(None);
    }
    Ok(Some(SavedLine::Slot(Row::of(dims))))
}

fn kept_line(alloc: Global, words: &[&[u8]]) -> Result<Option<SavedLine>, AllocError>
    ensures found { IfOk result (λ found. (line : Line) → IsSavedLine line → kind_of line
        ≡ Word.Kept → map (λ word. word.now) words.now ≡ words_behind line → found ≡ Some line) }
    ensures range { IfOk result (λ found. IfSome found IsSavedLine) }
{
    let Some(from) = wide_at(words, 0) else {
        return Ok(None);
    };
    match numbers_of(alloc, behind(words, 1))? {
        Some(numbers) => Ok(Some(SavedLine::Kept(from, Row::of(numbers)))),
        None => Ok(None),
    }
}

fn message_line(alloc: Global, words: &[&[u8]]) -> Result<Option<SavedLine>, AllocError>
    ensures found { IfOk result (λ found. (line : Line) → IsSavedLine line → kind_of line
        ≡ Word.Msg → map (λ word. word.now) words.now ≡ words_behind line → found ≡ Some line) }
    ensures range { IfOk result (λ found. IfSome found IsSavedLine) }
{
    let Some(to) = wide_at(words, 0) else {
        return Ok(None);
    };
    let Some(tag) = wide_at(words, 1) else {
        return Ok(None);
    };
    match numbers_of(alloc, behind(words, 2))? {
        Some(numbers) => Ok(Some(SavedLine::Msg(to, tag, Row::of(numbers)))),
        None => Ok(None),
    }
}

/// The words behind the first few.
fn behind<'a, 'w>(words: &'a [&'w [u8]], many: usize) -> &'a [&'w [u8]]
    ensures { result.now ≡ drop many words.now }
{
    &words[many.min(words.len())..]
}

/// How many words stand in front of the first `:`, or all where there is none.
fn colon_at(words: &[&[u8]]) -> usize
    ensures found { (front back : List (List ℕ)) → All (IsOther (codes ":")) front →
        map (λ word. word.now) words.now ≡ front ++ codes ":" ∷ back → result ≡ length front }
    ensures within { result ≤ length words.now }
{
    for (i, word) in words.iter().enumerate() {
        if is_word(word, b":") {
            return i;
        }
    }
    words.len()
}

fn store_line(alloc: Global, words: &[&[u8]]) -> Result<Option<SavedLine>, AllocError>
    ensures found { IfOk result (λ found. (line : Line) → IsSavedLine line → kind_of line
        ≡ Word.Store → map (λ word. word.now) words.now ≡ words_behind line → found ≡ Some line) }
    ensures range { IfOk result (λ found. IfSome found IsSavedLine) }
{
    let colon = colon_at(words);
    let Some(dims) = boxes_of(alloc, &words[..colon])? else {
        return Ok(None);
    };
    if dims.is_empty() {
        return Ok(None);
    }
    match numbers_of(alloc, behind(words, colon + 1))? {
        Some(numbers) => Ok(Some(SavedLine::Store(Row::of(dims), Row::of(numbers)))),
        None => Ok(None),
    }
}

/// The line with these words, if they are one's. Of other words it may give one too.
pub(crate) fn guess(alloc: Global, words: &[&[u8]]) -> Result<Option<SavedLine>, AllocError>
    ensures found { IfOk result (λ found. (line : Line) → IsSavedLine line →
        map (λ word. word.now) words.now ≡ words_of line → found ≡ Some line) }
    ensures range { IfOk result (λ found. IfSome found IsSavedLine) }
{
    let Some((first, rest)) = words.split_first() else {
        return Ok(None);
    };
    let Some(kind) = kind_named(first) else {
        return Ok(None);
    };
    match kind {
        Kind::Proc => proc_line(alloc, rest),
        Kind::Scalars => scalars_line(alloc, rest),
        Kind::Slot => slot_line(alloc, rest),
        Kind::Cells => cells_line(alloc, rest),
        Kind::Store => store_line(alloc, rest),
        Kind::Kept => kept_line(alloc, rest),
        Kind::Msg => message_line(alloc, rest),
    }
}
