//! The fields of lines.
ghost use Rattle.std.specs.Prelude.{◌≡◌, ◌≢◌, ◌↔◌, ◌++◌, true, false, IsTrue, ℕ, List, All, OnOk};
ghost use Rattle.std.specs.Prelude.{IfOk, IfSome, IsSomeAnd, MatchOption, None, ℤ};
ghost use Rattle.hex.specs.Hex.{IsBytes};
ghost use Rattle.zpl_nums.specs.Integer.{IsInteger};
ghost use Rattle.listing_lines.specs.declared.fields.Field.{Field as Written};
ghost use Rattle.listing_lines.specs.Field.{before, behind, numbers_text, bytes_text, field_text};
ghost use Rattle.listing_lines.specs.Field.{has_count, IsField};
ghost use Rattle.listing_lines.specs.Reading.{has_byte, number_mark, letter_mark, mark_of};

use crate::names::{Name, name_of};
use crate::numbers::{is_number_byte, numbers_in};
use hex::FromHexError;
use node_form::Row;
use std::alloc::{AllocError, Global};
use zpl_io::write_number;

/// How a field with numbers is written.
#[derive(Clone, Copy, Debug, PartialEq, Eq)]
pub enum Mark {
    /// `1,2,3`: one number or more.
    Plain,
    /// `1..2:3,4`: the storage and the fringe widths of an array.
    Range,
    /// `1..2:3:4`: bounds, step and alignment of a region.
    Bounds,
    /// `1..2`: two expressions.
    Span,
    /// `^1`: a slot whose dimension is copied.
    Copied,
    /// `n1`: a constant.
    Constant,
    /// `s1`: a scalar.
    Scalar,
    /// `a1`: an array at the index.
    Here,
    /// `a1@2,3`: an array at the index moved by a vector.
    Shifted,
    /// `c1`: a cell.
    Cell,
    /// `i1`: a coordinate, from `i1` to `i3`.
    Coord,
}

/// Which number of a field.
#[derive(Clone, Copy, Debug)]
pub(crate) enum Nth {
    First,
    Second,
    Third,
    Later,
}

/// A field of a line.
#[derive(Debug, Drop)]
pub enum Field {
    /// A word or a sign without numbers.
    Name(Name),
    /// Numbers, with what stands around them.
    Numbers(Mark, Row<i64>),
    /// The bytes of a text, in hexadecimal.
    Bytes(Row<u8>),
}

/// What stands in front of a number.
fn before(mark: Mark, nth: Nth) -> &'static [u8]
    ensures { result.now ≡ before mark nth }
{
    match mark {
        Mark::Plain => match nth {
            Nth::First => b"",
            Nth::Second | Nth::Third | Nth::Later => b",",
        },
        Mark::Range => match nth {
            Nth::First => b"",
            Nth::Second => b"..",
            Nth::Third => b":",
            Nth::Later => b",",
        },
        Mark::Bounds => match nth {
            Nth::First => b"",
            Nth::Second => b"..",
            Nth::Third | Nth::Later => b":",
        },
        Mark::Span => match nth {
            Nth::First => b"",
            Nth::Second | Nth::Third | Nth::Later => b"..",
        },
        Mark::Shifted => match nth {
            Nth::First => b"a",
            Nth::Second => b"@",
            Nth::Third | Nth::Later => b",",
        },
        Mark::Copied => b"^",
        Mark::Constant => b"n",
        Mark::Scalar => b"s",
        Mark::Here => b"a",
        Mark::Cell => b"c",
        Mark::Coord => b"i",
    }
}

fn behind(nth: Nth) -> Nth
    ensures { result ≡ behind nth }
{
    match nth {
        Nth::First => Nth::Second,
        Nth::Second => Nth::Third,
        Nth::Third | Nth::Later => Nth::Later,
    }
}

/// Appends a field.
pub(crate) fn write_field(
    alloc: Global,
    field: &Field,
    into: &mut Vec<u8>,
) -> Result<(), AllocError>
    ensures { OnOk result (into.new.items ≡ into.old.items ++ field_text field.now) }
{
    match field {
        Field::Name(name) => into.extend_from_slice(name.text()),
        Field::Numbers(mark, numbers) => write_numbers(alloc, *mark, numbers.as_slice(), into),
        Field::Bytes(bytes) => write_bytes(alloc, bytes.as_slice(), into),
    }
}

fn write_numbers(
    alloc: Global,
    mark: Mark,
    numbers: &[i64],
    into: &mut Vec<u8>,
) -> Result<(), AllocError>
    ensures { OnOk result (into.new.items
        ≡ into.old.items ++ numbers_text mark Nth.First numbers.now) }
{
    let mut nth = Nth::First;
    for number in numbers {
        into.extend_from_slice(before(mark, nth))?;
        write_number(alloc, *number, into)?;
        nth = behind(nth);
    }
    Ok(())
}

fn write_bytes(alloc: Global, bytes: &[u8], into: &mut Vec<u8>) -> Result<(), AllocError>
    ensures { OnOk result (into.new.items ≡ into.old.items ++ bytes_text bytes.now) }
{
    if bytes.is_empty() {
        return into.extend_from_slice(b"-");
    }
    let text = hex::encode(alloc, bytes)?;
    into.extend_from_slice(text.as_bytes())
}

// ---- reading

fn has_byte(wanted: u8, word: &[u8]) -> bool
    ensures { result ≡ has_byte wanted word.now }
{
    word.iter().any(|byte| *byte == wanted)
}

fn number_mark(word: &[u8]) -> Mark
    ensures { result ≡ number_mark word.now }
{
    if !has_byte(b'.', word) {
        Mark::Plain
    } else if !has_byte(b':', word) {
        Mark::Span
    } else if has_byte(b',', word) {
        Mark::Range
    } else {
        Mark::Bounds
    }
}

fn letter_mark(first: u8, word: &[u8]) -> Mark
    ensures { result ≡ letter_mark first word.now }
{
    match first {
        b'^' => Mark::Copied,
        b'n' => Mark::Constant,
        b's' => Mark::Scalar,
        b'c' => Mark::Cell,
        b'i' => Mark::Coord,
        _ if has_byte(b'@', word) => Mark::Shifted,
        _ => Mark::Here,
    }
}

/// The mark that the word has, if it is a field with numbers.
fn mark_of(word: &[u8]) -> Mark
    ensures { result ≡ mark_of word.now }
{
    let first = word.first().copied().unwrap_or(0);
    if is_number_byte(first) {
        number_mark(word)
    } else {
        letter_mark(first, word)
    }
}

/// Whether a field with this mark has such numbers.
fn has_count(mark: Mark, numbers: &[i64]) -> bool
    ensures { result ≡ has_count mark numbers.now }
{
    match mark {
        Mark::Plain => matches!(numbers, [_, ..]),
        Mark::Range | Mark::Bounds => matches!(numbers, [_, _, _, _]),
        Mark::Span => matches!(numbers, [_, _]),
        Mark::Copied | Mark::Constant | Mark::Scalar | Mark::Here | Mark::Cell => {
            matches!(numbers, [_])
        }
        Mark::Shifted => matches!(numbers, [_, _, ..]),
        Mark::Coord => matches!(numbers, [1 | 2 | 3]),
    }
}

/// Whether the field is written as this word.
fn is_written(alloc: Global, field: &Field, word: &[u8]) -> Result<bool, AllocError>
    ensures { IfOk result (λ same. IsTrue same ↔ (word.now ≡ field_text field.now)) }
{
    let mut text = Vec::new(alloc);
    write_field(alloc, field, &mut text)?;
    Ok(text.as_slice() == word)
}

/// The field with numbers that is written so.
fn read_numbers(alloc: Global, word: &[u8]) -> Result<Option<Field>, AllocError>
    ensures { IfOk result (λ found. MatchOption found
        ((mark : _) (numbers : List ℤ) → IsTrue (has_count mark numbers) → All IsInteger numbers →
        word.now ≢ numbers_text mark Nth.First numbers)
        (λ field. IsField false field × (word.now ≡ field_text field))) }
{
    let Some(numbers) = numbers_in(alloc, word)? else {
        return Ok(None);
    };
    let mark = mark_of(word);
    if !has_count(mark, &numbers) {
        return Ok(None);
    }
    let field = Field::Numbers(mark, Row::of(numbers));
    if !is_written(alloc, &field, word)? {
        return Ok(None);
    }
    Ok(Some(field))
}

/// The bytes that are written so. Of other texts it may give some too.
fn bytes_of(alloc: Global, word: &[u8]) -> Result<Option<Vec<u8>>, AllocError>
    ensures found { IfOk result (λ found. (bytes : List ℕ) → IsBytes bytes →
        word.now ≡ bytes_text bytes → IsSomeAnd found (λ list. list.items ≡ bytes)) }
    ensures range { IfOk result (λ found. IfSome found (λ list. IsBytes list.items)) }
{
    if word == b"-".as_slice() {
        return Ok(Some(Vec::new(alloc)));
    }
    match hex::decode(alloc, word) {
        Ok(bytes) => Ok(Some(bytes)),
        Err(fault) => no_bytes(fault),
    }
}

/// None, where the fault isn't want of memory.
fn no_bytes(fault: FromHexError) -> Result<Option<Vec<u8>>, AllocError>
    ensures none { IfOk result (λ found. found ≡ None) }
    ensures fault { OnOk result (fault ≢ FromHexError.OutOfMemory) }
{
    match fault {
        FromHexError::OutOfMemory => Err(AllocError),
        FromHexError::OddLength
        | FromHexError::InvalidStringLength
        | FromHexError::InvalidHexCharacter { .. } => Ok(None),
    }
}

/// The field of bytes that is written so.
fn read_bytes(alloc: Global, word: &[u8]) -> Result<Option<Field>, AllocError>
    ensures { IfOk result (λ found. MatchOption found
        ((bytes : List ℕ) → IsBytes bytes → word.now ≢ bytes_text bytes)
        (λ field. IsField true field × (word.now ≡ field_text field))) }
{
    let Some(bytes) = bytes_of(alloc, word)? else {
        return Ok(None);
    };
    let field = Field::Bytes(Row::of(bytes));
    if !is_written(alloc, &field, word)? {
        return Ok(None);
    }
    Ok(Some(field))
}

/// The field that is written so, in the line of a text or in another one.
pub(crate) fn read_field(
    alloc: Global,
    in_text: bool,
    word: &[u8],
) -> Result<Option<Field>, AllocError>
    ensures { IfOk result (λ found. MatchOption found
        ((field : Written) → IsField in_text field → word.now ≢ field_text field)
        (λ field. IsField in_text field × (word.now ≡ field_text field))) }
{
    if in_text {
        return read_bytes(alloc, word);
    }
    match name_of(word) {
        Some(name) => Ok(Some(Field::Name(name))),
        None => read_numbers(alloc, word),
    }
}
