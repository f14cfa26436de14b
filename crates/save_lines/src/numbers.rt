//! Numbers in words.
ghost use Rattle.std.specs.Prelude.{◌≡◌, ◌++◌, ℤ, List, All, IfOk, IfSome, IsSomeAnd};
ghost use Rattle.std.specs.Prelude.{OnOk, Some, map, slice_get};
ghost use Rattle.std.specs.Fmt.{signed_decimal};
ghost use Rattle.std.specs.List.{flat_map, slice_split};
ghost use Rattle.listing_lines.specs.Line.{spaced};
ghost use Rattle.zpl_nums.specs.Integer.{IsInteger};
ghost use Rattle.save_lines.specs.Line.{number_words};
ghost use Rattle.save_lines.specs.Reading.{is_cut};

use itoa::Buffer;
use std::alloc::{AllocError, Global};

/// Appends the number in decimal digits, with no leading zero, behind a `-` where it is negative.
pub(crate) fn write_number(number: i128, into: &mut Vec<u8>) -> Result<(), AllocError>
    ensures { OnOk result (into.new.items ≡ into.old.items ++ signed_decimal number) }
{
    let mut buffer = Buffer::new();
    into.extend_from_slice(buffer.format(number).as_bytes())
}

/// Appends numbers, each behind a space.
pub(crate) fn write_numbers(numbers: &[i64], into: &mut Vec<u8>) -> Result<(), AllocError>
    ensures { OnOk result (into.new.items
        ≡ into.old.items ++ flat_map spaced (number_words numbers.now)) }
{
    for number in numbers {
        into.push(b' ')?;
        write_number(i128::from(*number), into)?;
    }
    Ok(())
}

// ---- reading

/// The number that is written so. Of other texts it may give one too.
pub(crate) fn number_of(word: &[u8]) -> Option<i64>
    ensures found { (number : ℤ) → IsInteger number → word.now ≡ signed_decimal number → result
        ≡ Some number }
    ensures range { IfSome result IsInteger }
{
    match str::from_utf8(word) {
        Ok(text) => text.parse::<i64>().ok(),
        Err(_) => None,
    }
}

/// The number that the word at this place is.
pub(crate) fn number_at(words: &[&[u8]], at: usize) -> Option<i64>
    ensures found { (number : ℤ) → IsInteger number →
        slice_get (map (λ word. word.now) words.now) at ≡ Some (signed_decimal number) → result
        ≡ Some number }
    ensures range { IfSome result IsInteger }
{
    match words.get(at) {
        Some(word) => number_of(word),
        None => None,
    }
}

/// The numbers that are written so. Of other words it may give some too.
pub(crate) fn numbers_of(alloc: Global, words: &[&[u8]]) -> Result<Option<Vec<i64>>, AllocError>
    ensures found { IfOk result (λ found. (numbers : List ℤ) → All IsInteger numbers →
        map (λ word. word.now) words.now ≡ map signed_decimal numbers →
        IsSomeAnd found (λ list. list.items ≡ numbers)) }
    ensures range { IfOk result (λ found. IfSome found (λ list. All IsInteger list.items)) }
{
    let mut numbers = Vec::new(alloc);
    for word in words {
        let Some(number) = number_of(word) else {
            return Ok(None);
        };
        numbers.push(number)?;
    }
    Ok(Some(numbers))
}

/// The word, cut at each `:` and each `.`.
pub(crate) fn pieces_of(alloc: Global, word: &[u8]) -> Result<Vec<&[u8]>, AllocError>
    ensures { IfOk result (λ pieces. map (λ piece. piece.now) pieces.items
        ≡ slice_split is_cut word.now) }
{
    word.split(|byte| *byte == b':' || *byte == b'.')
        .collect(alloc)
}
