//! Numbers in words.
ghost use Rattle.std.specs.Prelude.{◌≡◌, ℤ, List, All, IfOk, IfSome, IsSomeAnd, Some, map, not};
ghost use Rattle.std.specs.Fmt.{signed_decimal};
ghost use Rattle.std.specs.List.{slice_split};
ghost use Rattle.zpl_nums.specs.Integer.{IsInteger};
ghost use Rattle.listing_lines.specs.Reading.{is_number_byte, number_texts};

use std::alloc::{AllocError, Global};

/// Whether the byte may stand in a number: a digit, or `-`.
pub(crate) fn is_number_byte(byte: u8) -> bool
    ensures { result ≡ is_number_byte byte }
{
    byte.is_ascii_digit() || byte == b'-'
}

/// The number that is written so. Of other texts it may give one too.
fn number_of(text: &[u8]) -> Option<i64>
    ensures found { (number : ℤ) → IsInteger number → text.now ≡ signed_decimal number → result
        ≡ Some number }
    ensures range { IfSome result IsInteger }
{
    match str::from_utf8(text) {
        Ok(text) => text.parse::<i64>().ok(),
        Err(_) => None,
    }
}

/// The word, cut at each byte that can't stand in a number.
fn pieces_of(alloc: Global, word: &[u8]) -> Result<Vec<&[u8]>, AllocError>
    ensures { IfOk result (λ pieces. map (λ piece. piece.now) pieces.items
        ≡ slice_split (λ byte. not (is_number_byte byte)) word.now) }
{
    word.split(|byte| !is_number_byte(*byte)).collect(alloc)
}

/// The numbers in a word, where each longest run of bytes of numbers is one as it is written.
pub(crate) fn numbers_in(alloc: Global, word: &[u8]) -> Result<Option<Vec<i64>>, AllocError>
    ensures found { IfOk result (λ found. (numbers : List ℤ) → All IsInteger numbers →
        number_texts word.now ≡ map signed_decimal numbers →
        IsSomeAnd found (λ list. list.items ≡ numbers)) }
    ensures range { IfOk result (λ found. IfSome found (λ list. All IsInteger list.items)) }
{
    let pieces = pieces_of(alloc, word)?;
    let mut numbers = Vec::new(alloc);
    for piece in &pieces {
        if !piece.is_empty() {
            let Some(number) = number_of(piece) else {
                return Ok(None);
            };
            numbers.push(number)?;
        }
    }
    Ok(Some(numbers))
}
