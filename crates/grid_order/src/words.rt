//! The items that words are.
ghost use Rattle.std.specs.Prelude.{◌≡◌, ◌==◌, ◌<◌, length, Some};
ghost use Rattle.std.specs.List.{position};
ghost use Rattle.grid_order.specs.Item.{item_at, item_of, number_below};
ghost use Rattle.grid_order.specs.Reading.{is_gap};

use crate::order::Item;

/// The most turns that one item may give.
const MOST_TIMES: u32 = 1_000_000;

/// Whether the byte stands between items: a space, a tab, a newline or a carriage return.
pub(crate) fn is_gap(byte: u8) -> bool
    ensures { result ≡ is_gap byte }
{
    byte == b' ' || byte == b'\t' || byte == b'\n' || byte == b'\r'
}

/// The number that the word stands for, where it has digits alone, one or more, and the number is
/// below the limit.
fn number_below(word: &[u8], limit: u32) -> Option<u32>
    ensures { result ≡ number_below limit word.now }
{
    if word.is_empty() {
        return None;
    }
    let mut number: u64 = 0;
    for byte in word {
        if !byte.is_ascii_digit() {
            return None;
        }
        number = 10 * number + u64::from(*byte - b'0');
        if number >= u64::from(limit) {
            return None;
        }
    }
    Some(number as u32)
}

/// The place of the first `x` in the word.
fn place_of_x(word: &[u8]) -> Option<usize>
    ensures { result ≡ position (λ byte. byte == 120) word.now }
{
    word.iter().position(|byte| *byte == b'x')
}

/// The item that a word with an `x` at this place is.
fn repeated(word: &[u8], x: usize, count: u32) -> Option<Item>
    requires { x < length word.now }
    ensures { result ≡ item_at count word.now (Some x) }
{
    let processor = number_below(&word[..x], count)?;
    let times = number_below(&word[x + 1..], MOST_TIMES + 1)?;
    Some(Item { processor, times })
}

/// The item that a word is, of so many processors; `None` where it is none.
pub(crate) fn item_of(word: &[u8], count: u32) -> Option<Item>
    ensures { result ≡ item_of count word.now }
{
    let Some(x) = place_of_x(word) else {
        let processor = number_below(word, count)?;
        return Some(Item {
            processor,
            times: 1,
        });
    };
    repeated(word, x, count)
}
