//! The first two lines of a saved grid.
ghost use Rattle.std.specs.Prelude.{◌≡◌, ◌≢◌, ◌++◌, ◌∷◌, ◌↔◌, ◌^◌, ◌<◌, ◌≤◌, ℕ, List};
ghost use Rattle.std.specs.Prelude.{IsTrue, MatchOption, Some, length, slice_index};
ghost use Rattle.std.specs.Char.{digit_value};
ghost use Rattle.std.specs.Fmt.{decimal};
ghost use Rattle.grid_save.specs.Fault.{HasCounts};
ghost use Rattle.grid_save.specs.Saved.{AreCounted};
ghost use Rattle.grid_save.specs.Written.{counts_text};

use grid_sim::Counts;
use itoa::Buffer;

/// Counts of turns and of messages are below this.
const MOST_COUNT: u128 = 1 << 62;

/// Counts of words are below this.
const MOST_WORDS: u128 = 1 << 126;

/// No front of a number of words is as large as this.
const MOST_FRONT: u128 = 1 << 124;

// ---- texts

fn is_same(one: &[u8], other: &[u8]) -> bool
    ensures { IsTrue result ↔ (one.now ≡ other.now) }
{
    one == other
}

/// What stands behind this text, where the bytes begin with it.
pub(crate) fn behind_text<'a>(bytes: &'a [u8], text: &[u8]) -> Option<&'a [u8]>
    ensures { MatchOption result
        ((rest : List ℕ) → bytes.now ≢ text.now ++ rest)
        (λ rest. bytes.now ≡ text.now ++ rest.now) }
{
    if bytes.len() < text.len() {
        return None;
    }
    let (front, rest) = bytes.split_at(text.len());
    if is_same(front, text) {
        return Some(rest);
    }
    None
}

// ---- numbers

/// The value of a decimal digit.
fn digit_of(byte: u8) -> Option<u8>
    ensures { MatchOption result
        (digit_value byte < 10 → ⊥)
        (λ digit. (digit ≡ digit_value byte) × (digit < 10)) }
{
    if byte < b'0' || byte > b'9' {
        return None;
    }
    Some(byte - b'0')
}

/// The number of words that is written so. Of other texts it may give one too.
fn value_of(digits: &[u8]) -> Option<u128>
    ensures { (n : ℕ) → n < 2 ^ 126 → digits.now ≡ decimal n → result ≡ Some n }
{
    let mut value: u128 = 0;
    for byte in digits {
        let Some(digit) = digit_of(*byte) else {
            return None;
        };
        if value >= MOST_FRONT {
            return None;
        }
        value = value * 10 + u128::from(digit);
    }
    Some(value)
}

/// Whether the number is written so.
fn is_number(number: u128, word: &[u8]) -> bool
    ensures { IsTrue result ↔ (word.now ≡ decimal number) }
{
    let mut buffer = Buffer::new();
    is_same(word, buffer.format(number).as_bytes())
}

/// The number of words that is written so.
fn number_of(word: &[u8]) -> Option<u128>
    ensures { MatchOption result
        ((n : ℕ) → n < 2 ^ 126 → word.now ≢ decimal n)
        (λ n. (n < 2 ^ 126) × (word.now ≡ decimal n)) }
{
    match value_of(word) {
        Some(number) if number < MOST_WORDS && is_number(number, word) => Some(number),
        _ => None,
    }
}

/// How many bytes stand before the first of this kind, or all where there is none.
fn len_to(bytes: &[u8], stop: u8) -> usize
    ensures within { result ≤ length bytes.now }
    ensures before { (k : ℕ) → k < result → slice_index bytes.now k ≢ stop }
    ensures found { result < length bytes.now → slice_index bytes.now result ≡ stop }
{
    for (i, byte) in bytes.iter().enumerate() {
        if *byte == stop {
            return i;
        }
    }
    bytes.len()
}

/// The number of words that stands before the first such byte, and what stands behind it.
fn take_number(bytes: &[u8], stop: u8) -> Option<(u128, &[u8])>
    requires { digit_value stop < 10 → ⊥ }
    ensures { MatchOption result
        ((n : ℕ) (rest : List ℕ) → n < 2 ^ 126 → bytes.now ≢ decimal n ++ stop ∷ rest)
        (λ found. (found.0 < 2 ^ 126) × (bytes.now ≡ decimal found.0 ++ stop ∷ found.1.now)) }
{
    let len = len_to(bytes, stop);
    if len == bytes.len() {
        return None;
    }
    let Some(number) = number_of(&bytes[..len]) else {
        return None;
    };
    Some((number, &bytes[len + 1..]))
}

/// The count that stands before the first space, and what stands behind it.
fn take_count(bytes: &[u8]) -> Option<(u64, &[u8])>
    ensures { MatchOption result
        ((n : ℕ) (rest : List ℕ) → n < 2 ^ 62 → bytes.now ≢ decimal n ++ 32 ∷ rest)
        (λ found. (found.0 < 2 ^ 62) × (bytes.now ≡ decimal found.0 ++ 32 ∷ found.1.now)) }
{
    match take_number(bytes, b' ') {
        Some((number, rest)) if number < MOST_COUNT => Some((number as u64, rest)),
        _ => None,
    }
}

/// The counts that the bytes begin with, and what stands behind them.
pub(crate) fn take_counts(bytes: &[u8]) -> Option<(Counts, &[u8])>
    ensures { MatchOption result
        ((rest : List ℕ) → HasCounts bytes.now rest → ⊥)
        (λ found. AreCounted found.0.turns found.0.sends found.0.words × (bytes.now
        ≡ counts_text found.0.turns found.0.sends found.0.words ++ found.1.now)) }
{
    let Some(numbers) = behind_text(bytes, b"counts ") else {
        return None;
    };
    let Some((turns, behind_turns)) = take_count(numbers) else {
        return None;
    };
    let Some((sends, behind_sends)) = take_count(behind_turns) else {
        return None;
    };
    let Some((words, rest)) = take_number(behind_sends, b'\n') else {
        return None;
    };
    let counts = Counts {
        turns,
        sends,
        words,
    };
    Some((counts, rest))
}
