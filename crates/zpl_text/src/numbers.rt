//! Numbers.
ghost use Rattle.std.specs.Prelude.{◌≡◌, ◌≤◌, ◌<◌, ◌↔◌, pos, ◌<ℤ◌, ◌≤ℤ◌, Bool, length, IsTrue};
ghost use Rattle.std.specs.Prelude.{MatchOption, MatchResult, IfOk};
ghost use Rattle.std.specs.List.{list_all, prefix_len};
ghost use Rattle.std.specs.Char.{is_ascii_digit};
ghost use Rattle.std.specs.Str.Parse.{digits_value};
ghost use Rattle.zpl_text.specs.declared.TheConstants.{MOST_SOURCE};
ghost use Rattle.zpl_text.specs.Bytes.{FirstPasses};
ghost use Rattle.zpl_text.specs.Cutting.{IsCut, IsSound, IsWrong, IsFloatTail, greatest};

use crate::faults::LexFault;
use crate::tokens::offset_of;
use zpl_tokens::Kind;

/// The number at the front of what is left of the text, and what is left behind it.
pub fn number_at<'a>(text: &[u8], rest: &'a [u8]) -> Result<(Kind, &'a [u8]), LexFault>
    requires digit { FirstPasses is_ascii_digit rest.now }
    requires within { length rest.now ≤ length text.now }
    requires limit { length text.now ≤ MOST_SOURCE }
    ensures cut { (ditto : Bool) → MatchResult result
        (λ found. IsCut ditto rest.now found.0 found.1.now × IsSound found.0 found.1.now)
        (λ fault. IsWrong text.now ditto rest.now fault) }
    ensures shorter { IfOk result (λ found. length found.1.now < length rest.now) }
{
    let (digits, after) = rest.split_at(digit_count(rest));
    let at = offset_of(text, rest);
    if is_float_tail(after) {
        return Err(LexFault::FloatText(at));
    }
    match value_of(digits) {
        Some(value) => Ok((Kind::Number(value), after)),
        None => Err(LexFault::NumberTooLarge(at)),
    }
}

/// How many digits stand at the front.
fn digit_count(bytes: &[u8]) -> usize
    ensures { result ≡ prefix_len is_ascii_digit bytes.now }
{
    bytes
        .iter()
        .take_while(|byte| byte.is_ascii_digit())
        .count()
}

/// Whether digits with this behind them are a float's: a `.` that no second one follows, or an
/// exponent.
fn is_float_tail(bytes: &[u8]) -> bool
    ensures { IsTrue result ↔ IsFloatTail bytes.now }
{
    if bytes.is_empty() {
        return false;
    }
    match bytes[0] {
        b'.' => bytes.len() < 2 || bytes[1] != b'.',
        b'e' | b'E' => {
            bytes.len() >= 2 && (bytes[1].is_ascii_digit() || bytes[1] == b'+' || bytes[1] == b'-')
        }
        _ => false,
    }
}

/// The value of digits, if it is at most the greatest integer.
fn value_of(digits: &[u8]) -> Option<i64>
    requires { IsTrue (list_all is_ascii_digit digits.now) }
    ensures { MatchOption result
        (greatest <ℤ pos (digits_value 10 digits.now))
        (λ value. (value ≡ pos (digits_value 10 digits.now)) × (value ≤ℤ greatest)) }
{
    let mut value: u64 = 0;
    for digit in digits {
        value = value
            .checked_mul(10)?
            .checked_add(u64::from(*digit - b'0'))?;
    }
    i64::try_from(value).ok()
}
