//! Texts as values of a type.
ghost use Rattle.std.specs.Prelude.{◌≡◌, ◌≤◌, ◌^◌, IsTrue, MatchOption};
ghost use Rattle.std.specs.List.{list_all};
ghost use Rattle.std.specs.Char.{is_ascii_digit};
ghost use Rattle.std.specs.Str.Parse.{digits_value};
ghost use Rattle.zpl_parts.specs.of_zpl_binding.Settings.{digits_of, integer_of, truth_of, value_in};
ghost use Rattle.zpl_tree.specs.View.{base_type_of};

use zpl_tree::Base;

/// The value of a type that a text is.
pub fn value_in(base: &Base<'_>, text: &[u8]) -> Option<i64>
    ensures { result ≡ value_in (base_type_of base.now) text.now }
{
    match base {
        Base::Integer | Base::Other(_) => integer_of(text),
        Base::Boolean => truth_of(text),
    }
}

/// The integer that digits with a `-` before them, or without a sign, are.
fn integer_of(text: &[u8]) -> Option<i64>
    ensures { result ≡ integer_of text.now }
{
    let (first, rest) = text.split_first()?;
    if *first == b'-' {
        let number = number_of(rest)?;
        return 0i64.checked_sub_unsigned(number);
    }
    let number = number_of(text)?;
    0i64.checked_add_unsigned(number)
}

/// The truth value that `true` or `false` is.
fn truth_of(text: &[u8]) -> Option<i64>
    ensures { result ≡ truth_of text.now }
{
    if text == b"true".as_slice() {
        Some(1)
    } else if text == b"false".as_slice() {
        Some(0)
    } else {
        None
    }
}

/// The number of one or more digits, unless it has more than 64 bits.
fn number_of(text: &[u8]) -> Option<u64>
    ensures { MatchOption result (MatchOption (digits_of text.now) (Unit {0})
        (λ number. 2 ^ 64 ≤ number))
        (λ number. digits_of text.now ≡ Some number) }
{
    if text.is_empty() {
        return None;
    }
    if !are_digits(text) {
        return None;
    }
    digits_value(text)
}

fn are_digits(text: &[u8]) -> bool
    ensures { result ≡ list_all is_ascii_digit text.now }
{
    text.iter().all(|byte| byte.is_ascii_digit())
}

/// The number of digits, unless it has more than 64 bits.
fn digits_value(digits: &[u8]) -> Option<u64>
    requires { IsTrue (list_all is_ascii_digit digits.now) }
    ensures { MatchOption result (2 ^ 64 ≤ digits_value 10 digits.now)
        (λ value. value ≡ digits_value 10 digits.now) }
{
    let mut value: u64 = 0;
    for digit in digits {
        value = value
            .checked_mul(10)?
            .checked_add(u64::from(*digit - b'0'))?;
    }
    Some(value)
}
