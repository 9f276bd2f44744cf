//! The values of options (docs/PROFILE.md, monitor lines).

ghost use Rattle.std.specs.Prelude.{◌≡◌, IfOk};
ghost use Rattle.qo_text.specs.Numbers.{below_zero, number_of, value_of, whole, with_digit, with_digits};

use qo_values::{Text, Val};
use std::alloc::{AllocError, Global};

/// How far below 0 the least number of 64 bits is.
const LEAST: u64 = 1 << 63;

/// A number with one more decimal digit; `None` where the byte is no digit, or the number would not be
/// below 2^64.
fn with_digit(number: u64, byte: u8) -> Option<u64>
    ensures { result ≡ with_digit number byte }
{
    if !byte.is_ascii_digit() {
        return None;
    }
    number.checked_mul(10)?.checked_add(u64::from(byte - b'0'))
}

/// A number with more decimal digits.
fn with_digits(mut number: u64, digits: &[u8]) -> Option<u64>
    ensures { result ≡ with_digits number digits.now }
{
    for digit in digits {
        number = with_digit(number, *digit)?;
    }
    Some(number)
}

/// The number that a text is: decimal, below 2^64, without leading zeros.
fn whole(text: &[u8]) -> Option<u64>
    ensures { result ≡ whole text.now }
{
    match text {
        [] | [b'0', _, ..] => None,
        _ => with_digits(0, text),
    }
}

/// The number that is as far below 0, from -1 to -2^63.
fn below_zero(number: u64) -> Option<Val>
    ensures { result ≡ below_zero number }
{
    if number == 0 || number > LEAST {
        return None;
    }
    Some(Val::Int(-i128::from(number) as i64))
}

/// The number that a text is, from -2^63 to 2^64 - 1.
fn number_of(text: &[u8]) -> Option<Val>
    ensures { result ≡ number_of text.now }
{
    match text {
        [b'-', digits @ ..] => below_zero(whole(digits)?),
        _ => Some(Val::Uint(whole(text)?)),
    }
}

/// The value of an option: true for `on`, false for `off`, a number, or else a text. The error is want
/// of memory.
pub(crate) fn value_of(alloc: Global, text: &str) -> Result<Val, AllocError>
    ensures { IfOk result (λ val. val ≡ value_of text.now) }
{
    match text {
        "on" => return Ok(Val::Bool(true)),
        "off" => return Ok(Val::Bool(false)),
        _ => {}
    }
    match number_of(text.as_bytes()) {
        Some(number) => Ok(number),
        None => Ok(Val::Text(Text::from_string(String::from_str(alloc, text)?))),
    }
}
