//! Readers of the words of a guest line.

ghost use Rattle.std.specs.Prelude.{◌≡◌, ◌∷◌, ◌≤◌, ◌<◌, ◌^◌, ◌==◌, length, position, IfSome, option_copied};
ghost use Rattle.qo_guest.specs.Addresses.{pieces, with_digit, with_digits, number_of, steps_of, address_of, hex_digit, with_hex, hex_of, value_of, hwaddr_of};
ghost use Rattle.qo_guest.specs.Pieces.{pieces_after};

use crate::addresses::{Addr, STEPS_MAX, SlotPath};

/// The most hexadecimal digits of a value.
const VALUE_DIGITS_MAX: usize = 8;

/// The most hexadecimal digits of a hardware address.
const HWADDR_DIGITS_MAX: usize = 16;

/// Where the first separator stands.
fn separator_at(bytes: &[u8], separator: u8) -> Option<usize>
    ensures { result ≡ position (λ byte. byte == separator) bytes.now }
{
    bytes.iter().position(|byte| *byte == separator)
}

/// What stands before the first separator, and what stands after it, where there is one.
pub fn split_piece(bytes: &[u8], separator: u8) -> (&[u8], Option<&[u8]>)
    ensures pieces { pieces separator bytes.now
        ≡ result.0.now ∷ pieces_after separator (option_copied result.1) }
    ensures shorter { IfSome result.1 (λ rest. length rest.now < length bytes.now) }
{
    match separator_at(bytes, separator) {
        Some(at) => (&bytes[..at], Some(&bytes[at + 1..])),
        None => (bytes, None),
    }
}

/// A number with one more decimal digit; `None` where the byte is no digit or the number passes 255.
fn with_digit(number: u8, byte: u8) -> Option<u8>
    ensures { result ≡ with_digit number byte }
{
    if !byte.is_ascii_digit() {
        return None;
    }
    number.checked_mul(10)?.checked_add(byte - b'0')
}

/// A number with more decimal digits.
fn with_digits(mut number: u8, digits: &[u8]) -> Option<u8>
    ensures { result ≡ with_digits number digits.now }
{
    for digit in digits {
        number = with_digit(number, *digit)?;
    }
    Some(number)
}

/// The number that a word is: decimal, 0 to 255, without leading zeros.
pub fn read_number(word: &[u8]) -> Option<u8>
    ensures { result ≡ number_of word.now }
{
    match word {
        [] | [b'0', _, ..] => None,
        _ => with_digits(0, word),
    }
}

/// The slots that a word is: 1 to `STEPS_MAX` of them, joined by dots.
fn read_steps(word: &[u8]) -> Option<SlotPath>
    ensures { result ≡ steps_of word.now }
{
    let (first, mut after) = split_piece(word, b'.');
    let mut steps = SlotPath::one(read_number(first)?);
    while let Some(rest) = after {
        let (next, after_next) = split_piece(rest, b'.');
        let slot = read_number(next)?;
        if steps.as_slice().len() == STEPS_MAX {
            return None;
        }
        steps.push(slot);
        after = after_next;
    }
    Some(steps)
}

/// The address that a word is.
pub fn read_address(word: &[u8]) -> Option<Addr>
    ensures { result ≡ address_of word.now }
{
    match word {
        [b'm', number @ ..] => Some(Addr::Mem(read_number(number)?)),
        _ => Some(Addr::Slots(read_steps(word)?)),
    }
}

/// The number that a hexadecimal digit stands for, in either case.
fn hex_digit(byte: u8) -> Option<u64>
    ensures value { result ≡ hex_digit byte }
    ensures within { IfSome result (λ digit. digit < 16) }
{
    match byte {
        b'0'..=b'9' => Some(u64::from(byte - b'0')),
        b'a'..=b'f' => Some(u64::from(byte - b'a') + 10),
        b'A'..=b'F' => Some(u64::from(byte - b'A') + 10),
        _ => None,
    }
}

/// The number that at most sixteen hexadecimal digits stand for.
#[tactic(auto, using(crate::proofs::Hex::room_for_digit))]
fn read_hex(digits: &[u8]) -> Option<u64>
    requires { length digits.now ≤ HWADDR_DIGITS_MAX }
    ensures number { result ≡ with_hex 0 digits.now }
    ensures within { IfSome result (λ number. number < 16 ^ length digits.now) }
{
    let mut number = 0;
    for byte in digits {
        number = number * 16 + hex_digit(*byte)?;
    }
    Some(number)
}

/// The number that a word is: `0x` and one to `most` hexadecimal digits.
fn read_digits(word: &[u8], most: usize) -> Option<u64>
    requires { most ≤ HWADDR_DIGITS_MAX }
    ensures number { result ≡ hex_of most word.now }
    ensures within { IfSome result (λ number. number < 16 ^ most) }
{
    match word {
        [b'0', b'x', digits @ ..] if !digits.is_empty() && digits.len() <= most => read_hex(digits),
        _ => None,
    }
}

/// The value that a word is: `0x` and one to eight hexadecimal digits.
pub fn read_value(word: &[u8]) -> Option<u32>
    ensures { result ≡ value_of word.now }
{
    Some(read_digits(word, VALUE_DIGITS_MAX)? as u32)
}

/// The hardware address that a word is: `0x` and one to sixteen hexadecimal digits.
pub fn read_hwaddr(word: &[u8]) -> Option<u64>
    ensures { result ≡ hwaddr_of word.now }
{
    read_digits(word, HWADDR_DIGITS_MAX)
}
