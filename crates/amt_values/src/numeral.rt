//! Decimal numbers as text.

ghost use Rattle.std.specs.{Prelude.{◌≡◌, ◌<◌, ◌≤◌, ◌^◌, ◌↔◌, ℕ, All, length, slice_index, IsTrue, IsFalse, ◌++◌, IfOk, IsErrOf, OnOk, OnErr, decimal}, Char.{IsAsciiDigit}};
ghost use Rattle.amt_values.specs.Numeral.{IsNumeral, numeral_value};

use crate::bytes::Bytes;
use std::alloc::{AllocError, Global};
use std::str::from_utf8;

/// Why a text is no number of 64 bits.
#[derive(Clone, Copy, Debug, PartialEq, Eq)]
pub enum NumeralFault {
    /// It isn't decimal digits without a sign or a leading zero.
    NotDecimal,
    /// It is, and the number is 2^64 or more.
    TooLarge,
}

fn all_digits(text: &[u8]) -> bool
    ensures { IsTrue result ↔ All IsAsciiDigit text.now }
{
    text.iter().all(|octet| octet.is_ascii_digit())
}

fn has_leading_zero(text: &[u8]) -> bool
    ensures { IsFalse result ↔ (slice_index text.now 0 ≡ 48 → length text.now ≡ 1) }
{
    match text {
        [b'0', _, ..] => true,
        _ => false,
    }
}

fn is_numeral(text: &[u8]) -> bool
    ensures { IsTrue result ↔ IsNumeral text.now }
{
    if text.is_empty() {
        return false;
    }
    if has_leading_zero(text) {
        return false;
    }
    all_digits(text)
}

/// Reads decimal digits without a sign or a leading zero.
pub fn parse_numeral(text: &[u8]) -> Result<u64, NumeralFault>
    ensures found { IfOk result (λ number. text.now ≡ decimal number) }
    ensures only { (number : ℕ) → number < 2 ^ 64 → text.now ≡ decimal number → result ≡ Ok number }

    ensures not_decimal { IsErrOf result NumeralFault.NotDecimal → ¬ (IsNumeral text.now) }
    ensures too_large { IsErrOf result NumeralFault.TooLarge
        → IsNumeral text.now × (2 ^ 64 ≤ numeral_value text.now) }
{
    if !is_numeral(text) {
        return Err(NumeralFault::NotDecimal);
    }
    let Ok(digits) = from_utf8(text) else {
        return Err(NumeralFault::NotDecimal);
    };
    match digits.parse::<u64>() {
        Ok(number) => Ok(number),
        Err(_) => Err(NumeralFault::TooLarge),
    }
}

/// Puts the decimal digits of a number, without a leading zero, at the end of a text.
pub fn append_numeral(text: &mut Bytes, number: u64) -> Result<(), AllocError>
    ensures ok { OnOk result (text.new ≡ text.old ++ decimal number) }
    ensures err { OnErr result (text.new ≡ text.old) }
{
    let mut digits = itoa::Buffer::new();
    text.append(digits.format(number).as_bytes())
}

/// The decimal digits of a number, without a leading zero.
pub fn print_numeral(alloc: Global, number: u64) -> Result<Bytes, AllocError>
    ensures { IfOk result (λ text. text ≡ decimal number) }
{
    let mut text = Bytes::new(alloc);
    append_numeral(&mut text, number)?;
    Ok(text)
}
