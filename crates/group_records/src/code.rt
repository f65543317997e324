//! The codes of times, both ways.

ghost use Rattle.std.specs.Prelude.{◌≡◌, ◌<◌, ◌≤◌, ◌^◌, ℕ, IfSome, Some};
ghost use Rattle.group_records.specs.Code.{code_count, code_value, code_with, mantissa_bits, mantissa_of};

use crate::family::Family;

// How many codes there are.
fn code_count(family: Family) -> u32
    ensures { result ≡ code_count family }
{
    match family {
        Family::V4 => 256,
        Family::V6 => 65536,
    }
}

// How many bits a mantissa has.
fn mantissa_bits(family: Family) -> u32
    ensures value { result ≡ mantissa_bits family }
    ensures most { result ≤ 12 }
{
    match family {
        Family::V4 => 4,
        Family::V6 => 12,
    }
}

// The lower bits of a number, as many as a mantissa has.
fn mantissa_of(family: Family, number: u32) -> u32
    ensures { result ≡ mantissa_of family number }
{
    number & ((1 << mantissa_bits(family)) - 1)
}

// The code of the upper half that has this exponent and this mantissa.
fn code_with(family: Family, exponent: u32, mantissa: u32) -> u16
    requires exponent { exponent < 8 }
    requires mantissa { mantissa < 2 ^ mantissa_bits family }
    ensures value { result ≡ code_with family exponent mantissa }
    ensures of_family { result < code_count family }
{
    ((8 + exponent) << mantissa_bits(family) | mantissa) as u16
}

/// What a code of a time stands for: of 8 bits in IGMP (RFC 3376, sections 4.1.1 and 4.1.7), and of
/// 16 in MLD (RFC 3810, section 5.1.3). The unit is the field's.
pub fn code_value(family: Family, code: u16) -> u32
    requires of_family { code < code_count family }
    ensures { result ≡ code_value family code }
{
    let code = u32::from(code);
    if code < code_count(family) / 2 {
        return code;
    }
    let bits = mantissa_bits(family);
    let exponent = code >> bits & 7;
    (1 << bits | mantissa_of(family, code)) << (exponent + 3)
}

/// The code of a value; none where no code stands for it, as for 129 in IGMP.
pub fn value_code(family: Family, value: u32) -> Option<u16>
    ensures found { IfSome result (λ code. code_value family code ≡ value) }
    ensures of_family { IfSome result (λ code. code < code_count family) }
    ensures only { (code : ℕ) → code < code_count family → code_value family code ≡ value
        → result ≡ Some code }
{
    if value < code_count(family) / 2 {
        return Some(value as u16);
    }
    // A value has at most one code of each exponent: the one with the bits that the shift leaves.
    for exponent in 0..8 {
        let code = code_with(
            family,
            exponent,
            mantissa_of(family, value >> (exponent + 3)),
        );
        if code_value(family, code) == value {
            return Some(code);
        }
    }
    None
}
