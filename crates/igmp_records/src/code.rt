//! The codes of times of IGMPv3.

ghost use Rattle.std.specs.Prelude.{◌≡◌, ◌<◌, ℕ, IfSome, Some};
ghost use Rattle.igmp_records.specs.Code.{code_value};

use group_records::{Family, code_value, value_code};

/// What a code of 8 bits stands for: the maximum response time in tenths of a second, or the query
/// interval in seconds (RFC 3376, sections 4.1.1 and 4.1.7).
pub fn code_value4(code: u8) -> u32
    ensures { result ≡ code_value code }
{
    code_value(Family::V4, u16::from(code))
}

/// The code of a value; none where no code stands for it, as for 129.
pub fn value_code4(value: u32) -> Option<u8>
    ensures found { IfSome result (λ code. code_value code ≡ value) }
    ensures only { (code : ℕ) → code < 256 → code_value code ≡ value → result ≡ Some code }
{
    match value_code(Family::V4, value) {
        Some(code) => Some(code as u8),
        None => None,
    }
}
