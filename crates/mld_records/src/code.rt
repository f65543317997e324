//! The codes of times of MLDv2.

ghost use Rattle.std.specs.Prelude.{◌≡◌, ◌<◌, ℕ, IfSome, Some};
ghost use Rattle.mld_records.specs.Code.{code_value};

use group_records::{Family, code_value, value_code};

/// What a code of 16 bits stands for: the maximum response delay in milliseconds (RFC 3810, section
/// 5.1.3).
pub fn code_value6(code: u16) -> u32
    ensures { result ≡ code_value code }
{
    code_value(Family::V6, code)
}

/// The code of a value; none where no code stands for it, as for 32769.
pub fn value_code6(value: u32) -> Option<u16>
    ensures found { IfSome result (λ code. code_value code ≡ value) }
    ensures only { (code : ℕ) → code < 65536 → code_value code ≡ value → result ≡ Some code }
{
    value_code(Family::V6, value)
}
