//! The lines of the text.

ghost use Rattle.std.specs.Prelude.{◌≡◌, ◌++◌, codes, decimal, OnOk};

use amt_values::{Bytes, append_numeral};
use std::alloc::AllocError;

/// Puts the number at the end with which a line begins.
pub fn begin_line(text: &mut Bytes, number: u32) -> Result<(), AllocError>
    ensures { OnOk result (text.new ≡ text.old ++ (decimal number ++ codes " ")) }
{
    append_numeral(text, u64::from(number))?;
    text.append(b" ")
}
