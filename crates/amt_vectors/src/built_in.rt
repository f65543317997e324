//! The rows that every run begins with. It knows no answer.

ghost use Rattle.std.specs.Prelude.{◌≡◌, ◌≤◌, length, All, IfOk};
ghost use Rattle.script_lines.specs.Script.{Spells};
ghost use Rattle.amt_vectors.specs.{BuiltIn.{built_in_text}, Kind.{vector_kind}, Reading.{CanAsk}};

use crate::reading::read_rows;
use crate::row::Rows;
use script_lines::ScriptError;
use std::alloc::{AllocError, Global};

const BUILT_IN: &str = "\
hmac 0b0b0b0b0b0b0b0b0b0b0b0b0b0b0b0b0b0b0b0b 4869205468657265 b0344c61d8db38535ca8afceaf0bf12b881dc200c9833da726e9376c2e32cff7
hmac 4a656665 7768617420646f2079612077616e7420666f72206e6f7468696e673f 5bdcc146bf60754e6a042426089575c75a003f089d2739839dec58b964ec3843
sum 46c000240000000001020000c0000201e000000194040000 8211
sum 116400000000000000000000 ee9b
decode 0100000001020304 ok
decode 03000000000000 short 8 7
decode 1300000000000000 version 1
decode 0f kind 15
code4 128 128
code4 255 31744
code6 65535 8387584
ip 2001:0DB8:0:0:1:0:0:1 2001:db8::1:0:0:1
";

fn built_in_octets() -> &'static [u8]
    ensures text { result.now ≡ built_in_text }
    ensures few { length result.now ≤ 1000 }
{
    BUILT_IN.as_bytes()
}

/// The built-in rows.
pub fn built_in_rows(alloc: Global) -> Result<Rows, AllocError>
    ensures found { IfOk result (λ rows. Spells vector_kind rows built_in_text) }
    ensures asks { IfOk result (All CanAsk) }
    ensures few { IfOk result (λ rows. length rows ≤ 1001) }
{
    match read_rows(alloc, built_in_octets()) {
        Ok(rows) => Ok(rows),
        Err(ScriptError::Memory) => Err(AllocError),
        Err(ScriptError::Fault { .. }) => unreachable!(),
    }
}
