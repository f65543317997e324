//! The line with which the report of a run begins. It knows no count.
ghost use Rattle.std.specs.Prelude.{◌≡◌, IfOk};
ghost use Rattle.serving_commands.specs.Texts.{IsDone, end_text, end_word};

use amt_ports::End;
use amt_values::Bytes;
use std::alloc::{AllocError, Global};

fn end_word(end: End) -> &'static str
    requires done { IsDone end }
    ensures { result.now ≡ end_word end }
{
    match end {
        End::Turns => "turns",
        _ => "closed",
    }
}

/// The line of the end of a run.
pub fn end_text(alloc: Global, end: End) -> Result<Bytes, AllocError>
    requires done { IsDone end }
    ensures { IfOk result (λ text. text ≡ end_text end) }
{
    let mut text = Bytes::copied(alloc, b"end ")?;
    text.append(end_word(end).as_bytes())?;
    text.append(b"\n")?;
    Ok(text)
}
