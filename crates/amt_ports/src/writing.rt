//! Writing all of a text.

ghost use Rattle.std.specs.{Prelude.{◌<◌, ℕ, length, take, OnOk, OnErr}, Io.KnownBytes.{Appends}};
ghost use Rattle.amt_ports.specs.Causes.{HasCause};

use crate::Sink;

/// The sink failed before all was written.
#[derive(Clone, Copy, Debug, PartialEq, Eq)]
pub struct WriteFault;

/// Writes all of the bytes, in as many calls as the sink needs. It takes no memory.
pub fn write_all_own<O: Sink>(sink: &mut O, bytes: &[u8]) -> Result<(), WriteFault>
    ensures all { OnOk result (Appends (O.written sink.old) (O.written sink.new) bytes.now) }
    ensures prefix { OnErr result ((n : ℕ) × (n < length bytes.now)
        × Appends (O.written sink.old) (O.written sink.new) (take n bytes.now)) }
    ensures cause { HasCause (O.faults sink.old) (O.faults sink.new) result }
{
    let mut rest = bytes;
    while !rest.is_empty() {
        let Ok(count) = sink.write(rest) else {
            return Err(WriteFault);
        };
        let (_, unwritten) = rest.split_at(count);
        rest = unwritten;
    }
    Ok(())
}
