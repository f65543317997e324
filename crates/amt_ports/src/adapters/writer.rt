//! A std writer as a sink.

ghost use Rattle.std.specs.{Prelude.{◌≡◌, ◌≢◌, ◌<◌, length, IfOk, IfErr, OnOk, OnErr}, Io.{WritesAtMost, KnownBytes.{WriteAppends}}, IoError.{error_kind}};
ghost use Rattle.amt_ports.specs.Causes.{HasCause, next_count};

use crate::adapters::adapted::Adapted;
use crate::fault::count_fault;
use crate::{Failed, Sink};
use std::io::{self, ErrorKind, Write};

/// A std writer as a sink. It tells what the writer tells, and never flushes.
pub type WriterSink<W> = Adapted<W>;

impl<W: Write + Drop> Sink for Adapted<W> {
    ghost written = { λ s. W.contents s.device };

    ghost faults = { λ s. s.faults };

    /// A write that takes nothing of a piece that is not empty is a fault: it could go on for ever.
    fn write(&mut self, piece: &[u8]) -> Result<usize, Failed>
        ensures bound { WritesAtMost result piece.now }
        ensures some { IfOk result (λ n. 0 < length piece.now → 0 < n) }
        ensures bytes { WriteAppends (W.contents self.old.device) (W.contents self.new.device)
            result piece.now }
        ensures cause { HasCause self.old.faults self.new.faults result }

        ensures ok { OnOk result (self.new.faults ≡ self.old.faults) }
        ensures err { OnErr result (self.new.faults ≡ next_count self.old.faults) }
    {
        match write_uninterrupted(&mut self.device, piece) {
            Ok(count) if count > 0 || piece.is_empty() => Ok(count),
            _ => Err(count_fault(&mut self.faults)),
        }
    }
}

// A signal that interrupts a write says nothing about the writer, so the write is asked again.
fn write_uninterrupted<W: Write>(writer: &mut W, piece: &[u8]) -> io::Result<usize>
    ensures bound { WritesAtMost result piece.now }
    ensures bytes { WriteAppends (W.contents writer.old) (W.contents writer.new) result piece.now }
    ensures retried { IfErr result (λ error. error_kind error ≢ ErrorKind.Interrupted) }
{
    for _ in 0..u64::MAX {
        match writer.write(piece) {
            Ok(count) => return Ok(count),
            Err(error) => {
                if error.kind() != ErrorKind::Interrupted {
                    return Err(error);
                }
            }
        }
    }
    // No process lives so long.
    Err(io::Error::from(ErrorKind::TimedOut))
}
