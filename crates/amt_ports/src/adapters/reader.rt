//! A std reader as a source.

ghost use Rattle.std.specs.{Prelude.{◌≡◌, ◌≢◌, IfErr, OnOk, OnErr}, Io.{ReadsAtMost, KnownBytes.{ReadConsumes}}, IoError.{error_kind}};
ghost use Rattle.amt_ports.specs.Causes.{HasCause, next_count};

use crate::adapters::adapted::Adapted;
use crate::fault::count_fault;
use crate::{Failed, Source};
use std::io::{self, ErrorKind, Read};

/// A std reader as a source. It tells what the reader tells, so standard input tells nothing.
pub type ReaderSource<R> = Adapted<R>;

impl<R: Read + Drop> Source for Adapted<R> {
    ghost left = { λ s. R.remaining s.device };

    ghost faults = { λ s. s.faults };

    fn read(&mut self, buf: &mut [u8]) -> Result<usize, Failed>
        ensures bound { ReadsAtMost result buf.new }
        ensures bytes { ReadConsumes (R.remaining self.old.device) (R.remaining self.new.device)
            result buf.new }
        ensures cause { HasCause self.old.faults self.new.faults result }

        ensures ok { OnOk result (self.new.faults ≡ self.old.faults) }
        ensures err { OnErr result (self.new.faults ≡ next_count self.old.faults) }
    {
        match read_uninterrupted(&mut self.device, buf) {
            Ok(count) => Ok(count),
            Err(_) => Err(count_fault(&mut self.faults)),
        }
    }
}

// A signal that interrupts a read says nothing about the reader, so the read is asked again.
fn read_uninterrupted<R: Read>(reader: &mut R, buf: &mut [u8]) -> io::Result<usize>
    ensures bound { ReadsAtMost result buf.new }
    ensures bytes { ReadConsumes (R.remaining reader.old) (R.remaining reader.new) result buf.new }
    ensures retried { IfErr result (λ error. error_kind error ≢ ErrorKind.Interrupted) }
{
    for _ in 0..u64::MAX {
        match reader.read(buf) {
            Ok(count) => return Ok(count),
            Err(error) => {
                if error.kind() != ErrorKind::Interrupted {
                    return Err(error);
                }
            }
        }
    }
    // No process lives so long.
    Err(io::Error::from(ErrorKind::TimedOut))
}
