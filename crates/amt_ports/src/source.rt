//! What is read from.

ghost use Rattle.std.specs.{Prelude.{ℕ, List, Option}, Io.{ReadsAtMost, KnownBytes.{ReadConsumes}}};
ghost use Rattle.amt_ports.specs.Causes.{HasCause};

use crate::Failed;

/// A place that bytes are read from, in order and once.
pub trait Source {
    /// The bytes that reads will give from here on, where the device tells them.
    ghost left: { Self → Option (List ℕ) };

    /// How often the device has failed. A count at 2^64 - 1 stays there.
    ghost faults: { Self → ℕ };

    /// Reads the next bytes into the buffer's start. 0 for a buffer that is not empty is the
    /// end of input. A read that failed has taken nothing.
    fn read(&mut self, buf: &mut [u8]) -> Result<usize, Failed>
        ensures bound { ReadsAtMost result buf.new }
        ensures bytes { ReadConsumes (left self.old) (left self.new) result buf.new }
        ensures cause { HasCause (faults self.old) (faults self.new) result };
}
