//! What is written to.

ghost use Rattle.std.specs.{Prelude.{◌<◌, ℕ, List, Option, length, IfOk}, Io.{WritesAtMost, KnownBytes.{WriteAppends}}};
ghost use Rattle.amt_ports.specs.Causes.{HasCause};

use crate::Failed;

/// A place that bytes are written to.
pub trait Sink {
    /// The bytes that were written so far, where the device tells them.
    ghost written: { Self → Option (List ℕ) };

    /// How often the device has failed. A count at 2^64 - 1 stays there.
    ghost faults: { Self → ℕ };

    /// Writes a prefix of the piece, and answers how long it is. It may be shorter than the
    /// piece, so callers go on from there. A write that failed has written nothing.
    fn write(&mut self, piece: &[u8]) -> Result<usize, Failed>
        ensures bound { WritesAtMost result piece.now }
        ensures some { IfOk result (λ n. 0 < length piece.now → 0 < n) }
        ensures bytes { WriteAppends (written self.old) (written self.new) result piece.now }
        ensures cause { HasCause (faults self.old) (faults self.new) result };
}
