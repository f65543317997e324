//! Where random numbers come from.
ghost use Rattle.std.specs.Prelude.{◌≡◌, ℕ, List, Option, IfOk, OnErr};
ghost use Rattle.amt_ports.specs.{Causes.{HasCause}, Told.{Appends}};

use crate::Failed;

/// A source of random words.
pub trait Words {
    /// The words that it gave so far, in order, where the device tells them.
    ghost given: { Self → Option (List ℕ) };

    /// How often the device has failed. A count at 2^64 - 1 stays there.
    ghost faults: { Self → ℕ };

    /// Draws a word of 64 bits.
    fn word(&mut self) -> Result<u64, Failed>
        ensures given { IfOk result (Appends (given self.old) (given self.new)) }
        ensures kept { OnErr result (given self.new ≡ given self.old) }
        ensures cause { HasCause (faults self.old) (faults self.new) result };
}
