//! Files that are read whole.
ghost use Rattle.std.specs.Prelude.{◌≡◌, ◌<◌, ◌≤◌, ℕ, List, Option, length, IfOk, IfErr, IsErrOf};
ghost use Rattle.amt_ports.specs.{Causes.{Rose}, Contents.{IsContent, IsLonger}};

use amt_values::{Bytes, INPUT_LIMIT};
use std::alloc::Global;

/// Why a file was not read.
#[derive(Clone, Copy, Debug, PartialEq, Eq)]
pub enum FileFault {
    /// The file isn't there or can't be read.
    Failed,
    /// The file has more octets than an input may have: so many at least.
    TooLong(u64),
    /// Memory was refused.
    Memory,
}

/// A place where files are read by their names.
pub trait Files {
    /// The octets of the file with this name, where the device tells them and has one.
    ghost contents: { Self → List ℕ → Option (List ℕ) };

    /// The device tells that it has no file of this name.
    ghost lacks: { Self → List ℕ → Type 0 };

    /// How often the device has failed. A count at 2^64 - 1 stays there.
    ghost faults: { Self → ℕ };

    /// All octets of the file with this name.
    fn read_file(&mut self, alloc: Global, name: &str) -> Result<Bytes, FileFault>
        ensures whole { IfOk result (IsContent (contents self.old name.now)) }
        ensures short { IfOk result (λ bytes. length bytes ≤ INPUT_LIMIT) }
        ensures long { IfErr result (IsLonger (contents self.old name.now)) }
        ensures same { (other : List ℕ) → contents self.new other ≡ contents self.old other }
        ensures absent { lacks self.old name.now → IsErrOf result FileFault.Failed }

        ensures later { faults self.old ≤ faults self.new }
        ensures failed { IsErrOf result FileFault.Failed → Rose (faults self.old) (faults self.new) }
        ensures quiet { ¬ IsErrOf result FileFault.Failed → faults self.new ≡ faults self.old };
}
