//! What a command makes of its input: it is read, judged, and a text of it is written. It knows no device.

ghost use Rattle.std.specs.{Prelude.{◌≡◌, ◌≤◌, length, OnOk, OnErr, IfOk, IfErr, IsErrOf}, Io.KnownBytes.{Appends}};
ghost use Rattle.amt_ports.specs.Causes.{Rose};
ghost use Rattle.script_lines.specs.Writing.{WritesPrefix};
ghost use Rattle.amt_command.specs.Task.{IsErrorBy, Task};

use amt_ports::Sink;
use amt_values::Bytes;
use script_lines::RunFault;
use std::alloc::{AllocError, Global};

/// Why the input isn't read as what a command reads.
#[derive(Debug, Drop)]
pub enum TaskFault {
    /// What the line on standard error says after `amt: `.
    Fault(Bytes),
    Memory,
}

/// A command that reads its input.
pub trait HasTask {
    /// What the input is read as.
    type Value: Drop;

    ghost task: { Self → Task Self.Value };

    /// What reading says of a value, and writing needs.
    ghost CanWrite: { Self.Value → Type 0 };

    fn read(&self, alloc: Global, bytes: &[u8]) -> Result<Self::Value, TaskFault>
        requires { length bytes.now ≤ 16777216 }
        ensures found { IfOk result (λ value. (task self.now).Reads value bytes.now) }
        ensures writes { IfOk result (λ value. CanWrite value) }
        ensures fault { IfErr result (IsErrorBy (task self.now) bytes.now) };

    /// What is told in place of the text, where the value isn't as it should be.
    fn difference(&self, alloc: Global, value: &Self::Value) -> Result<Option<Bytes>, AllocError>
        ensures { IfOk result (λ difference. difference ≡ (task self.now).difference value.now) };

    fn write<O: Sink>(
        &self,
        alloc: Global,
        value: &Self::Value,
        out: &mut O,
    ) -> Result<(), RunFault>
        requires { CanWrite value.now }
        ensures done { OnOk result (Appends (O.written out.old) (O.written out.new) ((task self.now).text value.now)) }
        ensures begun { OnErr result (WritesPrefix (O.written out.old) (O.written out.new) ((task self.now).text value.now)) }
        ensures write { IsErrOf result RunFault.Write → Rose (O.faults out.old) (O.faults out.new) }
        ensures quiet { ¬ IsErrOf result RunFault.Write → O.faults out.new ≡ O.faults out.old };
}
