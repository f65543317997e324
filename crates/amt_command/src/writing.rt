//! A text is written as it stands. It knows no command.

ghost use Rattle.std.specs.{Prelude.{◌≡◌, OnOk, OnErr, IsErrOf}, Io.KnownBytes.{Appends}};
ghost use Rattle.amt_ports.specs.Causes.{Rose};
ghost use Rattle.script_lines.specs.Writing.{WritesPrefix};

use amt_ports::{Sink, write_all_own};
use script_lines::RunFault;

/// Writes the whole text; it takes no memory.
pub fn write_text<O: Sink>(out: &mut O, text: &[u8]) -> Result<(), RunFault>
    ensures done { OnOk result (Appends (O.written out.old) (O.written out.new) text.now) }
    ensures begun { OnErr result (WritesPrefix (O.written out.old) (O.written out.new) text.now) }
    ensures write { IsErrOf result RunFault.Write → Rose (O.faults out.old) (O.faults out.new) }
    ensures quiet { ¬ IsErrOf result RunFault.Write → O.faults out.new ≡ O.faults out.old }
    ensures memory { IsErrOf result RunFault.Memory → ⊥ }
{
    match write_all_own(out, text) {
        Ok(()) => Ok(()),
        Err(_) => Err(RunFault::Write),
    }
}
