//! Text that is held back until there is much of it. It knows sinks by their trait alone.

ghost use Rattle.std.specs.{Prelude.{◌≡◌, ◌<◌, [], length, OnOk, OnErr, IfErr}, Io.KnownBytes.{Appends}};
ghost use Rattle.script_lines.specs.{declared.held.TheConstants.{HELD_SIZE}, Counting.{CountsWrites}, Writing.{WritesPrefix, WritesUpTo}};

use crate::fault::RunFault;
use amt_ports::{Sink, write_all_own};
use amt_values::Bytes;

/// From how many octets on held text is written. Each write is a call of the system, so they are many.
pub const HELD_SIZE: usize = 65_536;

/// Writes all that is held, and holds nothing then. A sink that fails leaves it held.
pub fn write_held<O: Sink>(held: &mut Bytes, out: &mut O) -> Result<(), RunFault>
    ensures done { OnOk result (Appends (O.written out.old) (O.written out.new) held.old) }
    ensures none { OnOk result (held.new ≡ []) }
    ensures begun { OnErr result (WritesPrefix (O.written out.old) (O.written out.new) held.old) }
    ensures kept { OnErr result (held.new ≡ held.old) }

    ensures fault { IfErr result (λ fault. fault ≡ RunFault.Write) }
    ensures counts { CountsWrites (O.faults out.old) (O.faults out.new) result }
{
    match write_all_own(out, held.as_slice()) {
        Ok(()) => {
            held.clear();
            Ok(())
        }
        Err(_) => Err(RunFault::Write),
    }
}

/// Writes what is held where it is `HELD_SIZE` octets or more. A sink that fails leaves it held.
pub fn write_where_full<O: Sink>(held: &mut Bytes, out: &mut O) -> Result<(), RunFault>
    ensures done { OnOk result (WritesUpTo (O.written out.old) (O.written out.new) held.old held.new) }
    ensures little { OnOk result (length held.new < HELD_SIZE) }
    ensures begun { OnErr result (WritesPrefix (O.written out.old) (O.written out.new) held.old) }
    ensures kept { OnErr result (held.new ≡ held.old) }

    ensures fault { IfErr result (λ fault. fault ≡ RunFault.Write) }
    ensures counts { CountsWrites (O.faults out.old) (O.faults out.new) result }
{
    if held.len() < HELD_SIZE {
        return Ok(());
    }
    match write_held(held, out) {
        Ok(()) => Ok(()),
        Err(fault) => Err(fault),
    }
}
