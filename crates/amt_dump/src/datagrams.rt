//! Datagrams, read from lines of hexadecimal digits.

ghost use Rattle.std.specs.{Prelude.{◌≤◌, length, IfOk, IfErr}, List.{AllByRecursion}};
ghost use Rattle.script_lines.specs.Script.{Spells, IsErrorOf, RulesOutScripts, HasOneScript, HasOneFault};
ghost use Rattle.amt_dump.specs.Lines.{IsDatagram, dump_kind};

use amt_values::{Bytes, Items};
use script_lines::{
    LineError, OctetsError, Reason, ScriptError, ScriptKind, next_field, read_octets, read_script,
};
use std::alloc::Global;

/// Datagrams, in the order of their lines.
pub type Datagrams = Items<Bytes>;

/// The datagrams that lines have said so far.
#[derive(Debug, Drop)]
struct DumpLines {
    datagrams: Datagrams,
}

impl ScriptKind for DumpLines {
    ghost use Rattle.std.specs.Prelude.{◌≡◌, List, ℕ};
    ghost use Rattle.amt_dump.specs.Lines.{dump_kind};

    type Script = Datagrams;

    ghost Statement = { List ℕ };

    ghost kind = { dump_kind };

    ghost HasHeard = { λ lines said. lines.datagrams ≡ said };

    fn start(alloc: Global) -> Self {
        DumpLines {
            datagrams: Datagrams::new(alloc),
        }
    }

    fn take(&mut self, alloc: Global, first: &[u8], rest: &[u8]) -> Result<(), LineError> {
        match next_field(rest) {
            None => {}
            Some(_) => return Err(LineError::Bad(Reason::Count)),
        }
        let datagram = match read_octets(alloc, first) {
            Ok(octets) => octets,
            Err(OctetsError::NotHex) => return Err(LineError::Bad(Reason::Hex)),
            Err(OctetsError::Memory) => return Err(LineError::Memory),
        };
        match self.datagrams.push(datagram) {
            Ok(()) => Ok(()),
            Err(_) => Err(LineError::Memory),
        }
    }

    fn finish(self) -> Result<Datagrams, Reason> {
        Ok(self.datagrams)
    }
}

/// Reads lines of hexadecimal digits, of at most 16,777,216 octets, as datagrams.
pub fn read_datagrams(alloc: Global, bytes: &[u8]) -> Result<Datagrams, ScriptError>
    requires { length bytes.now ≤ 16777216 }
    ensures found { IfOk result (λ datagrams. Spells dump_kind datagrams bytes.now) }
    ensures sized { IfOk result (λ datagrams. AllByRecursion IsDatagram datagrams) }
    ensures fault { IfErr result (IsErrorOf dump_kind bytes.now) }
    ensures none { IfErr result (RulesOutScripts dump_kind bytes.now) }
    ensures one_script { HasOneScript dump_kind }
    ensures one_fault { HasOneFault dump_kind }
{
    read_script::<DumpLines>(alloc, bytes)
}
