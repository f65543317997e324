//! Relay scripts as a kind of script. It knows no line of theirs.

ghost use Rattle.std.specs.Prelude.{◌≤◌, length, IfOk, IfErr};
ghost use Rattle.script_lines.specs.Script.{IsErrorOf, RulesOutScripts, HasOneScript, HasOneFault};
ghost use Rattle.amt_script.specs.{Running.{IsRunnable}, Script.{IsRelayScript, relay_kind}};

use crate::line::{RelayStatement, read_statement};
use crate::script::{RelayItems, RelayScript};
use crate::setting::Setting;
use crate::settling::settle;
use script_lines::{LineError, Reason, ScriptError, ScriptKind, read_script};
use std::alloc::Global;

/// What the lines of a relay's script have said so far.
#[derive(Debug, Drop)]
struct RelayLines {
    given: Vec<Setting>,
    items: RelayItems,
}

impl ScriptKind for RelayLines {
    ghost use Rattle.amt_script.specs.{Reading.{AreThose}, declared.line.RelayStatement.{RelayStatement as StatementValue}};

    type Script = RelayScript;

    ghost Statement = { StatementValue };

    ghost kind = { relay_kind };

    ghost HasHeard = { λ lines said. AreThose lines.given.items lines.items said };

    fn start(alloc: Global) -> Self {
        RelayLines {
            given: Vec::new(alloc),
            items: RelayItems::new(alloc),
        }
    }

    fn take(&mut self, alloc: Global, first: &[u8], rest: &[u8]) -> Result<(), LineError> {
        match read_statement(
            alloc,
            self.given.as_slice(),
            self.items.as_slice(),
            first,
            rest,
        ) {
            Ok(RelayStatement::Setting(setting)) => match self.given.push(setting) {
                Ok(()) => Ok(()),
                Err(_) => Err(LineError::Memory),
            },
            Ok(RelayStatement::Item(item)) => match self.items.push(item) {
                Ok(()) => Ok(()),
                Err(_) => Err(LineError::Memory),
            },
            Err(error) => Err(error),
        }
    }

    fn finish(self) -> Result<RelayScript, Reason> {
        let Some(settled) = settle(self.given.as_slice()) else {
            return Err(Reason::Missing);
        };
        if !settled.settings.lawful() {
            return Err(Reason::Range);
        }
        Ok(RelayScript {
            settings: settled.settings,
            secret: settled.secret,
            items: self.items,
        })
    }
}

/// Reads a relay's script, of at most 16,777,216 octets.
pub fn read_relay_script(alloc: Global, bytes: &[u8]) -> Result<RelayScript, ScriptError>
    requires { length bytes.now ≤ 16777216 }
    ensures found { IfOk result (λ script. IsRelayScript script bytes.now) }
    ensures runs { IfOk result IsRunnable }
    ensures fault { IfErr result (IsErrorOf relay_kind bytes.now) }
    ensures none { IfErr result (RulesOutScripts relay_kind bytes.now) }

    // The octets alone decide which script is read, or which line and reason are reported.
    ensures one_script { HasOneScript relay_kind }
    ensures one_fault { HasOneFault relay_kind }
{
    read_script::<RelayLines>(alloc, bytes)
}
