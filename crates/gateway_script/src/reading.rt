//! Gateway scripts as a kind of script. It knows no line of theirs.

ghost use Rattle.std.specs.Prelude.{◌≤◌, length, IfOk, IfErr};
ghost use Rattle.script_lines.specs.Script.{IsErrorOf, RulesOutScripts, HasOneScript, HasOneFault};
ghost use Rattle.gateway_script.specs.{Running.{IsRunnable}, Script.{IsGatewayScript, gateway_kind}};

use crate::line::{GatewayStatement, read_statement};
use crate::script::{GatewayItems, GatewayScript};
use crate::setting::Setting;
use crate::settling::settle;
use script_lines::{LineError, Reason, ScriptError, ScriptKind, read_script};
use std::alloc::Global;

/// What the lines of a gateway's script have said so far.
#[derive(Debug, Drop)]
struct GatewayLines {
    given: Vec<Setting>,
    items: GatewayItems,
}

impl ScriptKind for GatewayLines {
    ghost use Rattle.gateway_script.specs.{Reading.{AreThose}, declared.line.GatewayStatement.{GatewayStatement as StatementValue}};

    type Script = GatewayScript;

    ghost Statement = { StatementValue };

    ghost kind = { gateway_kind };

    ghost HasHeard = { λ lines said. AreThose lines.given.items lines.items said };

    fn start(alloc: Global) -> Self {
        GatewayLines {
            given: Vec::new(alloc),
            items: GatewayItems::new(alloc),
        }
    }

    fn take(&mut self, alloc: Global, first: &[u8], rest: &[u8]) -> Result<(), LineError> {
        match read_statement(
            alloc,
            self.given.as_slice(),
            self.items.as_slice(),
            first,
            rest,
        ) {
            Ok(GatewayStatement::Setting(setting)) => match self.given.push(setting) {
                Ok(()) => Ok(()),
                Err(_) => Err(LineError::Memory),
            },
            Ok(GatewayStatement::Event(event)) => match self.items.push(event) {
                Ok(()) => Ok(()),
                Err(_) => Err(LineError::Memory),
            },
            Err(error) => Err(error),
        }
    }

    fn finish(self) -> Result<GatewayScript, Reason> {
        let Some(settled) = settle(self.given.as_slice()) else {
            return Err(Reason::Missing);
        };
        if !settled.settings.lawful() {
            return Err(Reason::Range);
        }
        Ok(GatewayScript {
            settings: settled.settings,
            nonce: settled.nonce,
            items: self.items,
        })
    }
}

/// Reads a gateway's script, of at most 16,777,216 octets.
pub fn read_gateway_script(alloc: Global, bytes: &[u8]) -> Result<GatewayScript, ScriptError>
    requires { length bytes.now ≤ 16777216 }
    ensures found { IfOk result (λ script. IsGatewayScript script bytes.now) }
    ensures runs { IfOk result IsRunnable }
    ensures fault { IfErr result (IsErrorOf gateway_kind bytes.now) }
    ensures none { IfErr result (RulesOutScripts gateway_kind bytes.now) }

    // The octets alone decide which script is read, or which line and reason are reported.
    ensures one_script { HasOneScript gateway_kind }
    ensures one_fault { HasOneFault gateway_kind }
{
    read_script::<GatewayLines>(alloc, bytes)
}
