//! Scripts of a pair as a kind of script. It knows no line of theirs.

ghost use Rattle.std.specs.Prelude.{◌≤◌, length, IfOk, IfErr};
ghost use Rattle.script_lines.specs.Script.{IsErrorOf, RulesOutScripts, HasOneScript, HasOneFault};
ghost use Rattle.pair_script.specs.{Running.{IsRunnable}, Script.{IsPairScript, pair_kind}};

use crate::line::read_statement;
use crate::script::{PairGateways, PairItems, PairScript};
use crate::statement::PairStatement;
use amt_script::{Setting, settle};
use script_lines::{LineError, Reason, ScriptError, ScriptKind, read_script};
use std::alloc::Global;

/// What the lines of a pair's script have said so far.
#[derive(Debug, Drop)]
struct PairLines {
    given: Vec<Setting>,
    gateways: PairGateways,
    items: PairItems,
}

impl ScriptKind for PairLines {
    ghost use Rattle.pair_script.specs.{Reading.{AreThose}, declared.statement.PairStatement.{PairStatement as StatementValue}};

    type Script = PairScript;

    ghost Statement = { StatementValue };

    ghost kind = { pair_kind };

    ghost HasHeard = { λ lines said. AreThose lines.given.items lines.gateways lines.items said };

    fn start(alloc: Global) -> Self {
        PairLines {
            given: Vec::new(alloc),
            gateways: PairGateways::new(alloc),
            items: PairItems::new(alloc),
        }
    }

    fn take(&mut self, alloc: Global, first: &[u8], rest: &[u8]) -> Result<(), LineError> {
        match read_statement(
            alloc,
            self.given.as_slice(),
            self.gateways.as_slice(),
            self.items.as_slice(),
            first,
            rest,
        ) {
            Ok(PairStatement::Setting(setting)) => match self.given.push(setting) {
                Ok(()) => Ok(()),
                Err(_) => Err(LineError::Memory),
            },
            Ok(PairStatement::Gateway(gateway)) => match self.gateways.push(gateway) {
                Ok(()) => Ok(()),
                Err(_) => Err(LineError::Memory),
            },
            Ok(PairStatement::Item(item)) => match self.items.push(item) {
                Ok(()) => Ok(()),
                Err(_) => Err(LineError::Memory),
            },
            Err(error) => Err(error),
        }
    }

    fn finish(self) -> Result<PairScript, Reason> {
        let Some(settled) = settle(self.given.as_slice()) else {
            return Err(Reason::Missing);
        };
        if !settled.settings.lawful() {
            return Err(Reason::Range);
        }
        Ok(PairScript {
            settings: settled.settings,
            secret: settled.secret,
            gateways: self.gateways,
            items: self.items,
        })
    }
}

/// Reads a script of a pair, of at most 16,777,216 octets.
pub fn read_pair_script(alloc: Global, bytes: &[u8]) -> Result<PairScript, ScriptError>
    requires { length bytes.now ≤ 16777216 }
    ensures found { IfOk result (λ script. IsPairScript script bytes.now) }
    ensures runs { IfOk result IsRunnable }
    ensures fault { IfErr result (IsErrorOf pair_kind bytes.now) }
    ensures none { IfErr result (RulesOutScripts pair_kind bytes.now) }

    // The octets alone decide which script is read, or which line and reason are reported.
    ensures one_script { HasOneScript pair_kind }
    ensures one_fault { HasOneFault pair_kind }
{
    read_script::<PairLines>(alloc, bytes)
}
