//! Scripts of dual gateways as a kind of script. It knows no line of theirs.

ghost use Rattle.std.specs.{Prelude.{◌≤◌, ◌∷◌, [], length, IfOk, IfErr}, List.{AllByRecursion}};
ghost use Rattle.amt_values.specs.Conditions.{First};
ghost use Rattle.amt_script.specs.{Fault.{FailsAtEnd}, Reading.{IsAllowed}, Settling.{Settles}};
ghost use Rattle.relay_machine.specs.Settings.{AreLawfulSettings};
ghost use Rattle.script_lines.specs.Script.{IsErrorOf, RulesOutScripts, HasOneScript, HasOneFault};
ghost use Rattle.amt_dual_script.specs.{Running.{IsRunnable}, Script.{IsDualScript, dual_kind}};

use crate::line::read_statement;
use crate::script::{DualGateways, DualItems, DualScript};
use crate::statement::DualStatement;
use amt_script::{Setting, Settled, settle};
use script_lines::{LineError, Reason, ScriptError, ScriptKind, read_script};
use std::alloc::Global;

/// What the lines of a script of dual gateways have said so far.
#[derive(Drop)]
struct DualLines {
    given: Vec<Setting>,
    gateways: DualGateways,
    items: DualItems,
}

impl ScriptKind for DualLines {
    ghost use Rattle.amt_dual_script.specs.{Reading.{AreThose}, declared.statement.DualStatement.{DualStatement as StatementValue}};

    type Script = DualScript;

    ghost Statement = { StatementValue };

    ghost kind = { dual_kind };

    ghost HasHeard = { λ lines said. AreThose lines.given.items lines.gateways lines.items said };

    fn start(alloc: Global) -> Self {
        DualLines {
            given: Vec::new(alloc),
            gateways: DualGateways::new(alloc),
            items: DualItems::new(alloc),
        }
    }

    fn take(&mut self, alloc: Global, first: &[u8], rest: &[u8]) -> Result<(), LineError> {
        match read_statement(
            alloc,
            self.given.as_slice(),
            self.gateways.as_slice(),
            self.items.as_slice(),
            first,
            rest,
        ) {
            Ok(DualStatement::Setting(setting)) => match self.given.push(setting) {
                Ok(()) => Ok(()),
                Err(_) => Err(LineError::Memory),
            },
            Ok(DualStatement::Gateway(gateway)) => match self.gateways.push(gateway) {
                Ok(()) => Ok(()),
                Err(_) => Err(LineError::Memory),
            },
            Ok(DualStatement::Item(item)) => match self.items.push(item) {
                Ok(()) => Ok(()),
                Err(_) => Err(LineError::Memory),
            },
            Err(error) => Err(error),
        }
    }

    fn finish(self) -> Result<DualScript, Reason> {
        match settled_of(self.given.as_slice()) {
            Ok(settled) => Ok(DualScript {
                settings: settled.settings,
                secret: settled.secret,
                gateways: self.gateways,
                items: self.items,
            }),
            Err(reason) => Err(reason),
        }
    }
}

// What the settings set, where a relay may be set up with it.
fn settled_of(given: &[Setting]) -> Result<Settled, Reason>
    ensures made { AllByRecursion IsAllowed given.now
        → IfOk result (λ settled. Settles given.now settled.settings settled.secret) }
    ensures lawful { IfOk result (λ settled. AreLawfulSettings settled.settings) }
    ensures bad { AllByRecursion IsAllowed given.now
        → IfErr result (First (FailsAtEnd given.now) (Reason.Missing ∷ Reason.Range ∷ [])) }
{
    let Some(settled) = settle(given) else {
        return Err(Reason::Missing);
    };
    if !settled.settings.lawful() {
        return Err(Reason::Range);
    }
    Ok(settled)
}

/// Reads a script of dual gateways, of at most 16,777,216 octets.
pub fn read_dual_script(alloc: Global, bytes: &[u8]) -> Result<DualScript, ScriptError>
    requires { length bytes.now ≤ 16777216 }
    ensures found { IfOk result (λ script. IsDualScript script bytes.now) }
    ensures runs { IfOk result IsRunnable }
    ensures fault { IfErr result (IsErrorOf dual_kind bytes.now) }
    ensures none { IfErr result (RulesOutScripts dual_kind bytes.now) }

    // The octets alone decide which script is read, or which line and reason are reported.
    ensures one_script { HasOneScript dual_kind }
    ensures one_fault { HasOneFault dual_kind }
{
    read_script::<DualLines>(alloc, bytes)
}
