//! What a running gateway reads a line of its control as.
ghost use Rattle.std.specs.Prelude.{◌≡◌, ℕ, List};
ghost use Rattle.control_lines.specs.{AskingGateways.{AsksGateway}, declared.asking_gateway.GatewayAsking.{GatewayAsking as AskingValue}};
ghost use Rattle.gateway_machine.specs.declared.event.GatewayEvent.{GatewayEvent as EventValue};
ghost use Rattle.gateway_script.specs.SocketLine.{IsSocketLine};
ghost use Rattle.group_records.specs.declared.family.Family.{Family as FamilyValue};
ghost use Rattle.gateway_machine.specs.declared.settings.GatewaySettings.{GatewaySettings as SettingsValue};
ghost use Rattle.gateway_serving.specs.{Answering.{MayHappen, line_by}, Turns.{MayBecome}};
ghost use Rattle.socket_merge.specs.FullReport.{family_by};

use control_lines::{GatewayAsking, begins_asking, read_gateway_asking};
use gateway_machine::GatewayEvent;
use gateway_script::{ScriptError, read_socket_line};
use script_lines::Reason;
use std::alloc::Global;

/// What a line is.
#[derive(Drop)]
pub(crate) enum Reading {
    /// It makes this socket call.
    Call(GatewayEvent),
    /// It asks for this.
    Asking(GatewayAsking),
    /// It is bad for this reason.
    Bad(Reason),
    /// Memory refused to read it.
    Starved,
}

/// Reads a line to a gateway of the family. One that begins as a line that asks for something takes no memory.
pub(crate) fn read_line(alloc: Global, v6: bool, line: &[u8]) -> Reading
    ensures is { MayBecome (family_by v6) line.now (line_by result) }
    ensures may { (settings : SettingsValue) → settings.v6 ≡ v6 → MayHappen settings result }
{
    if begins_asking(line) {
        return match read_gateway_asking(line) {
            Ok(asking) => Reading::Asking(asking),
            Err(reason) => Reading::Bad(reason),
        };
    }
    match read_socket_line(alloc, v6, line) {
        Ok(event) => Reading::Call(event),
        Err(ScriptError::Memory) => Reading::Starved,
        Err(ScriptError::Fault { line: _, reason }) => Reading::Bad(reason),
    }
}

/// No line both makes a socket call and asks for something. It does nothing when it runs.
pub fn no_line_calls_and_asks()
    ensures { (family : FamilyValue) (event : EventValue) (asking : AskingValue) (octets : List ℕ)
        → IsSocketLine family event octets → AsksGateway asking octets → ⊥ }
{}
