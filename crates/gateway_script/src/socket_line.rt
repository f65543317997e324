//! One line that makes a socket call, as whoever controls a gateway gives it. It knows no settings.

ghost use Rattle.std.specs.Prelude.{◌≡◌, ◌≤◌, ◌↔◌, ◌∷◌, true, is_some, length, Some, IfOk, IfErr, IsTrue};
ghost use Rattle.gateway_machine.specs.{Answers.{call_in}, Events.{IsEventOf}, Settings.{family_of}, declared.{settings.GatewaySettings.{GatewaySettings as SettingsValue}, event.GatewayEvent.{GatewayEvent as EventValue}}};
ghost use Rattle.socket_merge.specs.FullReport.{family_by};
ghost use Rattle.gateway_script.specs.{SocketLine.{FailsAsCall, IsSocketError, IsSocketLine, MakesCall, RulesOutCalls, control_line}, Says.{SaysEvent}, Fault.{order_of_values}};
ghost use Rattle.script_lines.specs.{Lines.{fields}, Reading.{FailsFirst}};

use crate::kind::{LineKind, kind_of_line};
use crate::line::read_event;
use gateway_machine::GatewayEvent;
use group_records::Family;
use script_lines::{
    LineError, MOST_OCTETS_OF_A_LINE, Reason, ScriptError, is_plain, next_field,
    without_carriage_return,
};
use std::alloc::Global;

fn control_line(bytes: &[u8]) -> &[u8]
    ensures { result.now ≡ control_line bytes.now }
{
    match bytes {
        [start @ .., b'\n'] => without_carriage_return(start),
        _ => bytes,
    }
}

fn makes_call(kind: LineKind) -> bool
    ensures { IsTrue result ↔ MakesCall kind }
{
    matches!(
        kind,
        LineKind::Open | LineKind::Change | LineKind::Close | LineKind::Leave
    )
}

/// The socket call to a gateway of the family that a plain line makes, by its first field and what follows it.
pub fn read_socket_call(
    alloc: Global,
    family: Family,
    word: &[u8],
    rest: &[u8],
) -> Result<GatewayEvent, LineError>
    requires { length rest.now ≤ 140000 }
    ensures found { IfOk result (λ event. SaysEvent (Some family) event (word.now ∷ fields rest.now)) }
    ensures call { IfOk result (λ event. is_some (call_in event) ≡ true) }
    ensures may { (settings : SettingsValue) → family_of settings ≡ family → IfOk result (IsEventOf settings) }
    ensures reason { IfErr result (FailsFirst (FailsAsCall family (word.now ∷ fields rest.now)) (Reason.Word ∷ order_of_values)) }
{
    let Ok((kind, values)) = kind_of_line(word, rest) else {
        return Err(LineError::Bad(Reason::Word));
    };
    if !makes_call(kind) {
        return Err(LineError::Bad(Reason::Word));
    }
    match read_event(alloc, Some(family), kind, values) {
        Ok(event) => Ok(event),
        Err(error) => Err(error),
    }
}

// The socket call that a plain line makes.
fn read_call(alloc: Global, family: Family, line: &[u8]) -> Result<GatewayEvent, LineError>
    requires { length line.now ≤ 140000 }
    ensures found { IfOk result (λ event. SaysEvent (Some family) event (fields line.now)) }
    ensures call { IfOk result (λ event. is_some (call_in event) ≡ true) }
    ensures may { (settings : SettingsValue) → family_of settings ≡ family → IfOk result (IsEventOf settings) }
    ensures reason { IfErr result (FailsFirst (FailsAsCall family (fields line.now)) (Reason.Word ∷ order_of_values)) }
{
    let Some((word, rest)) = next_field(line) else {
        return Err(LineError::Bad(Reason::Word));
    };
    match read_socket_call(alloc, family, word, rest) {
        Ok(event) => Ok(event),
        Err(error) => Err(error),
    }
}

// The fault of the one line.
fn fault(reason: Reason) -> ScriptError
    ensures { result ≡ ScriptError.Fault 1 reason }
{
    ScriptError::Fault { line: 1, reason }
}

/// Reads one line that makes a socket call to a gateway of the family, with or without its line feed.
pub fn read_socket_line(alloc: Global, v6: bool, line: &[u8]) -> Result<GatewayEvent, ScriptError>
    ensures found { IfOk result (λ event. IsSocketLine (family_by v6) event line.now) }
    ensures may { (settings : SettingsValue) → settings.v6 ≡ v6 → IfOk result (IsEventOf settings) }
    ensures fault { IfErr result (IsSocketError (family_by v6) line.now) }
    ensures none { IfErr result (RulesOutCalls (family_by v6) line.now) }

    // The octets alone decide which call is read.
    ensures one { (event other : EventValue) → IsSocketLine (family_by v6) event line.now
        → IsSocketLine (family_by v6) other line.now → event ≡ other }
{
    let line = control_line(line);
    if line.len() > MOST_OCTETS_OF_A_LINE {
        return Err(fault(Reason::Long));
    }
    if !is_plain(line) {
        return Err(fault(Reason::Word));
    }
    let family = if v6 { Family::V6 } else { Family::V4 };
    match read_call(alloc, family, line) {
        Ok(event) => Ok(event),
        Err(LineError::Bad(reason)) => Err(fault(reason)),
        Err(LineError::Memory) => Err(ScriptError::Memory),
    }
}
