//! A gateway's run over a script, and what is written of it. It knows sinks by their trait alone.

ghost use Rattle.std.specs.{Prelude.{◌≡◌, ◌≤◌, [], ◌∷◌, ◌++◌, OnOk, OnErr, IsErrOf}, Io.KnownBytes.{Appends}};
ghost use Rattle.amt_ports.specs.Causes.{Rose};
ghost use Rattle.gateway_machine.specs.{Events.{IsEventOf}, Runs.{After, GatewayAt, answer_after, settings_of}};
ghost use Rattle.script_lines.specs.{Counting.{CountsWrites}, Writing.{WritesPrefix, WritesUpTo}};
ghost use Rattle.gateway_script.specs.{Running.{IsRunnable}, Texts.{answer_text, gateway_script_text}};

use crate::script::GatewayScript;
use crate::text::append_gateway_step;
use amt_ports::Sink;
use amt_values::Bytes;
use gateway_machine::{Gateway, GatewayEvent};
use script_lines::{RunFault, ScriptRun, run_script, write_where_full};
use std::alloc::Global;

// What is written of an event goes on to where what is held follows it.
fn write_step<O: Sink>(
    alloc: Global,
    gateway: &mut Gateway,
    number: u64,
    event: &GatewayEvent,
    held: &mut Bytes,
    out: &mut O,
) -> Result<(), RunFault>
    requires { IsEventOf (settings_of gateway.old) event.now }
    ensures done { After gateway.old (λ settings first events.
        OnOk result (WritesUpTo (O.written out.old) (O.written out.new)
        (held.old ++ answer_text number (answer_after settings first events event.now)) held.new)) }
    ensures begun { After gateway.old (λ settings first events.
        OnErr result (WritesPrefix (O.written out.old) (O.written out.new)
        (held.old ++ answer_text number (answer_after settings first events event.now)))) }
    ensures next { After gateway.old (λ settings first events.
        OnOk result (GatewayAt gateway.new settings first (events ++ event.now ∷ []))) }
    ensures settings { settings_of gateway.new ≡ settings_of gateway.old }

    ensures counts { CountsWrites (O.faults out.old) (O.faults out.new) result }
{
    let Ok(step) = gateway.step(alloc, event) else {
        return Err(RunFault::Memory);
    };
    let Ok(()) = append_gateway_step(alloc, held, number, &step) else {
        return Err(RunFault::Memory);
    };
    write_where_full(held, out)
}

// A gateway that takes the events of its script.
#[derive(Drop)]
struct GatewayRun {
    gateway: Gateway,
}

impl ScriptRun for GatewayRun {
    ghost use Rattle.gateway_machine.specs.Events.{IsEventOf};
    ghost use Rattle.gateway_script.specs.{Running.{IsGatewayAfter}, Texts.{GatewayStart, text_after}};

    type Item = GatewayEvent;

    ghost Start = { GatewayStart };

    ghost IsAfter = { λ run start before. IsGatewayAfter run.gateway start before };

    ghost MayCome = { λ start event. IsEventOf start.settings event };

    ghost text_of = { λ start before number event. text_after start before number event };

    fn write_item<O: Sink>(
        &mut self,
        alloc: Global,
        number: u64,
        event: &GatewayEvent,
        held: &mut Bytes,
        out: &mut O,
    ) -> Result<(), RunFault> {
        write_step(alloc, &mut self.gateway, number, event, held, out)
    }
}

/// Runs a gateway over a script, and writes the text of its steps.
pub fn run_gateway_script<O: Sink>(
    alloc: Global,
    script: &GatewayScript,
    out: &mut O,
) -> Result<(), RunFault>
    requires { IsRunnable script.now }
    ensures done { OnOk result (Appends (O.written out.old) (O.written out.new)
        (gateway_script_text script.now)) }
    ensures begun { OnErr result (WritesPrefix (O.written out.old) (O.written out.new)
        (gateway_script_text script.now)) }

    ensures later { O.faults out.old ≤ O.faults out.new }
    ensures write { IsErrOf result RunFault.Write → Rose (O.faults out.old) (O.faults out.new) }
    ensures quiet { ¬ IsErrOf result RunFault.Write → O.faults out.new ≡ O.faults out.old }
{
    let Ok(gateway) = Gateway::new(alloc, script.settings, script.nonce) else {
        return Err(RunFault::Memory);
    };
    run_script(alloc, GatewayRun { gateway }, script.items.as_slice(), out)
}
