//! A relay's run over a script, and what is written of it. It knows sinks by their trait alone.

ghost use Rattle.std.specs.{Prelude.{◌≡◌, ◌+◌, ◌≤◌, ◌<◌, [], ◌∷◌, ◌++◌, flat_map, OnOk, OnErr, IsErrOf}, Io.KnownBytes.{Appends}};
ghost use Rattle.amt_ports.specs.Causes.{Rose};
ghost use Rattle.relay_machine.specs.{Answers.{After, RelayAt, outcome_of, rows_after, sends_of, settings_of}, EventSize.{IsEvent}};
ghost use Rattle.script_lines.specs.{Counting.{CountsWrites}, Writing.{WritesPrefix, WritesUpTo}};
ghost use Rattle.amt_script.specs.{Running.{IsItem, IsRunnable}, Texts.{events_in, item_text, row_text, rows_text, step_text, relay_script_text}};

use crate::row_text::{append_row, append_row_count};
use crate::script::{RelayItem, RelayScript};
use crate::text::append_relay_step;
use amt_ports::Sink;
use amt_values::Bytes;
use endpoint_membership::Rows;
use relay_machine::{Event, Relay};
use script_lines::{RunFault, ScriptRun, run_script, write_where_full};
use std::alloc::Global;

// What is written of an event goes on to where what is held follows it.
fn write_step<O: Sink>(
    alloc: Global,
    relay: &mut Relay,
    number: u64,
    event: &Event,
    held: &mut Bytes,
    out: &mut O,
) -> Result<(), RunFault>
    requires { IsEvent (settings_of relay.old) event.now }
    ensures done { After relay.old (λ settings first events.
        OnOk result (WritesUpTo (O.written out.old) (O.written out.new)
        (held.old ++ step_text number (outcome_of settings first events event.now)
        (sends_of settings first events event.now)) held.new)) }
    ensures begun { After relay.old (λ settings first events.
        OnErr result (WritesPrefix (O.written out.old) (O.written out.new)
        (held.old ++ step_text number (outcome_of settings first events event.now)
        (sends_of settings first events event.now)))) }
    ensures next { After relay.old (λ settings first events.
        OnOk result (RelayAt relay.new settings first (events ++ event.now ∷ []))) }

    ensures counts { CountsWrites (O.faults out.old) (O.faults out.new) result }
{
    let Ok(step) = relay.step(alloc, event) else {
        return Err(RunFault::Memory);
    };
    let Ok(()) = append_relay_step(held, number, &step) else {
        return Err(RunFault::Memory);
    };
    write_where_full(held, out)
}

// A line for each membership, in pieces.
fn write_each_row<O: Sink>(rows: &Rows, held: &mut Bytes, out: &mut O) -> Result<(), RunFault>
    ensures done { OnOk result (WritesUpTo (O.written out.old) (O.written out.new)
        (held.old ++ flat_map row_text rows.now) held.new) }
    ensures begun { OnErr result (WritesPrefix (O.written out.old) (O.written out.new)
        (held.old ++ flat_map row_text rows.now)) }
    ensures counts { CountsWrites (O.faults out.old) (O.faults out.new) result }
{
    for row in rows.as_slice() {
        let Ok(()) = append_row(held, row) else {
            return Err(RunFault::Memory);
        };
        match write_where_full(held, out) {
            Ok(()) => {}
            Err(fault) => return Err(fault),
        }
    }
    Ok(())
}

/// The lines of these memberships, with how many they are before them. They go after what is held, and are
/// written in pieces.
#[tactic(auto, unfolding(crate::specs::Texts::rows_text))]
pub fn write_rows<O: Sink>(
    rows: &Rows,
    number: u64,
    held: &mut Bytes,
    out: &mut O,
) -> Result<(), RunFault>
    ensures done { OnOk result (WritesUpTo (O.written out.old) (O.written out.new)
        (held.old ++ rows_text number rows.now) held.new) }
    ensures begun { OnErr result (WritesPrefix (O.written out.old) (O.written out.new)
        (held.old ++ rows_text number rows.now)) }
    ensures counts { CountsWrites (O.faults out.old) (O.faults out.new) result }
{
    let Ok(()) = append_row_count(held, number, rows.len() as u64) else {
        return Err(RunFault::Memory);
    };
    write_each_row(rows, held, out)
}

/// The lines of the relay's memberships, with how many they are before them. They go after what is held, and
/// are written in pieces.
pub fn write_shown<O: Sink>(
    alloc: Global,
    relay: &Relay,
    number: u64,
    held: &mut Bytes,
    out: &mut O,
) -> Result<(), RunFault>
    ensures done { After relay.now (λ settings first events.
        OnOk result (WritesUpTo (O.written out.old) (O.written out.new)
        (held.old ++ rows_text number (rows_after settings first events)) held.new)) }
    ensures begun { After relay.now (λ settings first events.
        OnErr result (WritesPrefix (O.written out.old) (O.written out.new)
        (held.old ++ rows_text number (rows_after settings first events)))) }

    ensures counts { CountsWrites (O.faults out.old) (O.faults out.new) result }
{
    let Ok(rows) = relay.rows(alloc) else {
        return Err(RunFault::Memory);
    };
    write_rows(&rows, number, held, out)
}

fn write_item<O: Sink>(
    alloc: Global,
    relay: &mut Relay,
    number: u64,
    item: &RelayItem,
    held: &mut Bytes,
    out: &mut O,
) -> Result<(), RunFault>
    requires { IsItem (settings_of relay.old) item.now }
    ensures done { After relay.old (λ settings first events.
        OnOk result (WritesUpTo (O.written out.old) (O.written out.new)
        (held.old ++ item_text settings first events number item.now) held.new)) }
    ensures begun { After relay.old (λ settings first events.
        OnErr result (WritesPrefix (O.written out.old) (O.written out.new)
        (held.old ++ item_text settings first events number item.now))) }
    ensures next { After relay.old (λ settings first events.
        OnOk result (RelayAt relay.new settings first (events ++ events_in (item.now ∷ [])))) }

    ensures counts { CountsWrites (O.faults out.old) (O.faults out.new) result }
{
    match item {
        RelayItem::Event(event) => write_step(alloc, relay, number, event, held, out),
        RelayItem::Show => write_shown(alloc, relay, number, held, out),
    }
}

// A relay that takes the items of its script.
#[derive(Drop)]
struct RelayRun {
    relay: Relay,
}

impl ScriptRun for RelayRun {
    ghost use Rattle.amt_script.specs.{Running.{IsItem, IsRelayAfter}, Texts.{RelayStart, text_after}};

    type Item = RelayItem;

    ghost Start = { RelayStart };

    ghost IsAfter = { λ run start before. IsRelayAfter run.relay start before };

    ghost MayCome = { λ start item. IsItem start.settings item };

    ghost text_of = { λ start before number item. text_after start before number item };

    fn write_item<O: Sink>(
        &mut self,
        alloc: Global,
        number: u64,
        item: &RelayItem,
        held: &mut Bytes,
        out: &mut O,
    ) -> Result<(), RunFault> {
        write_item(alloc, &mut self.relay, number, item, held, out)
    }
}

/// Runs a relay over a script, and writes the text of its steps and of the memberships where they are shown.
pub fn run_relay_script<O: Sink>(
    alloc: Global,
    script: &RelayScript,
    out: &mut O,
) -> Result<(), RunFault>
    requires { IsRunnable script.now }
    ensures done { OnOk result (Appends (O.written out.old) (O.written out.new)
        (relay_script_text script.now)) }
    ensures begun { OnErr result (WritesPrefix (O.written out.old) (O.written out.new)
        (relay_script_text script.now)) }

    ensures later { O.faults out.old ≤ O.faults out.new }
    ensures write { IsErrOf result RunFault.Write → Rose (O.faults out.old) (O.faults out.new) }
    ensures quiet { ¬ IsErrOf result RunFault.Write → O.faults out.new ≡ O.faults out.old }
{
    let Ok(relay) = Relay::new(alloc, script.settings, script.secret) else {
        return Err(RunFault::Memory);
    };
    run_script(alloc, RelayRun { relay }, script.items.as_slice(), out)
}
