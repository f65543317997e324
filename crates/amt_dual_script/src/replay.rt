//! A run over a script of dual gateways, and what is written of it. It knows sinks by their trait alone.

ghost use Rattle.std.specs.{Prelude.{◌≡◌, ◌≤◌, [], ◌∷◌, ◌++◌, IfOk, OnOk, OnErr, IsErrOf}, Io.KnownBytes.{Appends}};
ghost use Rattle.amt_ports.specs.Causes.{Rose};
ghost use Rattle.script_lines.specs.{Counting.{CountsWrites}, Writing.{WritesPrefix, WritesUpTo}};
ghost use Rattle.amt_dual.specs.{Schedule.{dual_course_of}, State.{ForCourse, DualPairAt}};
ghost use Rattle.amt_script.specs.Texts.{rows_text};
ghost use Rattle.relay_machine.specs.{Answers.{rows_after}, Settings.{AreLawfulSettings}};
ghost use Rattle.amt_dual_script.specs.{Running.{AfterItems, CanBeAdded, CanTake, IsPairAfter, IsRunnable}, Setup.{setup_of}, Texts.{event_text, events_in, dual_script_text}, declared.script.DualItem.TheVariants.{Event as EventItem}};

use crate::script::{DualItem, DualScript};
use crate::text::append_steps;
use amt_dual::{DualFault, DualPair, DualPairEvent};
use amt_ports::Sink;
use amt_script::write_rows;
use amt_values::Bytes;
use script_lines::{RunFault, ScriptRun, run_script, write_where_full};
use std::alloc::{AllocError, Global};

// A relay and dual gateways that take the items of its script, and how many datagrams were sent to the relay and by it.
#[derive(Drop)]
struct DualRun {
    pair: DualPair,
    up: u64,
    down: u64,
}

impl DualRun {
    ghost use Rattle.amt_dual.specs.Schedule.{dual_course_of};
    ghost use Rattle.amt_dual_script.specs.{Running.{AfterItems, CanTake, IsPairAfter}, Texts.{event_text, events_in}, declared.script.DualItem.TheVariants.{Event as EventItem}};

    // Takes one event, and puts its text after what is held. Where memory runs out on the way of a moment,
    // there is no text of it.
    fn take(
        &mut self,
        alloc: Global,
        number: u64,
        event: &DualPairEvent,
        held: &mut Bytes,
    ) -> Result<(), AllocError>
        requires { CanTake self.old.pair self.old.up self.old.down event.now }
        ensures text { AfterItems self.old.pair self.old.up self.old.down (λ start before.
            OnOk result (held.new ≡ held.old
            ++ event_text start (dual_course_of start (events_in before)) number event.now)) }
        ensures next { AfterItems self.old.pair self.old.up self.old.down (λ start before.
            OnOk result (IsPairAfter self.new.pair self.new.up self.new.down start
            (before ++ EventItem event.now ∷ []))) }
    {
        let step = self.pair.step(alloc, event)?;
        if step.starved {
            return Err(AllocError);
        }
        append_steps(alloc, held, number, self.up, self.down, step.parts)?;
        self.up = step.up;
        self.down = step.down;
        Ok(())
    }
}

// Takes one event, and writes its text.
fn write_event<O: Sink>(
    alloc: Global,
    run: &mut DualRun,
    number: u64,
    event: &DualPairEvent,
    held: &mut Bytes,
    out: &mut O,
) -> Result<(), RunFault>
    requires { CanTake run.old.pair run.old.up run.old.down event.now }
    ensures done { AfterItems run.old.pair run.old.up run.old.down (λ start before.
        OnOk result (WritesUpTo (O.written out.old) (O.written out.new)
        (held.old ++ event_text start (dual_course_of start (events_in before)) number event.now) held.new)) }
    ensures begun { AfterItems run.old.pair run.old.up run.old.down (λ start before.
        OnErr result (WritesPrefix (O.written out.old) (O.written out.new)
        (held.old ++ event_text start (dual_course_of start (events_in before)) number event.now))) }
    ensures next { AfterItems run.old.pair run.old.up run.old.down (λ start before.
        OnOk result (IsPairAfter run.new.pair run.new.up run.new.down start
        (before ++ EventItem event.now ∷ []))) }

    ensures counts { CountsWrites (O.faults out.old) (O.faults out.new) result }
{
    let Ok(()) = run.take(alloc, number, event, held) else {
        return Err(RunFault::Memory);
    };
    write_where_full(held, out)
}

// The memberships at the relay.
fn write_shown<O: Sink>(
    alloc: Global,
    pair: &DualPair,
    number: u64,
    held: &mut Bytes,
    out: &mut O,
) -> Result<(), RunFault>
    ensures done { ForCourse pair.now (λ setup course.
        OnOk result (WritesUpTo (O.written out.old) (O.written out.new)
        (held.old ++ rows_text number (rows_after setup.settings setup.secret course.relay)) held.new)) }
    ensures begun { ForCourse pair.now (λ setup course.
        OnErr result (WritesPrefix (O.written out.old) (O.written out.new)
        (held.old ++ rows_text number (rows_after setup.settings setup.secret course.relay)))) }

    ensures counts { CountsWrites (O.faults out.old) (O.faults out.new) result }
{
    let Ok(rows) = pair.rows(alloc) else {
        return Err(RunFault::Memory);
    };
    write_rows(&rows, number, held, out)
}

impl ScriptRun for DualRun {
    ghost use Rattle.amt_dual.specs.Setup.{DualSetup, machines_in};
    ghost use Rattle.amt_dual_script.specs.{Running.{IsItem, IsPairAfter}, Texts.{item_text}};

    type Item = DualItem;

    ghost Start = { DualSetup };

    ghost IsAfter = { λ run start before. IsPairAfter run.pair run.up run.down start before };

    ghost MayCome = { λ start item. IsItem (machines_in start).hosts item };

    ghost text_of = { λ start before number item. item_text start before number item };

    fn write_item<O: Sink>(
        &mut self,
        alloc: Global,
        number: u64,
        item: &DualItem,
        held: &mut Bytes,
        out: &mut O,
    ) -> Result<(), RunFault> {
        match item {
            DualItem::Event(event) => write_event(alloc, self, number, event, held, out),
            DualItem::Show => write_shown(alloc, &self.pair, number, held, out),
        }
    }
}

// The pair that a script sets up.
fn set_up(alloc: Global, script: &DualScript) -> Result<DualPair, AllocError>
    requires lawful { AreLawfulSettings script.now.settings }
    requires gateways { CanBeAdded [] script.now.gateways }
    ensures { IfOk result (λ pair. DualPairAt pair (setup_of script.now) []) }
{
    let mut pair = DualPair::new(alloc, script.settings, script.secret)?;
    for gateway in script.gateways.as_slice() {
        let name = gateway.name.as_slice();
        match pair.add(alloc, name, gateway.peer, gateway.source4, gateway.source6) {
            Ok(()) => {}
            Err(DualFault::Memory) => {
                drop(pair);
                return Err(AllocError);
            }
            // No two gateways of a script have one name or one peer.
            Err(DualFault::Taken) => unreachable!(),
        }
    }
    Ok(pair)
}

/// Runs a relay and its dual gateways over a script, and writes the text of their steps and of the memberships
/// where they are shown.
pub fn run_dual_script<O: Sink>(
    alloc: Global,
    script: &DualScript,
    out: &mut O,
) -> Result<(), RunFault>
    requires { IsRunnable script.now }
    ensures done { OnOk result (Appends (O.written out.old) (O.written out.new)
        (dual_script_text script.now)) }
    ensures begun { OnErr result (WritesPrefix (O.written out.old) (O.written out.new)
        (dual_script_text script.now)) }

    ensures later { O.faults out.old ≤ O.faults out.new }
    ensures write { IsErrOf result RunFault.Write → Rose (O.faults out.old) (O.faults out.new) }
    ensures quiet { ¬ IsErrOf result RunFault.Write → O.faults out.new ≡ O.faults out.old }
{
    let Ok(pair) = set_up(alloc, script) else {
        return Err(RunFault::Memory);
    };
    let run = DualRun {
        pair,
        up: 0,
        down: 0,
    };
    run_script(alloc, run, script.items.as_slice(), out)
}
