//! Steps of the relay alone. It knows no pair.

ghost use Rattle.std.specs.Prelude.{◌≡◌, ◌++◌, ◌∷◌, [], IfOk, OnErr};
ghost use Rattle.relay_machine.specs.{Answers.{RelayAt, sends_of, settings_of}, EventSize.{IsEvent}, declared.event.Event.TheVariants.{Moment as Passes}};
ghost use Rattle.amt_pair.specs.{Members.{AreShortSends}, Parts.{relay_step}};
ghost use Rattle.amt_dual.specs.State.{ForRelay};

use amt_pair::{DownDatagrams, keep_copies};
use amt_values::Moment;
use relay_machine::{Event, Relay, Step};
use std::alloc::{AllocError, Global};

/// The relay takes one event, and what it sends is kept.
pub fn take_event(
    relay: &mut Relay,
    alloc: Global,
    event: &Event,
    down: &mut DownDatagrams,
) -> Result<Step, AllocError>
    requires event { IsEvent (settings_of relay.old) event.now }
    requires short { AreShortSends down.old }
    ensures step { ForRelay relay.old (λ setup course. IfOk result (λ step. step ≡ relay_step setup course event.now)) }
    ensures next { ForRelay relay.old (λ setup course. IfOk result (λ _.
        RelayAt relay.new setup.settings setup.secret (course.relay ++ event.now ∷ []))) }
    ensures down { ForRelay relay.old (λ setup course. IfOk result (λ _.
        down.new ≡ down.old ++ sends_of setup.settings setup.secret course.relay event.now)) }
    ensures settings { settings_of relay.new ≡ settings_of relay.old }
    ensures short { AreShortSends down.new }
    ensures err { ForRelay relay.old (λ setup course. OnErr result ((relay.new ≡ relay.old) × (down.new ≡ down.old))) }
{
    let step = relay.step(alloc, event)?;
    keep_copies(alloc, step.sends.as_slice(), down)?;
    Ok(step)
}

/// The relay hears of a moment, at which it sends nothing.
pub fn pass(relay: &mut Relay, alloc: Global, at: &Moment) -> Result<Step, AllocError>
    ensures step { ForRelay relay.old (λ setup course. IfOk result (λ step.
        step ≡ relay_step setup course (Passes at.now))) }
    ensures next { ForRelay relay.old (λ setup course. IfOk result (λ _.
        RelayAt relay.new setup.settings setup.secret (course.relay ++ Passes at.now ∷ []))) }
    ensures settings { settings_of relay.new ≡ settings_of relay.old }
    ensures err { OnErr result (relay.new ≡ relay.old) }
{
    let event = Event::Moment(*at);
    let step = relay.step(alloc, &event);
    drop(event);
    step
}
