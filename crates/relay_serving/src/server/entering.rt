//! How a running relay takes an event.
ghost use Rattle.std.specs.Prelude.{◌≡◌, ◌≤◌, ◌<◌, ◌^◌, [], ◌∷◌, IfOk, OnOk, OnErr, false};
ghost use Rattle.relay_machine.specs.{Answers.{outcome_of, sends_of}, EventSize.{IsEvent}, declared.event.Event.TheVariants.{Rotate}};
ghost use Rattle.relay_serving.specs.{Counting.{is_packet, with_outcome}, Servers.{HasEvents, IsAsBefore, counts_in, events_in, first_in, settings_in, tally_in}, Stages.{PassesMoment}, Traces.{ServerDoes, refusing, taking}};

use super::Server;
use amt_ports::OutLink;
use amt_values::Moment;
use relay_machine::{Event, Outcome, Sends, Step};
use response_mac::Secret;
use std::alloc::{AllocError, Global};

impl<O: OutLink + Drop, T> Server<O, T> {
    // Takes an event that isn't a packet, and answers what is to be sent. What the event enters in the log
    // is owed then. Where memory ran out nothing happened.
    pub(super) fn enter(&mut self, alloc: Global, event: &Event) -> Result<Sends, AllocError>
        requires event { IsEvent (settings_in self.old) event.now }
        requires entered { is_packet event.now ≡ false }
        requires few { tally_in self.old < 2 ^ 50 }
        ensures sends { IfOk result (λ sends. sends
            ≡ sends_of (settings_in self.old) (first_in self.old) (events_in self.old) event.now) }
        ensures events { OnOk result (HasEvents self.old self.new (event.now ∷ [])) }
        ensures counts { OnOk result (counts_in self.new ≡ with_outcome (counts_in self.old) event.now
            (outcome_of (settings_in self.old) (first_in self.old) (events_in self.old) event.now)) }
        ensures err { OnErr result (IsAsBefore self.old self.new) }
    {
        self.publisher.ready()?;
        let Step {
            outcome,
            sends,
            change,
        } = self.relay.step(alloc, event)?;
        self.course = self.course.then(event);
        self.counts.count(event, &outcome);
        self.outcomes.count(&outcome);
        match change {
            Some(change) => self.publisher.take(change),
            None => {}
        }
        Ok(sends)
    }

    /// It has become this late. An event that memory refuses is counted, and nothing else happens then.
    pub(crate) fn pass_moment(&mut self, alloc: Global, at: Moment)
        requires few { tally_in self.old < 2 ^ 50 }
        ensures passes { PassesMoment at self.old self.new }
    {
        match self.enter(alloc, &Event::Moment(at)) {
            Ok(_sends) => {} // Nothing is sent then.
            Err(_) => self.starve(1),
        }
    }

    /// Counts events, or answers to lines, that memory refused.
    pub(super) fn starve(&mut self, number: u64)
        requires few { tally_in self.old < 2 ^ 50 }
        requires number { number ≤ 64 }
        ensures starves { ServerDoes (refusing number) self.old self.new }
    {
        self.counts.count_starved(number);
    }

    /// This secret is the current one from now on. It takes no memory.
    pub(crate) fn rotate(&mut self, alloc: Global, secret: Secret)
        requires few { tally_in self.old < 2 ^ 50 }
        ensures takes { ServerDoes (taking (Rotate secret) 0) self.old self.new }
    {
        let event = Event::Rotate(secret);
        match self.relay.step(alloc, &event) {
            Ok(_step) => {
                self.course = self.course.then(&event);
                self.outcomes.count(&Outcome::Rotated);
            }
            // A secret takes no memory.
            Err(_) => unreachable!(),
        }
    }
}
