//! A running gateway: its machine, and what is kept of its run.
ghost use Rattle.std.specs.Prelude.{◌≡◌, ◌≤◌, ◌*◌, length};
ghost use Rattle.gateway_machine.specs.Runs.{GatewayAt, settings_of};
ghost use Rattle.gateway_serving.specs.{Courses.{events_so_far}, OutcomeWords.{IsTallied}};

use crate::counts::Counts;
use crate::course::Course;
use crate::outcomes::Outcomes;
use amt_ports::OutLink;
use amt_values::{Moment, Peer};
use gateway_machine::Gateway;

mod answering;
mod control;
mod hearing;
mod opening;
mod taking;
mod turning;

/// A running gateway.
#[derive(Drop)]
pub(crate) struct Server {
    gateway: Gateway,
    /// The family of the gateway's settings.
    v6: bool,
    /// Where packets go that are handed on.
    deliver: Peer,
    /// The latest moment that the clock has given: memory may have refused it to the machine.
    latest: Moment,
    counts: Counts,
    /// What its events came to.
    outcomes: Outcomes,
    /// The first nonce.
    first: u32,
    course: Course,
    ghost at: { ∥ GatewayAt gateway (settings_of gateway) first (events_so_far course) ∥₁ },
    ghost family: { (settings_of gateway).v6 ≡ v6 },
    ghost tallied: { IsTallied (settings_of gateway) first (events_so_far course) outcomes },
    ghost few_delivered: { counts.delivered ≤ length (events_so_far course) },
    ghost few_unsent: { counts.unsent ≤ 3 * length (events_so_far course) },
}

impl Server {
    /// What is counted.
    pub(crate) fn counts(&self) -> &Counts
        ensures { result.now ≡ self.now.counts }
    {
        &self.counts
    }
}
