//! The relay as a machine: its start, its numbers and rows, and its step. It knows no message.
ghost use Rattle.std.{specs.Prelude.{◌≡◌, ◌≤◌, []}, proofs.Props.{props}};
ghost use Rattle.endpoint_membership.specs.Table.{IsWithinLimits};
ghost use Rattle.relay_machine.specs.{Settings.{table_settings_of}, State.{HasLog}};

use crate::datagram::take_datagram;
use crate::event::Event;
use crate::outcome::Outcome;
use crate::packet::take_packet;
use crate::sends::Step;
use crate::settings::Settings;
use crate::setup::Setup;
use amt_values::Moment;
use endpoint_membership::{Change, Rows, Table, Targets};
use response_mac::{Secret, Secrets};
use std::alloc::{AllocError, Global};

/// A relay (RFC 7450, section 4.1.3).
///
/// Contracts see each of its fields, so where they say that a relay is as before, nothing more was
/// kept; a cell, of which they see nothing, none of its fields is. What the table keeps is within the
/// limits of the settings, and represents some log.
///
/// The room for a packet's receivers is taken once, for as many as the settings' limits allow, so that a
/// packet takes memory for its sends alone. It is no state of the protocol: contracts see that there is
/// room for as many, and that no receiver is in it between events.
#[derive(Debug, Drop)]
pub struct Relay {
    setup: Setup,
    secrets: Secrets,
    table: Table,
    targets: Targets,
    ghost within: { IsWithinLimits table } by { Prim.hlevel props },
    ghost has_log: { ∥ HasLog (table_settings_of setup.settings) table ∥₁ },
    ghost has_room: { setup.settings.limits.endpoints ≤ targets.room },
    ghost no_targets: { targets.endpoints ≡ [] } by { Prim.hlevel props },
}

impl Relay {
    ghost use Rattle.std.specs.Prelude.{◌≡◌, ◌≤◌, ℕ, List, [], ◌∷◌, ◌++◌, All, length, None, Some, IfOk, IsOk, OnErr};
    ghost use Rattle.amt_values.specs.EndpointValue.{EndpointValue};
    ghost use Rattle.source_filter.specs.declared.record.Record.{Record as RecordValue};
    ghost use Rattle.inner_datagrams.specs.declared.head.Head.{Head};
    ghost use Rattle.endpoint_membership.specs.{Limits.{AreFew, IsWithin, live_count}, Log.{latest}, Memberships.{rows_of}, Table.{memberships_now}, declared.change.Change.TheVariants.{Clear, Reported}};
    ghost use Rattle.relay_machine.specs.{declared.{event.Event.{Event as EventValue, TheVariants.{Packet}}, outcome.Outcome.TheVariants.{Copied, TornDown, Updated}}, Acceptance.{IsAcceptedTeardown, IsAcceptedUpdate, IsSomeAcceptedTeardown, IsSomeAcceptedUpdate}, Accepted.{accepted_log, change_of, with_change}};
    ghost use Rattle.relay_machine.specs.{Answers.{After, ForRelayLog, RelayAt, StandsFor, moment_of, outcome_of, rows_after, sends_of, settings_of, wants_after}, EventSize.{IsEvent, IsPayload}, Events.{now_of}, Packets.{AreCopies, IsToCopy}, Updates.{forwardable_records}, Settings.{AreLawfulSettings, membership_interval_ms}};

    /// A relay at moment 0, whose current secret is this one, without memberships.
    ///
    /// Whatever events may come, the memberships by their accepted log are within the settings' limits,
    /// which are the greatest that are ever in force.
    pub fn new(alloc: Global, settings: Settings, secret: Secret) -> Result<Relay, AllocError>
        requires { AreLawfulSettings settings }
        ensures stands { IfOk result (λ relay. RelayAt relay settings secret []) }
        ensures within { (events : List EventValue) → IsWithin settings.limits
            (memberships_now (table_settings_of settings) (accepted_log settings secret events)) }
    {
        let table = Table::new(alloc, settings.limits, settings.lifetime_ms())?;
        let targets = Targets::new(alloc, settings.limits.endpoints)?;
        Ok(Relay {
            setup: Setup::new(settings),
            secrets: Secrets::new(settings.secrets, secret),
            table,
            targets,
        })
    }

    /// The latest moment that was reported to the relay, or 0.
    pub fn now(&self) -> Moment
        ensures value { result ≡ moment_of self.now }
        ensures latest { After self.now (λ settings first events. result ≡ now_of events) }
    {
        self.table.now()
    }

    /// The memberships, by tunnel endpoint and then by group.
    pub fn rows(&self, alloc: Global) -> Result<Rows, AllocError>
        ensures stands { IfOk result (λ rows. After self.now (λ settings first events.
            rows ≡ rows_after settings first events)) }
        ensures published { IfOk result (λ rows. ForRelayLog self.now (λ log.
            rows ≡ rows_of (membership_interval_ms (settings_of self.now)) (latest log) log)) }
        ensures bounded { IfOk result (AreFew (settings_of self.now).limits) }
    {
        self.table.rows(alloc)
    }

    /// How many tunnel endpoints have a membership.
    pub fn live_endpoints(&self) -> u32
        ensures { After self.now (λ settings first events. result
            ≡ live_count (memberships_now (table_settings_of settings) (accepted_log settings first events))) }
    {
        self.table.live_endpoints()
    }

    /// Takes one event. Where memory ran out the relay is as before, and the event may be given
    /// again.
    pub fn step(&mut self, alloc: Global, event: &Event) -> Result<Step, AllocError>
        requires { IsEvent (settings_of self.old) event.now }
        ensures outcome { After self.old (λ settings first events.
            IfOk result (λ step. step.outcome ≡ outcome_of settings first events event.now)) }
        ensures sends { After self.old (λ settings first events.
            IfOk result (λ step. step.sends ≡ sends_of settings first events event.now)) }
        ensures change { After self.old (λ settings first events.
            IfOk result (λ step. step.change ≡ change_of settings first events event.now)) }
        ensures next { After self.old (λ settings first events.
            IfOk result (λ _. RelayAt self.new settings first (events ++ event.now ∷ []))) }
        ensures within { After self.old (λ settings first events.
            IfOk result (λ _. IsWithin settings.limits (memberships_now (table_settings_of settings)
            (accepted_log settings first (events ++ event.now ∷ []))))) }

        // Each datagram is within 65,535 octets, the bound of all payloads here; UDP's (RFC 768) is 8 less.
        ensures short { IfOk result (λ step. All (λ send. length send.bytes ≤ 65535) step.sends) }

        // A replica that appends each entry that is handed out to a log that the table represents has
        // such a log again: no clearing that isn't handed out is missed.
        ensures published { ForRelayLog self.old (λ log.
            IfOk result (λ step. StandsFor self.new (with_change log step.change))) }
        ensures settings { settings_of self.new ≡ settings_of self.old }

        // No datagram but an accepted Update and the Teardown of a live endpoint changes the relay,
        // not even a Request: what is kept for each, as its nonce, could be made to fill the
        // relay's memory by whoever forges sources. No packet changes it.
        ensures same { After self.old (λ settings first events. IsPayload event.now
            → IfOk result (λ step. step.change ≡ None → self.new ≡ self.old)) }
        ensures err { OnErr result (self.new ≡ self.old) }

        // An Update of an endpoint under a good MAC, with a lawful report that fits the limits in force,
        // adds the report's records on forwardable groups at the relay's moment, and no other event is
        // `Updated` (RFC 7450, section 5.3.3).
        ensures updated { After self.old (λ settings first events.
            (endpoint : EndpointValue) (records : List RecordValue)
            → IsAcceptedUpdate settings first events event.now endpoint records
            → IfOk result (λ step. (step.outcome ≡ Updated) × (step.change
            ≡ Some (Reported endpoint (forwardable_records records) (now_of events))))) }
        ensures updated_only { After self.old (λ settings first events.
            IfOk result (λ step. step.outcome ≡ Updated
            → IsSomeAcceptedUpdate settings first events event.now)) }

        // A Teardown clears the endpoint that it names, whatever endpoint it comes from.
        ensures torn { After self.old (λ settings first events. (named : EndpointValue)
            → IsAcceptedTeardown settings first events event.now named
            → IfOk result (λ step. (step.outcome ≡ TornDown)
            × (step.change ≡ Some (Clear named (now_of events))))) }
        ensures torn_only { After self.old (λ settings first events.
            IfOk result (λ step. step.outcome ≡ TornDown
            → IsSomeAcceptedTeardown settings first events event.now)) }

        // A packet with no fault goes once, as it is, to each endpoint whose newest record that
        // speaks of the packet's source wants it (RFC 7450, section 5.3.3), and to no other.
        ensures copies { After self.old (λ settings first events. (packet : List ℕ) (head : Head)
            → event.now ≡ Packet packet → IsToCopy settings.packet_limit head packet
            → IfOk result (λ step. AreCopies (wants_after settings first events head) packet step.sends
            × (step.outcome ≡ Copied (length step.sends)))) }

        // A moment, a secret and new limits take no memory, so time moves on, secrets age and limits are
        // lowered whatever is left.
        ensures sure { ¬ IsPayload event.now → IsOk result }
    {
        match event {
            Event::Moment(moment) => {
                let at = self.table.now().later(moment);
                self.table.advance(&at);
                Ok(Step::entered(alloc, Outcome::Moved(at), Change::Mark { at }))
            }
            Event::Datagram { from, bytes } => {
                let setup = &self.setup;
                take_datagram(alloc, setup, &self.secrets, &mut self.table, from, bytes)
            }
            Event::Packet { bytes } => {
                take_packet(alloc, &self.setup, &self.table, &mut self.targets, bytes)
            }
            Event::Rotate(secret) => {
                self.secrets.rotate(*secret);
                Ok(Step::quiet(alloc, Outcome::Rotated))
            }
            Event::Limits(limits) => {
                self.table.set_limits(limits);
                Ok(Step::quiet(alloc, Outcome::Resized))
            }
        }
    }
}
