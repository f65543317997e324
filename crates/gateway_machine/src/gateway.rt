//! The gateway as a machine: its start, its state and sockets, and its step. It knows no message.

ghost use Rattle.std.{specs.Prelude.{◌≡◌}, proofs.Props.{props}};
ghost use Rattle.gateway_machine.specs.{Settings.{HasSourceOfFamily}, State.{AreOfSettings, HasHistory, IsAtMoment}};

use crate::event::GatewayEvent;
use crate::exchange::{Exchange, GatewayState};
use crate::moment::due_at;
use crate::settings::GatewaySettings;
use crate::situation::Situation;
use crate::step::GatewayStep;
use crate::taken::{answer_event, replace_sockets};
use amt_values::{Ip, Moment, Peer};
use socket_merge::{Socket, Sockets};
use std::alloc::{AllocError, Global};

/// A gateway (RFC 7450, section 4.1.2).
///
/// Contracts see each of its fields, so where they say that a gateway is as before, nothing more was
/// kept. Its sockets stand for some history of calls, none of them later than its moment, on groups of its
/// family.
///
/// ```text
///   gateway                                        relay
///      | -- Discovery (nonce 1) ----------------->   |  a socket was opened
///      | <- Advertisement (nonce 1, address) -----   |
///      | -- Request (nonce 2) ------------------->   |
///      | <- Query (nonce 2, MAC, General Query) --   |
///      | -- Update (nonce 2, MAC, full report) -->   |  Active
///      | <- Multicast Data -----------------------   |  handed on, if a socket wants it
///      | -- Update (changes), Update (full) ----->   |  a socket call
///      |                                             |
///      | -- Request (nonce 3) ------------------->   |  the query interval has passed
///      | <- Query (nonce 3, MAC) -----------------   |
///      | -- Update (nonce 3, MAC, full report) -->   |
/// ```
#[derive(Debug, Drop)]
pub struct Gateway {
    settings: GatewaySettings,
    exchange: Exchange,
    sockets: Sockets,
    ghost source: { HasSourceOfFamily settings } by { Prim.hlevel props },
    ghost at_moment: { IsAtMoment exchange sockets } by { Prim.hlevel props },
    ghost of_settings: { AreOfSettings settings sockets } by { Prim.hlevel props },
    ghost has_history: { ∥ HasHistory sockets ∥₁ },
}

impl Gateway {
    ghost use Rattle.std.specs.Prelude.{◌≡◌, ◌≤◌, List, ℕ, [], ◌∷◌, ◌++◌, All, length, map, Some, IfOk, IfSome, IsOk, OnErr};
    ghost use Rattle.socket_merge.specs.{History.{open_sockets}, Interface.{wants}};
    ghost use Rattle.gateway_machine.specs.{Due.{IsDueAt}, Events.{IsDraw, IsEventOf}, Laws.{AreAuthorized, IsWantedPacket}, Runs.{After, GatewayAt, answer_after, run_of, settings_of}, Outcomes.{IsRefused, NeedsNoMemory}, Sends.{datagram_of}};

    /// A gateway at moment 0 that is idle, without sockets. Its first Discovery or Request has this
    /// nonce, unless an event brings another one before it.
    pub fn new(alloc: Global, settings: GatewaySettings, nonce: u32) -> Result<Gateway, AllocError>
        requires { HasSourceOfFamily settings }
        ensures stands { IfOk result (λ gateway. GatewayAt gateway settings nonce []) }
    {
        let sockets = Sockets::new(alloc)?;
        Ok(Gateway {
            settings,
            exchange: Exchange::start(&settings, nonce),
            sockets,
        })
    }

    /// An equal gateway that owns its memory.
    pub fn copied(&self, alloc: Global) -> Result<Gateway, AllocError>
        ensures { IfOk result (λ copy. copy ≡ self.now) }
    {
        let sockets = self.sockets.copy_all(alloc)?;
        Ok(Gateway {
            settings: self.settings,
            exchange: self.exchange,
            sockets,
        })
    }

    /// What the gateway is about.
    pub fn state(&self) -> GatewayState
        ensures { After self.now (λ settings first events.
            result ≡ (run_of settings first events).exchange.state) }
    {
        self.exchange.state
    }

    /// The relay that Requests and Updates go to, once one is known: by the settings, or by an Advertisement.
    pub fn relay(&self) -> Option<Peer>
        ensures { After self.now (λ settings first events.
            result ≡ (run_of settings first events).exchange.relay) }
    {
        self.exchange.relay
    }

    /// The open sockets, in the order in which they were opened.
    pub fn open_sockets(&self) -> &[Socket]
        ensures { After self.now (λ settings first events.
            result.now ≡ open_sockets (run_of settings first events).history) }
    {
        self.sockets.open_sockets()
    }

    /// Whether some socket of the group wants the source.
    pub fn admits(&self, group: &Ip, source: &Ip) -> bool
        ensures { After self.now (λ settings first events.
            result ≡ wants (run_of settings first events).history group.now source.now) }
    {
        self.sockets.admits(group, source)
    }

    /// The earliest moment at which something is due, if there is one: until then a moment is `Quiet`, and
    /// from then on it isn't. It changes with events, so a caller that sleeps asks again after each. It is never
    /// before the gateway's own moment, the latest that it took; where memory refused what was due, it has passed.
    pub fn due(&self) -> Option<Moment>
        ensures due { After self.now (λ settings first events. IsDueAt settings first events result) }
        ensures onward { After self.now (λ settings first events. IfSome result (λ due.
            (run_of settings first events).exchange.moment ≤ due)) }
    {
        due_at(&self.exchange)
    }

    /// Takes one event. Where memory ran out the gateway is as before, and the event may be given again.
    pub fn step(&mut self, alloc: Global, event: &GatewayEvent) -> Result<GatewayStep, AllocError>
        requires { IsEventOf (settings_of self.old) event.now }
        ensures outcome { After self.old (λ settings first events. IfOk result (λ step.
            step.outcome ≡ (answer_after settings first events event.now).outcome)) }
        ensures sends { After self.old (λ settings first events. IfOk result (λ step.
            step.sends ≡ map datagram_of (answer_after settings first events event.now).sends)) }
        ensures deliver { After self.old (λ settings first events. IfOk result (λ step.
            step.deliver ≡ (answer_after settings first events event.now).deliver)) }
        ensures next { After self.old (λ settings first events. IfOk result (λ _.
            GatewayAt self.new settings first (events ++ event.now ∷ []))) }
        ensures settings { settings_of self.new ≡ settings_of self.old }
        ensures err { OnErr result (self.new ≡ self.old) }

        // Each datagram is within 65,535 octets, the bound of all payloads here; UDP's (RFC 768) is 8 less.
        ensures short { IfOk result (λ step. All (λ send. length send.bytes ≤ 65535) step.sends) }

        // An ignored datagram and a refused call change nothing, so nobody who sends them can fill the
        // gateway's memory or move it.
        ensures same { IfOk result (λ step. IsRefused step.outcome → self.new ≡ self.old) }

        // Each Update and each Teardown that goes out carries the response MAC and the nonce of a Query
        // that the gateway accepted: it came from the gateway's relay, in answer to the last Request
        // before it (RFC 7450, section 5.2.3.6).
        ensures authorized { After self.old (λ settings first events. IfOk result (λ step.
            AreAuthorized settings first (events ++ event.now ∷ []) step.sends)) }

        // A packet is handed on as it stands in Multicast Data from the gateway's relay, and only where
        // its group is forwarded and some socket of it lets the packet's source in (RFC 7450, section
        // 5.2.3.3).
        ensures wanted { After self.old (λ settings first events. IfOk result (λ step.
            (packet : List ℕ) → step.deliver ≡ Some packet
            → IsWantedPacket settings first events event.now packet)) }

        // A nonce takes no memory.
        ensures sure { IsDraw event.now → IsOk result }

        // Neither does a moment at which nothing is sent, so time goes on whatever memory is left, nor a
        // datagram that is ignored, but for a message of which octets are copied before it is judged.
        ensures needs_none { After self.old (λ settings first events. NeedsNoMemory event.now
            (answer_after settings first events event.now).outcome → IsOk result) }
    {
        let here = Situation {
            settings: self.settings,
            exchange: self.exchange,
            sockets: &self.sockets,
        };
        let (reply, sockets) = answer_event(alloc, &here, event)?;
        self.exchange = reply.next;
        replace_sockets(&mut self.sockets, sockets);
        Ok(GatewayStep {
            outcome: reply.outcome,
            sends: reply.sends.datagrams,
            deliver: reply.deliver,
        })
    }
}
