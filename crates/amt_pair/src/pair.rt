//! Both ends on a schedule. It knows no message: the ends alone do.

ghost use Rattle.std.{specs.Prelude.{◌≡◌, map, All}, proofs.Props.{props}};
ghost use Rattle.amt_pair.specs.{Setup.{AreApart, relay_peer}, Members.{AreShort, AreShortSends, host_of}, OwnEndpoints.{HasOwnEndpoint}};

use crate::datagrams::{DownDatagrams, UpDatagrams, keep_copies};
use crate::event::PairEvent;
use crate::gateways::{Gateways, NamedGateway};
use crate::ranges::{pair_event_fits, peer_fits, settings_fit};
use crate::step::{PairStep, Part, Parts};
use amt_values::{AMT_PORT, Bytes, Ip, Moment, Peer};
use endpoint_membership::Rows;
use gateway_machine::{Gateway, GatewayEvent, GatewaySettings};
use relay_machine::{Event, Relay, Settings};
use response_mac::Secret;
use std::alloc::{AllocError, Global};

// The nonce of the first Discovery of each gateway.
const FIRST_NONCE: u32 = 1;

/// Why a gateway was not added.
#[derive(Clone, Copy, Debug, PartialEq, Eq)]
pub enum PairFault {
    /// Its name or its peer is another gateway's.
    Taken,
    Memory,
}

/// A relay and its gateways, and all datagrams that they have sent.
///
/// ```text
///   gateway a --+                               +-- packets, secrets
///   gateway b --+--> up 1, up 2, ..  --> relay -+
///   gateway c --+                          |    +-- moments, which come to each gateway too
///       ^                                  v
///       +------- .. , down 2, down 1 <-----+
/// ```
///
/// A datagram goes nowhere by itself: it is kept under its number, and an event delivers it, so that a
/// schedule says what a network may do: lose, repeat, reorder and delay.
#[derive(Debug, Drop)]
pub struct Pair {
    relay: Relay,
    // The relay's own peer, which each gateway discovers.
    peer: Peer,
    gateways: Gateways,
    up: UpDatagrams,
    down: DownDatagrams,
    ghost peer_is: { peer ≡ relay_peer relay.setup.settings } by { Prim.hlevel props },
    ghost apart: { AreApart (map host_of gateways) } by { Prim.hlevel props },
    ghost own_endpoints: { All (λ host. HasOwnEndpoint host.peer) (map host_of gateways) } by { Prim.hlevel props },
    ghost up_short: { AreShort up } by { Prim.hlevel props },
    ghost down_short: { AreShortSends down } by { Prim.hlevel props },
}

impl Pair {
    ghost use Rattle.std.specs.Prelude.{◌≡◌, ◌<◌, ◌↔◌, ◌++◌, ◌∷◌, [], true, false, HoldsAt, List, Option, length, IfOk, IsErrOf, OnOk, OnErr};
    ghost use Rattle.amt_values.specs.{EndpointValue.{EndpointValue}, declared.address.Ip.{Ip as IpValue}};
    ghost use Rattle.endpoint_membership.specs.Admission.{rows_admit};
    ghost use Rattle.group_records.specs.Written.{is_of_family};
    ghost use Rattle.gateway_machine.specs.{Events.{IsEventOf}, Runs.{settings_of}};
    ghost use Rattle.relay_machine.specs.{Answers.{rows_after, settings_of as relay_settings_of}, EventSize.{IsEvent}, Settings.{AreLawfulSettings}, declared.settings.Settings.{Settings as SettingsValue}};
    ghost use Rattle.response_mac.specs.declared.secret.Secret.{Secret as SecretValue};
    ghost use Rattle.socket_merge.specs.FullReport.{family_by};
    ghost use Rattle.amt_pair.specs.{Agreement.{CountsInTime, IsActive, IsHeard, IsInTime, wants_now}, Parts.{gateway_part, parts_of, relay_step}, Schedule.{FitsItsType, MayCome, Member, Upward, with_pair_event, with_relay_event}, Sent.{SentReport}};
    ghost use Rattle.amt_pair.specs.{Setup.{Host, has_taken, settings_of_host}, State.{After, ForCourse, ForMember, HasStarved, PairAt, StandsFor, hosts_of, sent_down, sent_up, with_member_at}, declared.step.Part.TheVariants.{Absent as AbsentPart, Relay as RelayPart}};
    ghost use Rattle.amt_pair.specs.declared.event.PairEvent.TheVariants as events;

    /// A relay at moment 0, and no gateway.
    pub fn new(alloc: Global, settings: Settings, secret: Secret) -> Result<Pair, AllocError>
        requires { AreLawfulSettings settings }
        ensures stands { IfOk result (λ pair.
            PairAt pair (record { settings = settings; secret = secret; hosts = [] }) []) }
    {
        settings_fit(&settings);
        let relay = Relay::new(alloc, settings, secret)?;
        Ok(Pair {
            relay,
            peer: Peer {
                ip: settings.relay,
                port: AMT_PORT,
            },
            gateways: Gateways::new(alloc),
            up: UpDatagrams::new(alloc),
            down: DownDatagrams::new(alloc),
        })
    }

    /// Adds an idle gateway at moment 0: its name, the peer as which the relay sees it, its family, whether it
    /// asks as if the relay were Linux's, and the source of its reports, an address of that family. It discovers
    /// the relay at the relay's own address, and its nonces begin with 1. Nothing is said of a pair to which a
    /// gateway was added after the first step.
    pub fn add(
        &mut self,
        alloc: Global,
        name: &[u8],
        peer: Peer,
        v6: bool,
        linux_relay: bool,
        source: Ip,
    ) -> Result<(), PairFault>
        requires { is_of_family (family_by v6) source ≡ true }
        ensures added { (settings : SettingsValue) (secret : SecretValue) (hosts : List Host)
            → PairAt self.old (record { settings = settings; secret = secret; hosts = hosts }) []
            → OnOk result (PairAt self.new (record {
              settings = settings;
              secret = secret;
              hosts = hosts ++ record { name = name.now; peer = peer; settings = settings_of_host settings v6 linux_relay source } ∷ [];
            }) []) }
        ensures taken { IsErrOf result PairFault.Taken ↔ (has_taken name.now peer (hosts_of self.old) ≡ true) }
        ensures same { OnErr result (self.new ≡ self.old) }
    {
        peer_fits(&peer);
        if self.is_taken(name, &peer) {
            return Err(PairFault::Taken);
        }
        let settings = GatewaySettings {
            v6,
            discovery: self.peer,
            relay: None,
            port: AMT_PORT,
            source,
            linux_relay,
        };
        let Ok(gateway) = Gateway::new(alloc, settings, FIRST_NONCE) else {
            return Err(PairFault::Memory);
        };
        let Ok(name) = Bytes::copied(alloc, name) else {
            return Err(PairFault::Memory);
        };
        match self.gateways.push(NamedGateway {
            name,
            peer,
            gateway,
        }) {
            Ok(()) => Ok(()),
            Err(_) => Err(PairFault::Memory),
        }
    }

    fn is_taken(&self, name: &[u8], peer: &Peer) -> bool
        ensures { result ≡ has_taken name.now peer.now (hosts_of self.now) }
    {
        self.gateways.has_taken(name, peer)
    }

    /// The memberships at the relay, by tunnel endpoint and then by group.
    pub fn rows(&self, alloc: Global) -> Result<Rows, AllocError>
        ensures stands { ForCourse self.now (λ setup course. IfOk result (λ rows.
            rows ≡ rows_after setup.settings setup.secret course.relay)) }

        // What was joined is what is forwarded. For a gateway that is Active, whose last full report made
        // the last entry of its endpoint, not longer ago than reports count, the rows let in a source of a
        // group exactly where a socket of the gateway does: whatever the network lost, repeated or
        // reordered, if it delayed no datagram of the gateway by more than a minute, and reports count for
        // at most 99,940 seconds.
        ensures agree { After self.now (λ setup schedule. IfOk result (λ rows.
            (member : Member) (endpoint : EndpointValue) (report : SentReport) (group source : IpValue)
            → CountsInTime setup → IsInTime setup schedule member.host.peer
            → IsHeard setup schedule member endpoint report → IsActive member
            → rows_admit rows endpoint group source ≡ wants_now member group source)) }
    {
        self.relay.rows(alloc)
    }

    /// Takes one event. Where memory runs out at the first step of it nothing changes, and the event may be
    /// given again. Where it runs out at a later step of a moment, the answer says so: it holds the parts of
    /// the steps before, and the gateways from there on have not heard of the moment.
    pub fn step(&mut self, alloc: Global, event: &PairEvent) -> Result<PairStep, AllocError>
        requires { MayCome (hosts_of self.old) event.now }
        ensures parts { ForCourse self.old (λ setup course. IfOk result (λ step. step.starved ≡ false
            → step.parts ≡ parts_of setup course event.now)) }
        ensures next { ForCourse self.old (λ setup course. IfOk result (λ step. step.starved ≡ false
            → StandsFor self.new setup (with_pair_event setup course event.now))) }
        ensures starved { ForCourse self.old (λ setup course. IfOk result (λ step. step.starved ≡ true
            → HasStarved setup course event.now self.new step.parts)) }
        ensures up { IfOk result (λ step. step.up ≡ sent_up self.new) }
        ensures down { IfOk result (λ step. step.down ≡ sent_down self.new) }
        ensures hosts { hosts_of self.new ≡ hosts_of self.old }
        ensures err { ForCourse self.old (λ setup course. OnErr result (self.new ≡ self.old)) }

        // With `next` and `steps_extend_schedules` the schedule that led here goes on by the event.
        ensures fits { FitsItsType event.now }
    {
        pair_event_fits(event);
        match event {
            PairEvent::Moment(at) => self.take_moment(alloc, at),
            PairEvent::Rotate(secret) => self.take_at_relay(alloc, &Event::Rotate(*secret)),
            PairEvent::Packet { bytes } => {
                let bytes = Bytes::copied(alloc, bytes.as_slice())?;
                self.take_at_relay(alloc, &Event::Packet { bytes })
            }
            PairEvent::Socket { name, event } => self.take_call(alloc, name.as_slice(), event),
            PairEvent::Up(number) => self.deliver_up(alloc, *number),
            PairEvent::Down(number) => self.deliver_down(alloc, *number),
        }
    }

    // A step with these parts.
    fn step_of(&self, parts: Vec<Part>, starved: bool) -> PairStep
        ensures parts { result.parts ≡ parts.items }
        ensures up { result.up ≡ sent_up self.now }
        ensures down { result.down ≡ sent_down self.now }
        ensures starved { result.starved ≡ starved }
    {
        PairStep {
            parts: Parts::from(parts),
            up: self.up.len() as u64,
            down: self.down.len() as u64,
            starved,
        }
    }

    // The relay takes one event. The datagrams that it sends are kept before the answer; where there are any
    // the relay is as before, so that nothing changes where memory runs out.
    fn take_at_relay(&mut self, alloc: Global, event: &Event) -> Result<PairStep, AllocError>
        requires { IsEvent (relay_settings_of self.old.relay) event.now }
        ensures parts { ForCourse self.old (λ setup course. IfOk result (λ step.
            step.parts ≡ RelayPart (relay_step setup course event.now) ∷ [])) }
        ensures next { ForCourse self.old (λ setup course. (by : Option Upward) → IfOk result (λ _.
            StandsFor self.new setup (with_relay_event setup by event.now course))) }
        ensures all { IfOk result (λ step. step.starved ≡ false) }
        ensures up { IfOk result (λ step. step.up ≡ sent_up self.new) }
        ensures down { IfOk result (λ step. step.down ≡ sent_down self.new) }
        ensures hosts { hosts_of self.new ≡ hosts_of self.old }
        ensures err { ForCourse self.old (λ setup course. OnErr result (self.new ≡ self.old)) }
    {
        let mut parts = Vec::with_capacity(alloc, 1)?;
        let step = self.relay.step(alloc, event)?;
        keep_copies(alloc, step.sends.as_slice(), &mut self.down)?;
        parts.push_reserved(Part::Relay(step));
        Ok(self.step_of(parts, false))
    }

    // A moment comes to the relay, and then to each gateway.
    fn take_moment(&mut self, alloc: Global, at: &Moment) -> Result<PairStep, AllocError>
        ensures parts { ForCourse self.old (λ setup course. IfOk result (λ step. step.starved ≡ false
            → step.parts ≡ parts_of setup course (events.Moment at.now))) }
        ensures next { ForCourse self.old (λ setup course. IfOk result (λ step. step.starved ≡ false
            → StandsFor self.new setup (with_pair_event setup course (events.Moment at.now)))) }
        ensures starved { ForCourse self.old (λ setup course. IfOk result (λ step. step.starved ≡ true
            → HasStarved setup course (events.Moment at.now) self.new step.parts)) }
        ensures up { IfOk result (λ step. step.up ≡ sent_up self.new) }
        ensures down { IfOk result (λ step. step.down ≡ sent_down self.new) }
        ensures hosts { hosts_of self.new ≡ hosts_of self.old }
        ensures err { ForCourse self.old (λ setup course. OnErr result (self.new ≡ self.old)) }
    {
        let mut parts = Vec::with_capacity(alloc, 1 + self.gateways.len())?;
        let step = self.relay.step(alloc, &Event::Moment(*at))?;
        parts.push_reserved(Part::Relay(step));
        let came_to_all = self
            .gateways
            .take_moment(alloc, at, &mut self.up, &mut parts);
        Ok(self.step_of(parts, !came_to_all))
    }

    // A gateway takes one event, and the one part is its own.
    fn take_at_gateway(
        &mut self,
        alloc: Global,
        place: usize,
        event: &GatewayEvent,
    ) -> Result<PairStep, AllocError>
        requires place { place < length self.old.gateways }
        requires event { HoldsAt (λ one. IsEventOf (settings_of one.gateway) event.now) self.old.gateways place }
        ensures parts { ForMember self.old place (λ setup course member. IfOk result (λ step.
            step.parts ≡ gateway_part event.now member ∷ [])) }
        ensures next { ForMember self.old place (λ setup course member. IfOk result (λ _.
            StandsFor self.new setup (with_member_at course event.now place member))) }
        ensures all { IfOk result (λ step. step.starved ≡ false) }
        ensures up { IfOk result (λ step. step.up ≡ sent_up self.new) }
        ensures down { IfOk result (λ step. step.down ≡ sent_down self.new) }
        ensures hosts { hosts_of self.new ≡ hosts_of self.old }
        ensures err { OnErr result (self.new ≡ self.old) }
    {
        let mut parts = Vec::with_capacity(alloc, 1)?;
        let part = self.gateways.take_at(alloc, place, event, &mut self.up)?;
        parts.push_reserved(part);
        Ok(self.step_of(parts, false))
    }

    // The gateway of this name takes a socket call.
    fn take_call(
        &mut self,
        alloc: Global,
        name: &[u8],
        event: &GatewayEvent,
    ) -> Result<PairStep, AllocError>
        requires { MayCome (hosts_of self.old) (events.Socket name.now event.now) }
        ensures parts { ForCourse self.old (λ setup course. IfOk result (λ step.
            step.parts ≡ parts_of setup course (events.Socket name.now event.now))) }
        ensures next { ForCourse self.old (λ setup course. IfOk result (λ _.
            StandsFor self.new setup (with_pair_event setup course (events.Socket name.now event.now)))) }
        ensures all { IfOk result (λ step. step.starved ≡ false) }
        ensures up { IfOk result (λ step. step.up ≡ sent_up self.new) }
        ensures down { IfOk result (λ step. step.down ≡ sent_down self.new) }
        ensures hosts { hosts_of self.new ≡ hosts_of self.old }
        ensures err { OnErr result (self.new ≡ self.old) }
    {
        let place = self.gateways.place_of_name(name).unwrap();
        self.take_at_gateway(alloc, place, event)
    }

    // No datagram of this number can be delivered.
    fn absent(&self, alloc: Global, number: u64) -> Result<PairStep, AllocError>
        ensures parts { IfOk result (λ step. step.parts ≡ AbsentPart number ∷ []) }
        ensures all { IfOk result (λ step. step.starved ≡ false) }
        ensures up { IfOk result (λ step. step.up ≡ sent_up self.now) }
        ensures down { IfOk result (λ step. step.down ≡ sent_down self.now) }
    {
        let mut parts = Vec::with_capacity(alloc, 1)?;
        parts.push_reserved(Part::Absent(number));
        Ok(self.step_of(parts, false))
    }

    // The relay takes the datagram of this number that was sent to it.
    fn deliver_up(&mut self, alloc: Global, number: u64) -> Result<PairStep, AllocError>
        ensures parts { ForCourse self.old (λ setup course. IfOk result (λ step.
            step.parts ≡ parts_of setup course (events.Up number))) }
        ensures next { ForCourse self.old (λ setup course. IfOk result (λ _.
            StandsFor self.new setup (with_pair_event setup course (events.Up number)))) }
        ensures all { IfOk result (λ step. step.starved ≡ false) }
        ensures up { IfOk result (λ step. step.up ≡ sent_up self.new) }
        ensures down { IfOk result (λ step. step.down ≡ sent_down self.new) }
        ensures hosts { hosts_of self.new ≡ hosts_of self.old }
        ensures err { ForCourse self.old (λ setup course. OnErr result (self.new ≡ self.old)) }
    {
        let Some(datagram) = self.up.get(number) else {
            return self.absent(alloc, number);
        };
        let bytes = Bytes::copied(alloc, datagram.bytes.as_slice())?;
        let from = datagram.from;
        self.take_at_relay(alloc, &Event::Datagram { bytes, from })
    }

    // The gateway that it is for takes the datagram of this number that the relay sent.
    fn deliver_down(&mut self, alloc: Global, number: u64) -> Result<PairStep, AllocError>
        ensures parts { ForCourse self.old (λ setup course. IfOk result (λ step.
            step.parts ≡ parts_of setup course (events.Down number))) }
        ensures next { ForCourse self.old (λ setup course. IfOk result (λ _.
            StandsFor self.new setup (with_pair_event setup course (events.Down number)))) }
        ensures all { IfOk result (λ step. step.starved ≡ false) }
        ensures up { IfOk result (λ step. step.up ≡ sent_up self.new) }
        ensures down { IfOk result (λ step. step.down ≡ sent_down self.new) }
        ensures hosts { hosts_of self.new ≡ hosts_of self.old }
        ensures err { OnErr result (self.new ≡ self.old) }
    {
        let Some(send) = self.down.get(number) else {
            return self.absent(alloc, number);
        };
        let Some(place) = self.gateways.place_of_endpoint(&send.to) else {
            return self.absent(alloc, number);
        };
        let bytes = Bytes::copied(alloc, send.bytes.as_slice())?;
        let event = GatewayEvent::Datagram {
            from: self.peer,
            bytes,
        };
        self.take_at_gateway(alloc, place, &event)
    }
}
