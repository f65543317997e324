//! Both ends on a schedule, with gateways of both families. It knows no message: the ends alone do.

ghost use Rattle.std.{specs.Prelude.{◌≡◌, false, true, map, All, IfOk, None as NoRelay}, proofs.Props.{props}};
ghost use Rattle.group_records.specs.Written.{is_of_family};
ghost use Rattle.relay_machine.specs.declared.settings.Settings.{Settings as RelaySettings};
ghost use Rattle.socket_merge.specs.FullReport.{family_by};
ghost use Rattle.amt_pair.specs.{Setup.{amt_port, relay_peer}, Members.{AreMembersAt, AreShort, AreShortSends, IsMemberAt, host_of}, OwnEndpoints.{HasOwnEndpoint}};
ghost use Rattle.amt_dual.specs.{InTurn.{is_ignored_part}, Schedule.{at_first}, Setup.{machines_of}, Twins.{AreMachinesApart, are_twins}};

use crate::at_relay::{pass, take_event};
use crate::event::DualPairEvent;
use crate::parts::{part_of, push_in_turn};
use crate::ranges::dual_event_fits;
use crate::step::{DualPairStep, DualPart, DualParts};
use amt_pair::{DownDatagrams, Gateways, NamedGateway, Part, UpDatagrams, peer_fits, settings_fit};
use amt_values::{AMT_PORT, Bytes, Endpoint, Ip, Moment, Peer};
use endpoint_membership::Rows;
use gateway_machine::{Gateway, GatewayEvent, GatewayOutcome, GatewaySettings};
use relay_machine::{Event, Relay, Settings};
use response_mac::Secret;
use std::alloc::{AllocError, Global};

// The nonces of the first messages: of the IPv4 machine of each gateway, and of the IPv6 one.
const FIRST_NONCE4: u32 = 1;

const FIRST_NONCE6: u32 = 0x8000_0001;

/// Why a dual gateway was not added.
#[derive(Clone, Copy, Debug, PartialEq, Eq)]
pub enum DualFault {
    /// Its name or its peer is another gateway's.
    Taken,
    Memory,
}

/// A relay and its dual gateways, and all datagrams that they have sent.
///
/// ```text
///   gateway a: v4, v6 --+                               +-- packets, secrets
///   gateway b: v4, v6 --+--> up 1, up 2, ..  --> relay -+
///       ^                                         |     +-- moments, which come to each machine too
///       +--------- .. , down 2, down 1 <----------+
/// ```
///
/// Both machines of a gateway have its one peer, so their datagrams have one numbering, and the relay sees
/// one endpoint. As in a pair of one family a datagram is kept under its number, and an event delivers it.
#[derive(Debug, Drop)]
pub struct DualPair {
    relay: Relay,
    // The relay's own peer, which each machine discovers.
    peer: Peer,
    // The IPv4 machine of each gateway, and after it the IPv6 one.
    gateways: Gateways,
    up: UpDatagrams,
    down: DownDatagrams,
    ghost peer_is: { peer ≡ relay_peer relay.setup.settings } by { Prim.hlevel props },
    ghost twins: { are_twins (map host_of gateways) ≡ true } by { Prim.hlevel props },
    ghost apart: { AreMachinesApart (map host_of gateways) } by { Prim.hlevel props },
    ghost own_endpoints: { All (λ host. HasOwnEndpoint host.peer) (map host_of gateways) } by { Prim.hlevel props },
    ghost up_short: { AreShort up } by { Prim.hlevel props },
    ghost down_short: { AreShortSends down } by { Prim.hlevel props },
}

impl DualPair {
    ghost use Rattle.std.specs.Prelude.{◌≡◌, ◌<◌, ◌+◌, ◌↔◌, ◌&&◌, ◌++◌, ◌∷◌, [], true, false, Contains, HoldsAt, List, Option, length, IfOk, IsErrOf, OnOk, OnErr};
    ghost use Rattle.amt_values.specs.{EndpointValue.{EndpointValue}, declared.address.Ip.{Ip as IpValue}};
    ghost use Rattle.endpoint_membership.specs.Admission.{rows_admit};
    ghost use Rattle.gateway_machine.specs.{Events.{IsEventOf}, Runs.{settings_of}, declared.settings.GatewaySettings.{GatewaySettings as MachineSettings}};
    ghost use Rattle.relay_machine.specs.{Answers.{rows_after, settings_of as relay_settings_of}, EventSize.{IsEvent}, Settings.{AreLawfulSettings}, declared.settings.Settings.{Settings as SettingsValue}};
    ghost use Rattle.response_mac.specs.declared.secret.Secret.{Secret as SecretValue};
    ghost use Rattle.amt_pair.specs.{Agreement.{CountsInTime, IsActive, wants_now}, Parts.{relay_step}, Schedule.{Member, Upward, with_relay_event}, Sent.{SentReport}, Setup.{Host, has_taken}};
    ghost use Rattle.amt_dual.specs.{Agreement.{IsMachineHeard, IsMachineInTime}, Answers.{is_machine}, Family.{is_group_of}, Parts.{dual_parts_of}, Schedule.{DualFitsItsType, DualMayCome, with_dual_pair_event}, Setup.{DualHost, machines_in}};
    ghost use Rattle.amt_dual.specs.{State.{After, DualPairAt, ForCourse, ForTwins, HasStarved, StandsFor, machines, sent_down, sent_up, twin_parts, with_twins_at}, declared.step.DualPart.TheVariants.{Absent as AbsentPart, Relay as RelayPart}};
    ghost use Rattle.socket_merge.specs.History.{same_name};
    ghost use Rattle.amt_dual.specs.declared.event.DualPairEvent.TheVariants as events;

    /// A relay at moment 0, and no gateway.
    pub fn new(alloc: Global, settings: Settings, secret: Secret) -> Result<DualPair, AllocError>
        requires { AreLawfulSettings settings }
        ensures stands { IfOk result (λ pair.
            DualPairAt pair (record { settings = settings; secret = secret; hosts = [] }) []) }
    {
        settings_fit(&settings);
        let relay = Relay::new(alloc, settings, secret)?;
        Ok(DualPair {
            relay,
            peer: Peer {
                ip: settings.relay,
                port: AMT_PORT,
            },
            gateways: Gateways::new(alloc),
            up: UpDatagrams::new(alloc),
            down: DownDatagrams::new(alloc),
        })
    }

    /// Adds a gateway of two idle machines at moment 0: its name, the peer as which the relay sees both, and
    /// the sources of their reports. Both discover the relay at its own address; the nonces of the IPv4 machine
    /// begin with 1, and those of the IPv6 one with 2^31 + 1. Nothing is said of a pair to which a gateway was
    /// added after the first step.
    pub fn add(
        &mut self,
        alloc: Global,
        name: &[u8],
        peer: Peer,
        source4: u32,
        source6: u128,
    ) -> Result<(), DualFault>
        ensures added { (settings : SettingsValue) (secret : SecretValue) (hosts : List DualHost)
            → DualPairAt self.old (record { settings = settings; secret = secret; hosts = hosts }) []
            → OnOk result (DualPairAt self.new (record {
              settings = settings;
              secret = secret;
              hosts = hosts ++ record { name = name.now; peer = peer; source4 = source4; source6 = source6 } ∷ [];
            }) []) }
        ensures taken { IsErrOf result DualFault.Taken ↔ (has_taken name.now peer (machines self.old) ≡ true) }
        ensures same { OnErr result (self.new ≡ self.old) }
    {
        peer_fits(&peer);
        if self.is_taken(name, &peer) {
            return Err(DualFault::Taken);
        }
        let Ok(both) = machines_of(alloc, &self.peer, name, &peer, source4, source6) else {
            return Err(DualFault::Memory);
        };
        match self.gateways.append(both) {
            Ok(()) => Ok(()),
            Err(_) => Err(DualFault::Memory),
        }
    }

    fn is_taken(&self, name: &[u8], peer: &Peer) -> bool
        ensures { result ≡ has_taken name.now peer.now (machines self.now) }
    {
        self.gateways.has_taken(name, peer)
    }

    /// The memberships at the relay, by tunnel endpoint and then by group.
    pub fn rows(&self, alloc: Global) -> Result<Rows, AllocError>
        ensures stands { ForCourse self.now (λ setup course. IfOk result (λ rows.
            rows ≡ rows_after setup.settings setup.secret course.relay)) }

        // What was joined is what is forwarded, in either family. For a machine that is Active, whose last full
        // report made the last entry of its endpoint that concerns its family, not longer ago than reports
        // count, the rows let in a source of a group of the family exactly where a socket of the machine does:
        // if no datagram of this machine is delayed by more than a minute, and reports count for at most
        // 99,940 seconds. Nothing is asked of the other machine.
        ensures agree { After self.now (λ setup schedule. IfOk result (λ rows.
            (machine : Member) (endpoint : EndpointValue) (report : SentReport) (group source : IpValue)
            → is_group_of machine.host.settings.v6 group ≡ true
            → CountsInTime (machines_in setup) → IsMachineInTime setup schedule machine.host
            → IsMachineHeard setup schedule machine endpoint report → IsActive machine
            → rows_admit rows endpoint group source ≡ wants_now machine group source)) }
    {
        self.relay.rows(alloc)
    }

    /// Takes one event. Where memory runs out at the first step of it, or at the second step of a delivery,
    /// nothing changes, and the event may be given again. Where it runs out at a later step of a moment, the
    /// answer says so: it holds the parts of the steps before, and the machines from there on have not heard of
    /// the moment.
    pub fn step(&mut self, alloc: Global, event: &DualPairEvent) -> Result<DualPairStep, AllocError>
        requires { DualMayCome (machines self.old) event.now }
        ensures parts { ForCourse self.old (λ setup course. IfOk result (λ step. step.starved ≡ false
            → step.parts ≡ dual_parts_of setup course event.now)) }
        ensures next { ForCourse self.old (λ setup course. IfOk result (λ step. step.starved ≡ false
            → StandsFor self.new setup (with_dual_pair_event setup course event.now))) }
        ensures starved { ForCourse self.old (λ setup course. IfOk result (λ step. step.starved ≡ true
            → HasStarved setup course event.now self.new step.parts)) }
        ensures up { IfOk result (λ step. step.up ≡ sent_up self.new) }
        ensures down { IfOk result (λ step. step.down ≡ sent_down self.new) }
        ensures hosts { machines self.new ≡ machines self.old }
        ensures err { ForCourse self.old (λ setup course. OnErr result (self.new ≡ self.old)) }

        // With `next` and `steps_extend_schedules` the schedule that led here goes on by the event.
        ensures fits { DualFitsItsType event.now }
    {
        dual_event_fits(event);
        match event {
            DualPairEvent::Moment(at) => self.take_moment(alloc, at),
            DualPairEvent::Rotate(secret) => self.take_owned(alloc, Event::Rotate(*secret)),
            DualPairEvent::Packet { bytes } => {
                let bytes = Bytes::copied(alloc, bytes.as_slice())?;
                self.take_owned(alloc, Event::Packet { bytes })
            }
            DualPairEvent::Socket { name, v6, event } => {
                self.take_call(alloc, name.as_slice(), *v6, event)
            }
            DualPairEvent::Up(number) => self.deliver_up(alloc, *number),
            DualPairEvent::Down(number) => self.deliver_down(alloc, *number),
        }
    }

    // A step with these parts.
    fn step_of(&self, parts: Vec<DualPart>, starved: bool) -> DualPairStep
        ensures parts { result.parts ≡ parts.items }
        ensures up { result.up ≡ sent_up self.now }
        ensures down { result.down ≡ sent_down self.now }
        ensures starved { result.starved ≡ starved }
    {
        DualPairStep {
            parts: DualParts::from(parts),
            up: self.up.len() as u64,
            down: self.down.len() as u64,
            starved,
        }
    }

    // The relay takes one event, as in a pair: where it sends something, it is as before.
    fn take_at_relay(&mut self, alloc: Global, event: &Event) -> Result<DualPairStep, AllocError>
        requires { IsEvent (relay_settings_of self.old.relay) event.now }
        ensures parts { ForCourse self.old (λ setup course. IfOk result (λ step.
            step.parts ≡ RelayPart (relay_step setup course event.now) ∷ [])) }
        ensures next { ForCourse self.old (λ setup course. (by : Option Upward) → IfOk result (λ _.
            StandsFor self.new setup (with_relay_event setup by event.now course))) }
        ensures all { IfOk result (λ step. step.starved ≡ false) }
        ensures up { IfOk result (λ step. step.up ≡ sent_up self.new) }
        ensures down { IfOk result (λ step. step.down ≡ sent_down self.new) }
        ensures hosts { machines self.new ≡ machines self.old }
        ensures err { ForCourse self.old (λ setup course. OnErr result (self.new ≡ self.old)) }
    {
        let mut parts = Vec::with_capacity(alloc, 1)?;
        let step = take_event(&mut self.relay, alloc, event, &mut self.down)?;
        parts.push_reserved(DualPart::Relay(step));
        Ok(self.step_of(parts, false))
    }

    // The same of an event that nobody needs any more.
    fn take_owned(&mut self, alloc: Global, event: Event) -> Result<DualPairStep, AllocError>
        requires { IsEvent (relay_settings_of self.old.relay) event }
        ensures parts { ForCourse self.old (λ setup course. IfOk result (λ step.
            step.parts ≡ RelayPart (relay_step setup course event) ∷ [])) }
        ensures next { ForCourse self.old (λ setup course. (by : Option Upward) → IfOk result (λ _.
            StandsFor self.new setup (with_relay_event setup by event course))) }
        ensures all { IfOk result (λ step. step.starved ≡ false) }
        ensures up { IfOk result (λ step. step.up ≡ sent_up self.new) }
        ensures down { IfOk result (λ step. step.down ≡ sent_down self.new) }
        ensures hosts { machines self.new ≡ machines self.old }
        ensures err { ForCourse self.old (λ setup course. OnErr result (self.new ≡ self.old)) }
    {
        let step = self.take_at_relay(alloc, &event);
        drop(event);
        step
    }

    // A moment comes to the relay, and then to each machine.
    fn take_moment(&mut self, alloc: Global, at: &Moment) -> Result<DualPairStep, AllocError>
        ensures parts { ForCourse self.old (λ setup course. IfOk result (λ step. step.starved ≡ false
            → step.parts ≡ dual_parts_of setup course (events.Moment at.now))) }
        ensures next { ForCourse self.old (λ setup course. IfOk result (λ step. step.starved ≡ false
            → StandsFor self.new setup (with_dual_pair_event setup course (events.Moment at.now)))) }
        ensures starved { ForCourse self.old (λ setup course. IfOk result (λ step. step.starved ≡ true
            → HasStarved setup course (events.Moment at.now) self.new step.parts)) }
        ensures up { IfOk result (λ step. step.up ≡ sent_up self.new) }
        ensures down { IfOk result (λ step. step.down ≡ sent_down self.new) }
        ensures hosts { machines self.new ≡ machines self.old }
        ensures err { ForCourse self.old (λ setup course. OnErr result (self.new ≡ self.old)) }
    {
        let mut parts = Vec::with_capacity(alloc, 1 + self.gateways.len())?;
        let mut machines_parts = Vec::with_capacity(alloc, self.gateways.len())?;
        let step = pass(&mut self.relay, alloc, at)?;
        parts.push_reserved(DualPart::Relay(step));
        let came_to_all = self
            .gateways
            .take_moment(alloc, at, &mut self.up, &mut machines_parts);
        push_in_turn(machines_parts, &mut parts);
        Ok(self.step_of(parts, !came_to_all))
    }

    // The place of the IPv6 machine that follows the machine at this place.
    fn next_place(&self, place: usize) -> usize
        requires { place < length self.now.gateways }
        ensures { result ≡ place + 1 }
    {
        let count = self.gateways.len();
        prove!(place < count);
        place + 1
    }

    // The place of the machine of this name and family.
    fn place_of(&self, name: &[u8], v6: bool) -> usize
        requires { (host : Host) × Contains (machines self.now) host × (host.name ≡ name.now) }
        ensures within { result < length self.now.gateways }
        ensures found { HoldsAt (λ one. (same_name name.now one.name && is_machine v6 (settings_of one.gateway).v6) ≡ true)
            self.now.gateways result }
    {
        let first = self.gateways.place_of_name(name).unwrap();
        if v6 { self.next_place(first) } else { first }
    }

    // The machine of this name and family takes a socket call.
    fn take_call(
        &mut self,
        alloc: Global,
        name: &[u8],
        v6: bool,
        event: &GatewayEvent,
    ) -> Result<DualPairStep, AllocError>
        requires { DualMayCome (machines self.old) (events.Socket name.now v6 event.now) }
        ensures parts { ForCourse self.old (λ setup course. IfOk result (λ step.
            step.parts ≡ dual_parts_of setup course (events.Socket name.now v6 event.now))) }
        ensures next { ForCourse self.old (λ setup course. IfOk result (λ _.
            StandsFor self.new setup (with_dual_pair_event setup course (events.Socket name.now v6 event.now)))) }
        ensures all { IfOk result (λ step. step.starved ≡ false) }
        ensures up { IfOk result (λ step. step.up ≡ sent_up self.new) }
        ensures down { IfOk result (λ step. step.down ≡ sent_down self.new) }
        ensures hosts { machines self.new ≡ machines self.old }
        ensures err { OnErr result (self.new ≡ self.old) }
    {
        let place = self.place_of(name, v6);
        let mut parts = Vec::with_capacity(alloc, 1)?;
        let part = self.gateways.take_at(alloc, place, event, &mut self.up)?;
        parts.push_reserved(part_of(part, v6));
        Ok(self.step_of(parts, false))
    }

    // No datagram of this number can be delivered.
    fn absent(&self, alloc: Global, number: u64) -> Result<DualPairStep, AllocError>
        ensures parts { IfOk result (λ step. step.parts ≡ AbsentPart number ∷ []) }
        ensures all { IfOk result (λ step. step.starved ≡ false) }
        ensures up { IfOk result (λ step. step.up ≡ sent_up self.now) }
        ensures down { IfOk result (λ step. step.down ≡ sent_down self.now) }
    {
        let mut parts = Vec::with_capacity(alloc, 1)?;
        parts.push_reserved(DualPart::Absent(number));
        Ok(self.step_of(parts, false))
    }

    // The relay takes the datagram of this number that was sent to it.
    fn deliver_up(&mut self, alloc: Global, number: u64) -> Result<DualPairStep, AllocError>
        ensures parts { ForCourse self.old (λ setup course. IfOk result (λ step.
            step.parts ≡ dual_parts_of setup course (events.Up number))) }
        ensures next { ForCourse self.old (λ setup course. IfOk result (λ _.
            StandsFor self.new setup (with_dual_pair_event setup course (events.Up number)))) }
        ensures all { IfOk result (λ step. step.starved ≡ false) }
        ensures up { IfOk result (λ step. step.up ≡ sent_up self.new) }
        ensures down { IfOk result (λ step. step.down ≡ sent_down self.new) }
        ensures hosts { machines self.new ≡ machines self.old }
        ensures err { ForCourse self.old (λ setup course. OnErr result (self.new ≡ self.old)) }
    {
        let Some(datagram) = self.up.get(number) else {
            return self.absent(alloc, number);
        };
        let bytes = Bytes::copied(alloc, datagram.bytes.as_slice())?;
        let from = datagram.from;
        self.take_owned(alloc, Event::Datagram { bytes, from })
    }

    // The gateway that it is for takes the datagram of this number that the relay sent.
    fn deliver_down(&mut self, alloc: Global, number: u64) -> Result<DualPairStep, AllocError>
        ensures parts { ForCourse self.old (λ setup course. IfOk result (λ step.
            step.parts ≡ dual_parts_of setup course (events.Down number))) }
        ensures next { ForCourse self.old (λ setup course. IfOk result (λ _.
            StandsFor self.new setup (with_dual_pair_event setup course (events.Down number)))) }
        ensures all { IfOk result (λ step. step.starved ≡ false) }
        ensures up { IfOk result (λ step. step.up ≡ sent_up self.new) }
        ensures down { IfOk result (λ step. step.down ≡ sent_down self.new) }
        ensures hosts { machines self.new ≡ machines self.old }
        ensures err { ForCourse self.old (λ setup course. OnErr result (self.new ≡ self.old)) }
    {
        let Some(send) = self.down.get(number) else {
            return self.absent(alloc, number);
        };
        let Some(place) = self.gateways.place_of_endpoint(&send.to) else {
            return self.absent(alloc, number);
        };
        let bytes = Bytes::copied(alloc, send.bytes.as_slice())?;
        let event = GatewayEvent::Datagram {
            from: self.peer,
            bytes,
        };
        let step = self.deliver_at(alloc, place, &event);
        drop(event);
        step
    }

    // A delivery comes to the IPv4 machine at this place, and where that one ignores it, to the IPv6 machine
    // after it.
    fn deliver_at(
        &mut self,
        alloc: Global,
        place: usize,
        event: &GatewayEvent,
    ) -> Result<DualPairStep, AllocError>
        requires place { place + 1 < length self.old.gateways }
        requires event { (settings : MachineSettings) → IsEventOf settings event.now }
        ensures parts { ForTwins self.old place (λ setup course v4 v6. IfOk result (λ step.
            step.parts ≡ twin_parts event.now v4 v6)) }
        ensures next { ForTwins self.old place (λ setup course v4 v6. IfOk result (λ _.
            StandsFor self.new setup (with_twins_at course event.now place v4 v6))) }
        ensures all { IfOk result (λ step. step.starved ≡ false) }
        ensures up { IfOk result (λ step. step.up ≡ sent_up self.new) }
        ensures down { IfOk result (λ step. step.down ≡ sent_down self.new) }
        ensures hosts { machines self.new ≡ machines self.old }
        ensures err { ForTwins self.old place (λ setup course v4 v6. OnErr result (self.new ≡ self.old)) }
    {
        let mut parts = Vec::with_capacity(alloc, 2)?;
        let next = self.next_place(place);
        let v4 = self.gateways.take_at(alloc, place, event, &mut self.up)?;
        let ignored = was_ignored(&v4);
        parts.push_reserved(part_of(v4, false));
        if !ignored {
            return Ok(self.step_of(parts, false));
        }
        let v6 = self.gateways.take_at(alloc, next, event, &mut self.up)?;
        parts.push_reserved(part_of(v6, true));
        Ok(self.step_of(parts, false))
    }
}

// The machine of one family, which is idle.
fn machine(
    alloc: Global,
    relay: &Peer,
    name: &[u8],
    peer: &Peer,
    v6: bool,
    source: Ip,
) -> Result<NamedGateway, AllocError>
    requires { is_of_family (family_by v6) source ≡ true }
    ensures host { IfOk result (λ named. host_of named ≡ record { name = name.now; peer = peer.now; settings = record { v6 = v6; discovery = relay.now; relay = NoRelay; port = amt_port; source = source; linux_relay = false } }) }
    ensures stands { IfOk result (λ named. IsMemberAt named (at_first (host_of named))) }
{
    let settings = GatewaySettings {
        v6,
        discovery: *relay,
        relay: None,
        port: AMT_PORT,
        source,
        linux_relay: false,
    };
    let first = if v6 { FIRST_NONCE6 } else { FIRST_NONCE4 };
    Ok(NamedGateway {
        name: Bytes::copied(alloc, name)?,
        peer: *peer,
        gateway: Gateway::new(alloc, settings, first)?,
    })
}

// Both machines of a gateway, the IPv4 one first.
fn machines_of(
    alloc: Global,
    relay: &Peer,
    name: &[u8],
    peer: &Peer,
    source4: u32,
    source6: u128,
) -> Result<Vec<NamedGateway>, AllocError>
    ensures hosts { (settings : RelaySettings) → relay.now ≡ relay_peer settings
        → IfOk result (λ both. map host_of both.items ≡ machines_of settings
        (record { name = name.now; peer = peer.now; source4 = source4; source6 = source6 })) }
    ensures stand { IfOk result (λ both. AreMembersAt both.items (map at_first (map host_of both.items))) }
{
    let mut both = Vec::with_capacity(alloc, 2)?;
    both.push_reserved(machine(alloc, relay, name, peer, false, Ip::V4(source4))?);
    both.push_reserved(machine(alloc, relay, name, peer, true, Ip::V6(source6))?);
    Ok(both)
}

// Whether the part is that of a machine that ignored a datagram.
fn was_ignored(part: &Part) -> bool
    ensures { result ≡ is_ignored_part part.now }
{
    match part {
        Part::Gateway { step, .. } => match step.outcome {
            GatewayOutcome::Ignored(_) => true,
            _ => false,
        },
        _ => false,
    }
}
