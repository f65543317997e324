//! The gateways of a pair.

ghost use Rattle.std.specs.{Prelude.{◌≡◌, ◌<◌, ◌≤◌, ◌+◌, ◌^◌, ◌||◌, ℕ, HoldsAt, IsTrue, vec_len, vec_capacity, ◌++◌, ◌∷◌, [], false, true, get_or, length, map, set, All, List, IfOk, OnOk, OnErr, IfSome, IfNone}, List.{AllWithin, list_any}};
ghost use Rattle.amt_values.specs.Endpoint.{endpoint_of};
ghost use Rattle.gateway_machine.specs.{Answers.{same_peer}, Events.{IsEventOf}, Outcomes.{IsRefused}, Runs.{settings_of}};
ghost use Rattle.amt_pair.specs.{Parts.{gateway_part}, Schedule.{Member, answer_at, is_endpoint, upwards_on, with_gateway_event}, Members.{AreMembersAt, AreShort, HasCome, HasComeTo, IsMemberAt, host_of, kept_upward}};
ghost use Rattle.socket_merge.specs.History.{same_name};

use crate::datagrams::{UpDatagrams, datagrams_from};
use crate::step::Part;
use amt_values::{Bytes, Endpoint, Moment, Peer};
use gateway_machine::{Gateway, GatewayEvent};
use std::alloc::{AllocError, Global};
use std::marker::Model;

/// A gateway by its name, and the peer as which the relay sees it.
#[derive(Debug, Drop)]
pub struct NamedGateway {
    pub name: Bytes,
    pub peer: Peer,
    pub gateway: Gateway,
}

impl NamedGateway {
    /// Takes one event, and keeps the datagrams that it sends. Where memory runs out nothing changes: a copy
    /// of the gateway takes the step, and is kept once the datagrams are.
    pub fn take(
        &mut self,
        alloc: Global,
        event: &GatewayEvent,
        up: &mut UpDatagrams,
    ) -> Result<Part, AllocError>
        requires event { IsEventOf (settings_of self.old.gateway) event.now }
        requires short { AreShort up.old }
        ensures part { (member : Member) → IsMemberAt self.old member
            → IfOk result (λ part. part ≡ gateway_part event.now member) }
        ensures next { (member : Member) → IsMemberAt self.old member
            → IfOk result (λ _. IsMemberAt self.new (with_gateway_event event.now member)) }
        ensures sent { (member : Member) → IsMemberAt self.old member
            → IfOk result (λ _. up.new ≡ up.old ++ map kept_upward (upwards_on event.now member)) }
        ensures host { host_of self.new ≡ host_of self.old }
        ensures same { OnErr result (self.new ≡ self.old) }
        ensures same_up { OnErr result (up.new ≡ up.old) }
        ensures short { AreShort up.new }

        // A datagram that is ignored changes nothing.
        ensures ignored { (member : Member) → IsMemberAt self.old member
            → IsRefused (answer_at member event.now).outcome
            → IfOk result (λ _. (self.new ≡ self.old) × (up.new ≡ up.old)) }
    {
        let name = Bytes::copied(alloc, self.name.as_slice())?;
        let mut gateway = self.gateway.copied(alloc)?;
        let step = gateway.step(alloc, event)?;
        let sent = datagrams_from(alloc, &self.peer, step.sends.as_slice())?;
        up.append(sent)?;
        self.gateway = gateway;
        Ok(Part::Gateway { name, step })
    }

    fn has_name(&self, name: &[u8]) -> bool
        ensures { result ≡ same_name name.now self.now.name }
    {
        name == self.name.as_slice()
    }

    // Whether another gateway of this name or this peer could not be told from it.
    fn clashes(&self, name: &[u8], peer: &Peer) -> bool
        ensures { result ≡ (same_name name.now self.now.name || same_peer self.now.peer peer.now) }
    {
        self.has_name(name) || self.peer == *peer
    }

    fn is_at(&self, endpoint: &Endpoint) -> bool
        ensures { result ≡ is_endpoint endpoint.now (endpoint_of self.now.peer) }
    {
        match Endpoint::of(&self.peer) {
            Some(other) => *endpoint == other,
            None => false,
        }
    }
}

/// Gateways in the order in which they were added.
#[derive(Debug, Drop)]
pub struct Gateways {
    gateways: Vec<NamedGateway>,
}

impl Model for Gateways {
    ghost use Rattle.std.specs.Prelude.{List};
    ghost use Rattle.amt_pair.specs.declared.gateways.NamedGateway.{NamedGateway};

    ghost Value = { List NamedGateway };

    ghost view = { λ all. all.gateways.items };
}

impl Gateways {
    pub fn new(alloc: Global) -> Gateways
        ensures { result ≡ [] }
    {
        Gateways {
            gateways: Vec::new(alloc),
        }
    }

    pub fn len(&self) -> usize
        ensures value { result ≡ length self.now }
        ensures bound { result < 2 ^ 63 }
    {
        self.gateways.len()
    }

    pub fn push(&mut self, gateway: NamedGateway) -> Result<(), AllocError>
        ensures ok { OnOk result (self.new ≡ self.old ++ gateway ∷ []) }
        ensures err { OnErr result (self.new ≡ self.old) }
    {
        self.gateways.push(gateway)?;
        Ok(())
    }

    /// Puts more gateways at the end. Out of memory nothing changes.
    pub fn append(&mut self, more: Vec<NamedGateway>) -> Result<(), AllocError>
        ensures ok { OnOk result (self.new ≡ self.old ++ more.items) }
        ensures err { OnErr result (self.new ≡ self.old) }
    {
        let mut more = more;
        self.gateways.append(&mut more)
    }

    /// The place of the first gateway of this name.
    pub fn place_of_name(&self, name: &[u8]) -> Option<usize>
        ensures within { IfSome result (λ place. place < length self.now) }
        ensures found { IfSome result (HoldsAt (λ one. same_name name.now one.name ≡ true) self.now) }
        ensures first { IfSome result (AllWithin (λ one. same_name name.now one.name ≡ false) self.now 0) }
        ensures none { IfNone result (All (λ one. same_name name.now one.name ≡ false) self.now) }
    {
        self.gateways.iter().position(|one| one.has_name(name))
    }

    /// The place of the first gateway at this endpoint.
    pub fn place_of_endpoint(&self, endpoint: &Endpoint) -> Option<usize>
        ensures within { IfSome result (λ place. place < length self.now) }
        ensures found { IfSome result (HoldsAt (λ one. is_endpoint endpoint.now (endpoint_of one.peer) ≡ true) self.now) }
        ensures first { IfSome result (AllWithin (λ one. is_endpoint endpoint.now (endpoint_of one.peer) ≡ false) self.now 0) }
        ensures none { IfNone result (All (λ one. is_endpoint endpoint.now (endpoint_of one.peer) ≡ false) self.now) }
    {
        self.gateways.iter().position(|one| one.is_at(endpoint))
    }

    /// Whether some gateway has this name or this peer.
    pub fn has_taken(&self, name: &[u8], peer: &Peer) -> bool
        ensures { result ≡ list_any (λ one. same_name name.now one.name || same_peer one.peer peer.now) self.now }
    {
        self.gateways.iter().any(|one| one.clashes(name, peer))
    }

    /// An event comes to the gateway at this place.
    pub fn take_at(
        &mut self,
        alloc: Global,
        place: usize,
        event: &GatewayEvent,
        up: &mut UpDatagrams,
    ) -> Result<Part, AllocError>
        requires place { place < length self.old }
        requires event { HoldsAt (λ one. IsEventOf (settings_of one.gateway) event.now) self.old place }
        requires short { AreShort up.old }
        ensures part { (members : List Member) (member : Member) → AreMembersAt self.old members
            → get_or members place member ≡ member
            → IfOk result (λ part. part ≡ gateway_part event.now member) }
        ensures next { (members : List Member) (member : Member) → AreMembersAt self.old members
            → get_or members place member ≡ member
            → IfOk result (λ _. AreMembersAt self.new (set members place (with_gateway_event event.now member))) }
        ensures sent { (members : List Member) (member : Member) → AreMembersAt self.old members
            → get_or members place member ≡ member
            → IfOk result (λ _. up.new ≡ up.old ++ map kept_upward (upwards_on event.now member)) }
        ensures hosts { map host_of self.new ≡ map host_of self.old }
        ensures same { OnErr result (self.new ≡ self.old) }
        ensures same_up { OnErr result (up.new ≡ up.old) }
        ensures short { AreShort up.new }
        ensures ignored { (members : List Member) (member : Member) → AreMembersAt self.old members
            → get_or members place member ≡ member
            → IsRefused (answer_at member event.now).outcome
            → IfOk result (λ _. (self.new ≡ self.old) × (up.new ≡ up.old)) }
    {
        self.gateways[place].take(alloc, event, up)
    }

    /// A moment comes to each gateway in turn. Where memory runs out it stops: that gateway and those after
    /// it take no step, and the answer is false. There is room for a part of each.
    pub fn take_moment(
        &mut self,
        alloc: Global,
        at: &Moment,
        up: &mut UpDatagrams,
        parts: &mut Vec<Part>,
    ) -> bool
        requires room { vec_len parts.old + length self.old ≤ vec_capacity parts.old }
        requires short { AreShort up.old }
        ensures all { (members : List Member) → AreMembersAt self.old members → IsTrue result
            → HasCome at.now members [] self.new up.old up.new parts.old.items parts.new.items }
        ensures some { (members : List Member) → AreMembersAt self.old members → result ≡ false
            → (count : ℕ) × (count < length members)
            × HasComeTo at.now count members self.new up.old up.new parts.old.items parts.new.items }
        ensures hosts { map host_of self.new ≡ map host_of self.old }
        ensures short { AreShort up.new }
        ensures few { vec_len parts.new ≤ vec_len parts.old + length self.old }
    {
        take_each(&mut self.gateways, alloc, at, up, parts)
    }
}

// A moment comes to each of these in turn, as far as memory reaches.
fn take_each(
    gateways: &mut [NamedGateway],
    alloc: Global,
    at: &Moment,
    up: &mut UpDatagrams,
    parts: &mut Vec<Part>,
) -> bool
    requires room { vec_len parts.old + length gateways.old ≤ vec_capacity parts.old }
    requires short { AreShort up.old }
    ensures all { (members : List Member) → AreMembersAt gateways.old members → IsTrue result
        → HasCome at.now members [] gateways.new up.old up.new parts.old.items parts.new.items }
    ensures some { (members : List Member) → AreMembersAt gateways.old members → result ≡ false
        → (count : ℕ) × (count < length members)
        × HasComeTo at.now count members gateways.new up.old up.new parts.old.items parts.new.items }
    ensures hosts { map host_of gateways.new ≡ map host_of gateways.old }
    ensures short { AreShort up.new }
    ensures few { vec_len parts.new ≤ vec_len parts.old + length gateways.old }
{
    let event = GatewayEvent::Moment(*at);
    for gateway in gateways.iter_mut() {
        let Ok(part) = gateway.take(alloc, &event, up) else {
            return false;
        };
        parts.push_reserved(part);
    }
    true
}
