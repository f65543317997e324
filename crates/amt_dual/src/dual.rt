//! A gateway of both families: two machines on one socket. It knows no message.

ghost use Rattle.std.specs.Prelude.{◌≡◌, ◌++◌, ◌∷◌, [], true, IfOk, OnErr};
ghost use Rattle.amt_pair.specs.Parts.{gateway_step};
ghost use Rattle.gateway_machine.specs.{Events.{IsEventOf}, Outcomes.{IsRefused}, Runs.{After, GatewayAt, answer_after, settings_of}, declared.event.GatewayEvent.TheVariants.{Moment as Passes}};
ghost use Rattle.amt_dual.specs.Answers.{is_ignored, nonce_for};

use crate::event::DualEvent;
use crate::step::DualStep;
use amt_values::{Bytes, Ip, Moment, Peer};
use gateway_machine::{Gateway, GatewayEvent, GatewayOutcome, GatewaySettings, GatewayStep};
use std::alloc::{AllocError, Global};

// How far the first nonce of the IPv6 machine is from that of the IPv4 one.
const NONCES_APART: u32 = 0x8000_0000;

/// A gateway of both families: a machine for IPv4 groups and one for IPv6 groups, which send and hear by one
/// socket (RFC 7450, section 4.1.2).
///
/// ```text
///                  +-- IPv4 machine --> Update with IGMPv3
///   one socket <---+
///                  +-- IPv6 machine --> Update with MLDv2
///
///   moment         IPv4, then IPv6
///   socket call    the machine that is named
///   datagram       IPv4, and where it is ignored there, IPv6
/// ```
#[derive(Debug, Drop)]
pub struct Dual {
    v4: Gateway,
    v6: Gateway,
}

impl Dual {
    ghost use Rattle.std.specs.Prelude.{◌≡◌, ◌≤◌, ◌||◌, ℕ, List, length, Bool, true, false, is_some, IfOk, OnErr};
    ghost use Rattle.amt_values.specs.declared.peer.Peer.{Peer as PeerValue};
    ghost use Rattle.gateway_machine.specs.{Answers.{call_in}, Events.{IsEventOf}, declared.{event.GatewayEvent.TheVariants.{Datagram as Heard}, settings.GatewaySettings.{GatewaySettings as MachineSettings}}};
    ghost use Rattle.socket_merge.specs.Interface.{wants};
    ghost use Rattle.amt_dual.specs.Answers.{AreLawfulMachines, AreSteps, DualAfter, DualAt, HasStarvedBetween, HaveRefused, MayComeTo, dual_start, machine_run, settings_at, with_dual_event};
    ghost use Rattle.amt_dual.specs.declared.event.DualEvent.TheVariants as events;

    /// A dual gateway at moment 0: both machines are idle, without sockets. The first message of the IPv4
    /// machine has this nonce, and that of the IPv6 machine the nonce that is 2^31 more, which wraps.
    pub fn new(
        alloc: Global,
        v4: GatewaySettings,
        v6: GatewaySettings,
        nonce: u32,
    ) -> Result<Dual, AllocError>
        requires { AreLawfulMachines (record { v4 = v4; v6 = v6; nonce = nonce }) }
        ensures stands { IfOk result (λ dual. DualAt dual (record { v4 = v4; v6 = v6; nonce = nonce }) dual_start) }
    {
        Ok(Dual {
            v4: Gateway::new(alloc, v4, nonce)?,
            v6: Gateway::new(alloc, v6, nonce6(nonce))?,
        })
    }

    /// Whether some socket of the group wants the source, at either machine. It takes no memory.
    pub fn admits(&self, group: &Ip, source: &Ip) -> bool
        ensures { DualAfter self.now (λ settings course. result ≡
            (wants (machine_run settings course false).history group.now source.now
            || wants (machine_run settings course true).history group.now source.now)) }
    {
        self.v4.admits(group, source) || self.v6.admits(group, source)
    }

    /// Takes one event. Where memory runs out at the first step of it, or at a datagram's second one, nothing
    /// changes, and the event may be given again. Where it runs out at a moment's second step, the answer says
    /// so: the IPv6 machine has not heard of the moment.
    pub fn step(&mut self, alloc: Global, event: &DualEvent) -> Result<DualStep, AllocError>
        requires { MayComeTo self.old event.now }
        ensures steps { DualAfter self.old (λ settings course. IfOk result (λ step. step.starved ≡ false
            → AreSteps settings course event.now step)) }
        ensures next { DualAfter self.old (λ settings course. IfOk result (λ step. step.starved ≡ false
            → DualAt self.new settings (with_dual_event settings course event.now))) }
        ensures starved { DualAfter self.old (λ settings course. IfOk result (λ step. step.starved ≡ true
            → HasStarvedBetween settings course event.now self.new step)) }
        ensures settings { (family : Bool) → settings_at self.new family ≡ settings_at self.old family }
        ensures err { OnErr result (self.new ≡ self.old) }

        // A datagram that both machines ignore and a call that is refused change nothing, so nobody who sends
        // them can fill the memory of a dual gateway or move it.
        ensures same { IfOk result (λ step. HaveRefused step → self.new ≡ self.old) }
    {
        match event {
            DualEvent::Moment(at) => self.take_moment(alloc, at),
            DualEvent::Datagram { from, bytes } => self.take_datagram(
                alloc,
                from,
                bytes.as_slice(),
            ),
            DualEvent::Socket { v6, event } => self.take_call(alloc, *v6, event),
        }
    }

    // A moment comes to the IPv4 machine, and then to the IPv6 one.
    fn take_moment(&mut self, alloc: Global, at: &Moment) -> Result<DualStep, AllocError>
        ensures steps { DualAfter self.old (λ settings course. IfOk result (λ step. step.starved ≡ false
            → AreSteps settings course (events.Moment at.now) step)) }
        ensures next { DualAfter self.old (λ settings course. IfOk result (λ step. step.starved ≡ false
            → DualAt self.new settings (with_dual_event settings course (events.Moment at.now)))) }
        ensures starved { DualAfter self.old (λ settings course. IfOk result (λ step. step.starved ≡ true
            → HasStarvedBetween settings course (events.Moment at.now) self.new step)) }
        ensures settings { (family : Bool) → settings_at self.new family ≡ settings_at self.old family }
        ensures err { OnErr result (self.new ≡ self.old) }
        ensures same { IfOk result (λ step. HaveRefused step → self.new ≡ self.old) }
    {
        let v4 = pass_at(&mut self.v4, alloc, at)?;
        match pass_at(&mut self.v6, alloc, at) {
            Ok(v6) => Ok(DualStep {
                v4: Some(v4),
                v6: Some(v6),
                starved: false,
            }),
            Err(_) => Ok(DualStep {
                v4: Some(v4),
                v6: None,
                starved: true,
            }),
        }
    }

    // A datagram comes to the IPv4 machine, and where it is ignored there to the IPv6 one.
    fn take_datagram(
        &mut self,
        alloc: Global,
        from: &Peer,
        bytes: &[u8],
    ) -> Result<DualStep, AllocError>
        requires { length bytes.now ≤ 65535 }
        ensures steps { DualAfter self.old (λ settings course. IfOk result (λ step.
            AreSteps settings course (events.Datagram from.now bytes.now) step)) }
        ensures next { DualAfter self.old (λ settings course. IfOk result (λ _.
            DualAt self.new settings (with_dual_event settings course (events.Datagram from.now bytes.now)))) }
        ensures all { IfOk result (λ step. step.starved ≡ false) }
        ensures settings { (family : Bool) → settings_at self.new family ≡ settings_at self.old family }
        ensures err { OnErr result (self.new ≡ self.old) }
        ensures same { IfOk result (λ step. HaveRefused step → self.new ≡ self.old) }
    {
        let bytes = Bytes::copied(alloc, bytes)?;
        let event = GatewayEvent::Datagram { from: *from, bytes };
        let step = self.take_heard(alloc, &event);
        drop(event);
        step
    }

    // The datagram of this event does. Apart from the copy, so that it isn't alive where a step ends early.
    fn take_heard(&mut self, alloc: Global, event: &GatewayEvent) -> Result<DualStep, AllocError>
        requires { (settings : MachineSettings) → IsEventOf settings event.now }
        ensures steps { DualAfter self.old (λ settings course. (from : PeerValue) (bytes : List ℕ) → event.now ≡ Heard from bytes
            → IfOk result (AreSteps settings course (events.Datagram from bytes))) }
        ensures next { DualAfter self.old (λ settings course. (from : PeerValue) (bytes : List ℕ) → event.now ≡ Heard from bytes
            → IfOk result (λ _. DualAt self.new settings (with_dual_event settings course (events.Datagram from bytes)))) }
        ensures all { IfOk result (λ step. step.starved ≡ false) }
        ensures settings { (family : Bool) → settings_at self.new family ≡ settings_at self.old family }
        ensures err { OnErr result (self.new ≡ self.old) }
        ensures same { IfOk result (λ step. HaveRefused step → self.new ≡ self.old) }
    {
        let v4 = take_at(&mut self.v4, alloc, event)?;
        if !was_ignored(&v4) {
            return Ok(DualStep {
                v4: Some(v4),
                v6: None,
                starved: false,
            });
        }
        let v6 = take_at(&mut self.v6, alloc, event)?;
        Ok(DualStep {
            v4: Some(v4),
            v6: Some(v6),
            starved: false,
        })
    }

    // The machine of this family takes a socket call.
    fn take_call(
        &mut self,
        alloc: Global,
        v6: bool,
        event: &GatewayEvent,
    ) -> Result<DualStep, AllocError>
        requires call { is_some (call_in event.now) ≡ true }
        requires event { IsEventOf (settings_at self.old v6) event.now }
        ensures steps { DualAfter self.old (λ settings course. IfOk result (λ step.
            AreSteps settings course (events.Socket v6 event.now) step)) }
        ensures next { DualAfter self.old (λ settings course. IfOk result (λ _.
            DualAt self.new settings (with_dual_event settings course (events.Socket v6 event.now)))) }
        ensures all { IfOk result (λ step. step.starved ≡ false) }
        ensures settings { (family : Bool) → settings_at self.new family ≡ settings_at self.old family }
        ensures err { OnErr result (self.new ≡ self.old) }
        ensures same { IfOk result (λ step. HaveRefused step → self.new ≡ self.old) }
    {
        if v6 {
            let step = take_at(&mut self.v6, alloc, event)?;
            Ok(DualStep {
                v4: None,
                v6: Some(step),
                starved: false,
            })
        } else {
            let step = take_at(&mut self.v4, alloc, event)?;
            Ok(DualStep {
                v4: Some(step),
                v6: None,
                starved: false,
            })
        }
    }
}

// The first nonce of the IPv6 machine, by that of the IPv4 one.
fn nonce6(nonce: u32) -> u32
    ensures { result ≡ nonce_for nonce true }
{
    nonce.wrapping_add(NONCES_APART)
}

// A machine takes one event.
fn take_at(
    machine: &mut Gateway,
    alloc: Global,
    event: &GatewayEvent,
) -> Result<GatewayStep, AllocError>
    requires { IsEventOf (settings_of machine.old) event.now }
    ensures step { After machine.old (λ settings first events. IfOk result (λ step.
        step ≡ gateway_step (answer_after settings first events event.now))) }
    ensures next { After machine.old (λ settings first events. IfOk result (λ _.
        GatewayAt machine.new settings first (events ++ event.now ∷ []))) }
    ensures settings { settings_of machine.new ≡ settings_of machine.old }
    ensures err { OnErr result (machine.new ≡ machine.old) }
    ensures same { IfOk result (λ step. IsRefused step.outcome → machine.new ≡ machine.old) }
{
    machine.step(alloc, event)
}

// A machine hears of a moment.
fn pass_at(machine: &mut Gateway, alloc: Global, at: &Moment) -> Result<GatewayStep, AllocError>
    ensures step { After machine.old (λ settings first events. IfOk result (λ step.
        step ≡ gateway_step (answer_after settings first events (Passes at.now)))) }
    ensures next { After machine.old (λ settings first events. IfOk result (λ _.
        GatewayAt machine.new settings first (events ++ Passes at.now ∷ []))) }
    ensures settings { settings_of machine.new ≡ settings_of machine.old }
    ensures err { OnErr result (machine.new ≡ machine.old) }
    ensures same { IfOk result (λ step. IsRefused step.outcome → machine.new ≡ machine.old) }
{
    let event = GatewayEvent::Moment(*at);
    let step = take_at(machine, alloc, &event);
    drop(event);
    step
}

// Whether a datagram was ignored.
fn was_ignored(step: &GatewayStep) -> bool
    ensures { result ≡ is_ignored step.now.outcome }
{
    match step.outcome {
        GatewayOutcome::Ignored(_) => true,
        _ => false,
    }
}
