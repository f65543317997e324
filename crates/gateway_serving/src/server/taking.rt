//! How a running gateway takes an event, sends what the machine says, and hands on a packet.
ghost use Rattle.std.specs.Prelude.{◌≡◌, ◌≤◌, ◌<◌, ◌+◌, ◌^◌, [], ◌∷◌, length, map, IsOk, OnErr, OnOk};
ghost use Rattle.amt_ports.specs.Devices.{LinkSeen, OutSeen, link_at, out_at};
ghost use Rattle.gateway_machine.specs.{Events.{IsDraw, IsEventOf}, Outcomes.{NeedsNoMemory}, Runs.{answer_after}};
ghost use Rattle.gateway_serving.specs.{Sending.{delivery_to, to_peer}, Servers.{events_in, settings_in, setup_in, tally_in}, Stages.{OffersSo}, Taking.{HasSent}, Traces.{WorkDoes, at_work, nothing, taking}};

use super::Server;
use crate::counts::Counts;
use amt_ports::{Link, OutLink};
use amt_values::{Bytes, Peer};
use gateway_machine::{GatewayEvent, GatewayStep, PeerSend};
use std::alloc::{AllocError, Global};

// Tries to send each, in order, and counts those that the link doesn't take. None is tried again.
fn send_all<L: Link>(link: &mut L, sends: &[PeerSend], counts: &mut Counts)
    requires room { counts.old.unsent + length sends.now < 2 ^ 64 }
    ensures sent { (out : OutSeen) → HasSent (link_at L.Link link.old) (link_at L.Link link.new) out out counts.old counts.new (map to_peer sends.now) [] }
    ensures others { counts.new ≡ record counts.old { unsent = counts.new.unsent } }
    ensures coming { L.coming link.new ≡ L.coming link.old }
    ensures faults { L.receive_faults link.new ≡ L.receive_faults link.old }
    ensures waits { L.longest_wait link.new ≡ L.longest_wait link.old }
    ensures few { counts.new.unsent ≤ counts.old.unsent + length sends.now }
{
    for send in sends {
        let sent = link.send(&send.to, send.bytes.as_slice());
        counts.count_send(sent.is_ok());
    }
}

// Hands on the packet, if there is one, and counts it.
fn hand_on<O: OutLink>(out: &mut O, deliver: &Peer, packet: &Option<Bytes>, counts: &mut Counts)
    requires room { (counts.old.unsent + 1 < 2 ^ 64) × (counts.old.delivered + 1 < 2 ^ 64) }
    ensures handed { (link : LinkSeen) → HasSent link link (out_at O.OutLink out.old) (out_at O.OutLink out.new) counts.old counts.new [] (delivery_to deliver.now packet.now) }
    ensures others { counts.new ≡ record counts.old { delivered = counts.new.delivered; unsent = counts.new.unsent } }
    ensures few { (counts.new.unsent ≤ counts.old.unsent + 1) × (counts.new.delivered ≤ counts.old.delivered + 1) }
{
    let Some(packet) = packet else {
        return;
    };
    counts.delivered += 1;
    let sent = out.send(deliver, packet.as_slice());
    counts.count_send(sent.is_ok());
}

impl Server {
    /// Takes an event: what the machine sends goes out by the link, and the packet that it hands on goes to the
    /// configured peer. Where memory ran out nothing happened.
    pub(super) fn take<L: Link, O: OutLink>(
        &mut self,
        alloc: Global,
        event: &GatewayEvent,
        link: &mut L,
        out: &mut O,
    ) -> Result<(), AllocError>
        requires event { IsEventOf (settings_in self.old) event.now }
        requires few { tally_in self.old < 2 ^ 61 }
        ensures takes { OnOk result (WorkDoes (taking (event.now ∷ []))
            (at_work self.old (link_at L.Link link.old) (L.longest_wait link.old) (out_at O.OutLink out.old))
            (at_work self.new (link_at L.Link link.new) (L.longest_wait link.new) (out_at O.OutLink out.new))) }
        ensures none { OnErr result (WorkDoes nothing
            (at_work self.old (link_at L.Link link.old) (L.longest_wait link.old) (out_at O.OutLink out.old))
            (at_work self.new (link_at L.Link link.new) (L.longest_wait link.new) (out_at O.OutLink out.new))) }
        ensures sure { IsDraw event.now → IsOk result }
        ensures needs_none { NeedsNoMemory event.now
            (answer_after (settings_in self.old) (setup_in self.old).first (events_in self.old) event.now).outcome → IsOk result }
    {
        let GatewayStep {
            outcome,
            sends,
            deliver,
        } = self.gateway.step(alloc, event)?;
        self.course = self.course.then(event);
        self.outcomes.count(&outcome);
        send_all(link, sends.as_slice(), &mut self.counts);
        hand_on(out, &self.deliver, &deliver, &mut self.counts);
        Ok(())
    }

    /// Takes an event. One that memory refuses is counted, and nothing else happens then.
    pub(super) fn offer<L: Link, O: OutLink>(
        &mut self,
        alloc: Global,
        event: &GatewayEvent,
        link: &mut L,
        out: &mut O,
    )
        requires event { IsEventOf (settings_in self.old) event.now }
        requires few { tally_in self.old < 2 ^ 61 }
        ensures offers { OffersSo event.now
            (at_work self.old (link_at L.Link link.old) (L.longest_wait link.old) (out_at O.OutLink out.old))
            (at_work self.new (link_at L.Link link.new) (L.longest_wait link.new) (out_at O.OutLink out.new)) }
    {
        match self.take(alloc, event, link, out) {
            Ok(()) => {}
            Err(_) => self.counts.count_starved(),
        }
    }
}
