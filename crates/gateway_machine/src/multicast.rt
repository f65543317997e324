//! What Multicast Data comes to.

ghost use Rattle.std.specs.Prelude.{◌≡◌, ◌≤◌, length};
ghost use Rattle.socket_merge.specs.Sockets.{ForHistory};
ghost use Rattle.gateway_machine.specs.{Answers.{cause_heard, joined_relay, packet_answer, packet_cause}, Taken.{IsReply}};
ghost use Rattle.inner_datagrams.specs.Head.{head_of};

use crate::exchange::{Exchange, GatewayState};
use crate::outcome::{GatewayOutcome, Ignored};
use crate::reply::Reply;
use crate::short_sends::ShortSends;
use crate::situation::Situation;
use amt_values::{Bytes, Peer, forwardable};
use inner_datagrams::packet_head;
use socket_merge::Sockets;
use std::alloc::Global;

// The relay that packets are taken from.
fn joined_relay(exchange: &Exchange) -> Option<Peer>
    ensures { result ≡ joined_relay exchange.now.state exchange.now.relay }
{
    match exchange.state {
        GatewayState::Requesting | GatewayState::Active => exchange.relay,
        _ => None,
    }
}

// Why a packet is ignored that comes from the relay, if it is.
fn packet_cause(sockets: &Sockets, packet: &[u8]) -> Option<Ignored>
    requires { length packet.now ≤ 65535 }
    ensures { ForHistory sockets.now (λ history. result ≡ packet_cause history (head_of packet.now)) }
{
    let head = match packet_head(packet) {
        Ok(head) => head,
        Err(fault) => return Some(Ignored::Head(fault)),
    };
    if !forwardable(&head.group) {
        return Some(Ignored::Scope(head.group));
    }
    if !sockets.admits(&head.group, &head.source) {
        return Some(Ignored::NotWanted(head.group, head.source));
    }
    None
}

// Why a packet from this peer is ignored, if it is. The law states_have_relays excludes that packets are
// taken in a state without a relay.
fn cause_heard(here: &Situation<'_>, from: &Peer, packet: &[u8]) -> Option<Ignored>
    requires { length packet.now ≤ 65535 }
    ensures { ForHistory here.now.sockets.now (λ history. result ≡ cause_heard
        (joined_relay here.now.exchange.state here.now.exchange.relay) history from.now packet.now) }
{
    let Some(relay) = joined_relay(&here.exchange) else {
        return Some(Ignored::State(6));
    };
    if relay != *from {
        return Some(Ignored::Sender(relay, *from));
    }
    packet_cause(here.sockets, packet)
}

/// What Multicast Data comes to: its packet is handed on as it stands. It takes no memory.
pub fn take_packet(alloc: Global, here: &Situation<'_>, from: &Peer, packet: Bytes) -> Reply
    requires { length packet ≤ 65535 }
    ensures { ForHistory here.now.sockets.now (λ history.
        IsReply (packet_answer here.now.exchange history from.now packet) result) }
{
    if let Some(cause) = cause_heard(here, from, packet.as_slice()) {
        return Reply::ignored(alloc, &here.exchange, cause);
    }
    Reply {
        outcome: GatewayOutcome::Delivered,
        sends: ShortSends::new(alloc),
        deliver: Some(packet),
        next: here.exchange,
    }
}
