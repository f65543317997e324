//! What happens to a dual gateway, and to a pair of such gateways with their relay.

use amt_values::{Bytes, Moment, Peer};
use gateway_machine::GatewayEvent;
use response_mac::Secret;

/// What happens to a dual gateway.
#[derive(Debug, Drop)]
pub enum DualEvent {
    /// It has become this late: for the IPv4 machine, and then for the IPv6 one.
    Moment(Moment),
    /// A UDP payload has come from a peer: at most 65,535 octets. It comes to the IPv4 machine, and where that
    /// one ignores it to the IPv6 machine.
    Datagram { from: Peer, bytes: Bytes },
    /// The machine of this family takes a socket call.
    Socket { v6: bool, event: GatewayEvent },
}

/// What happens to a relay and its dual gateways.
#[derive(Debug, Drop)]
pub enum DualPairEvent {
    /// It has become this late: for the relay, and then for each gateway in the order in which they were
    /// added, of which the IPv4 machine comes first.
    Moment(Moment),
    /// The relay has a new private secret (RFC 7450, section 5.3.6).
    Rotate(Secret),
    /// A native multicast packet has come to the relay: at most 65,535 octets.
    Packet {
        bytes: Bytes,
    },
    /// The machine of this family takes a socket call, of the gateway of this name.
    Socket {
        name: Bytes,
        v6: bool,
        event: GatewayEvent,
    },
    /// The relay takes the datagram of this number of all that were sent to it, of which the first has
    /// number 1: once, again, or never.
    Up(u64),
    /// The gateway that it is for takes the datagram of this number of all that the relay sent.
    Down(u64),
}
