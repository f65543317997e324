//! What happens to a pair.

use amt_values::{Bytes, Moment};
use gateway_machine::GatewayEvent;
use response_mac::Secret;

/// What happens to a pair.
#[derive(Debug, Drop)]
pub enum PairEvent {
    /// It has become this late: for the relay, and then for each gateway in the order in which they were
    /// added.
    Moment(Moment),
    /// The relay has a new private secret (RFC 7450, section 5.3.6).
    Rotate(Secret),
    /// A native multicast packet has come to the relay: at most 65,535 octets.
    Packet { bytes: Bytes },
    /// The gateway of this name takes a socket call.
    Socket { name: Bytes, event: GatewayEvent },
    /// The relay takes the datagram of this number of all that were sent to it, of which the first has
    /// number 1: once, again, or never.
    Up(u64),
    /// The gateway that it is for takes the datagram of this number of all that the relay sent.
    Down(u64),
}
