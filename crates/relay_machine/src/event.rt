//! What happens to a relay.
use amt_values::{Bytes, Moment, Peer};
use endpoint_membership::Limits;
use response_mac::Secret;

/// What happens to a relay.
#[derive(Debug, Drop)]
pub enum Event {
    /// It has become this late; a moment before the relay's own changes nothing.
    Moment(Moment),
    /// A UDP payload has come from a peer: at most 65,535 octets. In this order a `Peer`, which stands
    /// at a multiple of 16 octets, needs no room before it: an event takes 80 octets and not 96.
    Datagram { bytes: Bytes, from: Peer },
    /// A native multicast packet has come: at most 65,535 octets.
    Packet { bytes: Bytes },
    /// A new private secret was drawn (RFC 7450, section 5.3.6).
    Rotate(Secret),
    /// Other limits are in force from now on: each is at least 1, and at most that of the settings.
    /// Lower limits refuse what would grow, and drop nothing.
    Limits(Limits),
}
