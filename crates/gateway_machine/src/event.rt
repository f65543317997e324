//! What happens to a gateway.

use amt_values::{Bytes, Ip, Moment, Peer};
use source_filter::Filter;

/// What happens to a gateway.
#[derive(Debug, Drop)]
pub enum GatewayEvent {
    /// It has become this late; a moment before the gateway's own changes nothing.
    Moment(Moment),
    /// The nonce of the next Discovery or Request that isn't a repetition, unless another comes first.
    Nonce(u32),
    /// A UDP payload has come from a peer: at most 65,535 octets.
    Datagram {
        from: Peer,
        bytes: Bytes,
    },
    /// A socket of this name joins the group, with its filter.
    Open {
        name: Bytes,
        group: Ip,
        filter: Filter,
    },
    /// The socket of this name has another filter.
    Change {
        name: Bytes,
        filter: Filter,
    },
    /// The socket of this name leaves its group.
    Close {
        name: Bytes,
    },
    /// Every socket leaves its group.
    LeaveAll,
}
