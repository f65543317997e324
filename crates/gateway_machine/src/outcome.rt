//! What an event came to, in words that the scripts print.

use amt_messages::Refused;
use amt_values::{Ip, Peer};
use inner_datagrams::{HeadFault, InnerFault};
use source_filter::ReportFault;

/// Why a socket call is refused: the first of these that holds.
#[derive(Clone, Copy, Debug, PartialEq, Eq)]
pub enum SocketRefusal {
    /// A socket of the name that is to be opened is open.
    Taken,
    /// No socket of the name that is to be changed or closed is open.
    NoSocket,
    /// The sockets of the group would list more than 32 sources: how many.
    SourcesFull(u32),
    /// The report of the gateway in which nothing is merged would have more than 1,400 octets: how many.
    ReportFull(u32),
}

/// Why a datagram is ignored: the first of these that holds, in this order. Pairs are the value that is
/// wanted, and the one that is there.
#[derive(Clone, Copy, Debug, PartialEq, Eq)]
pub enum Ignored {
    /// The octets are no message.
    Undecoded(Refused),
    /// A message of this type is for relays.
    Kind(u8),
    /// A message of this type means nothing in the gateway's state.
    State(u8),
    /// A Query or a packet doesn't come from the gateway's relay.
    Sender(Peer, Peer),
    /// An Advertisement or a Query has another nonce than the last Discovery or Request.
    Nonce(u32, u32),
    /// The inner octets of a Query are no datagram that carries membership messages.
    Inner(InnerFault),
    /// The inner datagram of a Query is of the other address family.
    Family,
    /// What the inner datagram carries is no membership query.
    Body(ReportFault),
    /// The query asks about this group, and not about all.
    NotGeneral(Ip),
    /// A packet begins with no header that names a source and a group.
    Head(HeadFault),
    /// A packet's destination is no multicast group, or one whose packets stay on their link.
    Scope(Ip),
    /// No socket wants packets to this group from this source.
    NotWanted(Ip, Ip),
}

/// What an event came to.
#[derive(Clone, Copy, Debug, PartialEq, Eq)]
pub enum GatewayOutcome {
    /// Nothing was due at the moment.
    Quiet,
    /// The event's nonce is the next one.
    Drawn,
    /// A Discovery was sent: how many were with its nonce, and 255 from there on.
    Discovering(u8),
    /// A Request was sent: how many were with its nonce.
    Requesting(u8),
    /// A Query was accepted. What is wanted is reported, if there is anything to report.
    Active,
    /// No socket is open and no farewell lasts, so nothing more is asked of the relay.
    Idle,
    /// A socket call changed what the gateway wants of some group, and was reported.
    Changed,
    /// A socket call was accepted, and nothing is sent for it.
    Kept,
    /// A packet was handed on.
    Delivered,
    /// A socket call was refused.
    SocketRefused(SocketRefusal),
    /// A datagram was ignored.
    Ignored(Ignored),
}
