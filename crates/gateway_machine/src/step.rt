//! What one event came to: its outcome, the datagrams to send, and the packet that is handed on.

use crate::outcome::GatewayOutcome;
use amt_values::{Bytes, Items, Peer};

/// A datagram to send.
#[derive(Debug, Drop)]
pub struct PeerSend {
    pub to: Peer,
    pub bytes: Bytes,
}

/// Datagrams to send, in order.
pub type PeerSends = Items<PeerSend>;

/// What one event came to, what is to be sent, and the packet that is handed on to those who listen.
#[derive(Debug, Drop)]
pub struct GatewayStep {
    pub outcome: GatewayOutcome,
    pub sends: PeerSends,
    pub deliver: Option<Bytes>,
}
