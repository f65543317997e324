//! The other end of a UDP datagram.

use crate::address::Ip;

/// The UDP port of AMT (RFC 7450, section 7.2).
pub const AMT_PORT: u16 = 2268;

/// An address and a port, as a UDP socket names the other end.
#[derive(Clone, Copy, Debug, PartialEq, Eq, PartialOrd, Ord)]
pub struct Peer {
    pub ip: Ip,
    pub port: u16,
}
