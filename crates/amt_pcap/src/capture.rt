//! What a capture holds.

use amt_values::{Bytes, Items, Moment};

/// Why a captured item is no packet: the first of these that holds.
#[derive(Clone, Copy, Debug, PartialEq, Eq)]
pub enum Skip {
    /// Fewer octets were captured than there were.
    Cut,
    /// An Ethernet frame carries neither IPv4 nor IPv6, after two tags at most.
    Frame,
    /// There is no IP header, or not as much as it says.
    Ip,
}

/// A captured packet with its moment, or why it is none.
#[derive(Debug, Drop)]
pub struct Item {
    /// In milliseconds.
    pub at: Moment,
    /// An IP packet of at most 65,535 octets, without what followed it in its frame.
    pub packet: Result<Bytes, Skip>,
}

/// Captured items, in the order of their records.
pub type CapturedItems = Items<Item>;

/// A capture.
#[derive(Debug, Drop)]
pub struct Capture {
    pub items: CapturedItems,
    /// How many octets follow the last whole record.
    pub tail: u32,
}

/// Why octets are no capture: the first of these that holds of the head.
#[derive(Clone, Copy, Debug, PartialEq, Eq)]
pub enum CaptureFault {
    /// How many octets a head needs, and how many there are.
    Short(u32, u32),
    /// The first four octets, read big-endian, are of another format.
    Magic(u32),
    /// The version isn't 2.4.
    Version(u16, u16),
    /// What was captured are neither Ethernet frames, 1, nor IP packets, 101.
    LinkType(u16),
    Memory,
}
