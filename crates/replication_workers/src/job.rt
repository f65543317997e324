//! A packet on its way to a replicator, and what became of it.
ghost use Rattle.std.specs.Prelude.{◌≤◌, length};

use amt_values::{Bytes, Moment};
use published_table::Note;

/// A packet to copy, with the moment at which it came and the note by which its receivers are found. It
/// has at most as many octets as a datagram.
#[derive(Drop)]
pub struct Job {
    pub packet: Bytes,
    pub at: Moment,
    pub note: Note,
    ghost short: { length packet ≤ 65535 },
}

/// What became of a packet.
#[derive(Clone, Copy, Debug, PartialEq, Eq)]
pub struct Copied {
    /// How many entries the log has by which its receivers were found.
    pub prefix: u64,
    /// How many datagrams were sent.
    pub sent: u32,
    /// How many the device didn't take.
    pub unsent: u32,
}
