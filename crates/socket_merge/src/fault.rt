//! Why a socket call is refused.

/// Why no socket was opened or changed: the first of these that holds.
///
/// A group's sources are counted once for each socket that lists them, and the octets are those of the
/// report of the group's family in which nothing is merged. Closing a socket never makes either number
/// grow.
#[derive(Clone, Copy, Debug, PartialEq, Eq)]
pub enum SocketFault {
    /// Of `open`: a socket of this name is open.
    Taken,
    /// Of `change`: no socket of this name is open.
    NoSocket,
    /// The sockets of the group would list more than 32 sources: how many.
    SourcesFull(u32),
    /// The report would have more than 1,400 octets: how many.
    ReportFull(u32),
    /// Nothing is refused; out of memory.
    Memory,
}

/// No socket of this name is open.
#[derive(Clone, Copy, Debug, PartialEq, Eq)]
pub struct NoSocket;
