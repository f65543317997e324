//! How a device is asked in a turn.

/// How often a device is asked in a turn, at most.
pub const BURST: u32 = 64;

/// How long a receiving waits, in milliseconds.
pub const WAIT_MS: u32 = 1;

/// The octets that a receiving needs room for.
pub const BUFFER: usize = 65_536;

/// Whether an asking of a device found something.
#[derive(Clone, Copy, Debug, PartialEq, Eq)]
pub enum Asked {
    Something,
    Nothing,
}
