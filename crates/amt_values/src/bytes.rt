//! Octets that own their memory, and how many an input has at most.

use crate::items::Items;

/// The most octets of one input, and of a slice that a call is handed, where it says so: 16 MiB.
///
/// It bounds the memory that a hostile input can claim.
pub const INPUT_LIMIT: usize = 16_777_216;

/// Octets that own their memory.
pub type Bytes = Items<u8>;
