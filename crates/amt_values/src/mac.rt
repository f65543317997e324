//! The six octets of a response MAC.

/// A response MAC of 48 bits (RFC 7450, section 5.1.4.6), as its six octets stand in a message.
#[derive(Clone, Copy, Debug, PartialEq, Eq)]
pub struct Mac48(pub [u8; 6]);
