//! IP datagrams that carry membership messages, and their checksum.
//!
//! Contract: octets are read as a datagram exactly where they are one, and otherwise have a first
//! fault; a written datagram is the one spelling of its addresses and payload, and is read back; of
//! a native packet the two addresses alone are read.
//! It knows no record, tunnel or moment.
//! Standard: RFC 791, section 3.1; RFC 1071, section 1; RFC 3376, section 4; RFC 3810, section 5;
//! RFC 8200, sections 3 and 4.
#![tactic(auto)]

mod around;
mod checksum;
mod head;
mod inner;
mod ipv4;
mod ipv6;
mod reading;
mod reading4;
mod reading6;
mod writing;

pub use around::internet_sum_around;
pub use checksum::internet_sum;
pub use head::{Head, HeadFault, packet_head};
pub use inner::{Inner, InnerFault};
pub use ipv4::write_inner4;
pub use ipv6::write_inner6;
pub use reading::read_inner;
pub use writing::PAYLOAD_LIMIT;
