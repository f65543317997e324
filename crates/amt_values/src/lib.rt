//! Addresses, peers and tunnel endpoints, and their texts; the one list type, and what the contracts of all crates
//! say alike.
//!
//! Contract: a tunnel endpoint has one form, and each text names one value and is printed one way. A list that owns
//! its memory is, to contracts, the list of its items.
//! The definitions of conditions that are tried in order, of what a reader answers, and of ascending lists are over
//! any type, and know nothing of what they are about; their laws stand beside them in proofs/.
//! It knows no message, socket or clock: a moment is a number that the caller gives.
//! Standard: RFC 4291, sections 2.2 and 2.5.5; RFC 5952, section 4.
#![tactic(auto)]

mod address;
mod bytes;
mod cut;
mod endpoint;
mod fields;
mod group;
mod items;
mod mac;
mod moment;
mod numeral;
mod octets;
mod order;
mod peer;
mod text;

pub use address::{Ip, from_wire16, wire16};
pub use bytes::{Bytes, INPUT_LIMIT};
pub use cut::cut_at;
pub use endpoint::Endpoint;
pub use fields::{u16_at, u32_at, u128_at};
pub use group::forwardable;
pub use items::Items;
pub use mac::Mac48;
pub use moment::Moment;
pub use numeral::{NumeralFault, append_numeral, parse_numeral, print_numeral};
pub use octets::{address_of_octets, octets_of_address};
pub use order::{order_of_endpoints, order_of_ips};
pub use peer::{AMT_PORT, Peer};
pub use text::{ip_text_names, parse_ip, parse_peer, print_ip, print_peer};
