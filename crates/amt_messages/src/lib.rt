//! The messages of the tunneling protocol, as octets and back.
//!
//! Contract: octets are read as a message exactly where they spell it, else as the first refusal;
//! a message is written as its one canonical spelling.
//! It knows no socket, state or moment. Of a tunnelled packet it reads the length field alone, in a Query.
//! Standard: RFC 7450, section 5.1.
#![tactic(auto)]

mod fields;
mod head;
mod inner;
mod message;
mod multicast;
mod query;
mod reading;
mod refusal;
mod teardown;
mod update;
mod writing;

pub use inner::inner_length;
pub use message::Message;
pub use reading::decode;
pub use refusal::{DecodeFault, Refused};
pub use writing::encode;
