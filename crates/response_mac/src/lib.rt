//! The response MAC, by which a relay recognizes an endpoint that it sent a query to.
//!
//! Contract: a MAC is good exactly where the current secret or an older one that is kept gives it.
//! It knows no message, socket or moment.
//! Standard: RFC 7450, sections 5.1.4, 5.3.5 and 5.3.6; RFC 2104, sections 2, 4 and 5.
#![tactic(auto)]

mod hmac;
mod mac_key;
mod response;
mod secret;
mod secrets;

pub use hmac::hmac_sha256;
pub use mac_key::MacKey;
pub use response::{leftmost_48_bits, mac};
pub use secret::Secret;
pub use secrets::Secrets;
