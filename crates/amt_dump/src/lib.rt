//! The text of datagrams of the tunneling protocol, given as lines of hexadecimal digits.
//!
//! Contract: the text is a function of the lines; octets that are no such lines give the first bad line and
//! the first reason in it.
//! It knows no state, moment or sender, and no device.
//! Standard: RFC 7450, section 5.1; RFC 3376, section 4; RFC 3810, section 5. The texts stand in docs/FORMATS.md.
#![tactic(auto)]

mod datagram_text;
mod datagrams;
mod dump;
mod line;
mod message_text;
mod numbers;
mod query;
mod query_text;
mod report_text;

pub use datagrams::{Datagrams, read_datagrams};
pub use dump::dump_lines;
pub use script_lines::{Reason, ScriptError};
