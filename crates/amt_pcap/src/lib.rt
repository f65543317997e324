//! Captures of a network's traffic, and the relay script and the dump lines that they are.
//!
//! Contract: octets are read as a capture exactly where their head is one, and every item is the one at its place; the
//! script spells exactly the events of the items.
//! It knows no file and no clock, and no checksum is looked at.
//! Standard: the classic file format of libpcap; RFC 791, RFC 8200 and RFC 768 for what is captured.
#![tactic(auto)]

mod capture;
mod format;
mod frame;
mod laws;
mod lines;
mod packet;
mod reading;
mod script;
mod udp;

pub use capture::{Capture, CaptureFault, CapturedItems, Item, Skip};
pub use laws::{captures_are_whole, captures_have_one_meaning};
pub use lines::capture_lines;
pub use reading::read_capture;
pub use script::capture_script;
