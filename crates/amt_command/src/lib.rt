//! The command `amt`.
//!
//! Contract: each status has its cause, and with status 0 what was written is the text that the
//! definitions give for what was read, for the words, or for the run of a relay or of a gateway.
//! It knows devices by their traits alone.
//! Standard: none of its own; the formats stand in docs/FORMATS.md.
#![tactic(auto)]

mod dns;
mod ending;
mod exit;
mod fault;
mod gateway;
mod pcap;
mod relay;
mod running;
mod scripts;
mod serving;
mod task;
mod texts;
mod top;
mod writing;

pub use exit::Exit;
pub use top::{amt, amt_exit, amt_without_memory, exit_without_memory};
