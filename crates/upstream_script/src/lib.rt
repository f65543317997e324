//! Relay scripts run beside what all tunnel endpoints together want, and the texts of these runs.
//!
//! Contract: a script's text is that of the relay's run, with the change records of each event that changes
//! what is wanted of a group after the event's own lines.
//! It knows sinks by their trait alone, and no real device. How octets spell a script is for amt_script to say.
//! Standard: RFC 4605, section 4.1, and RFC 3376, section 5.1; the formats stand in docs/FORMATS.md.
#![tactic(auto)]

mod replay;
mod text;

pub use replay::run_upstream_script;
