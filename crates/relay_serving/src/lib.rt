//! The loop of a running relay: its clock, its link and its feed are asked in turns, its answers go out by
//! the link, and its workers copy packets by the table that is published in each turn.
//!
//! Contract: the events of a run are those that the devices' answers make, in the order of a turn; the link's
//! tried sends are the answers to them, and each slot's are the copies of its packets, by logs that begin with
//! what was published before the packet; where no view is apart, by prefixes of the log of the run's events.
//! It knows no file, no script and no real device.
//! Standard: RFC 7450, sections 4.1.3 and 5.3.
#![tactic(auto)]

mod control;
mod counts;
mod course;
mod mem_copies;
mod numbers;
mod outcomes;
mod plan;
mod renewal;
mod secret;
mod server;
mod serving;

pub use amt_ports::End;
pub use control::{Control, Copies, CopyCount};
pub use mem_copies::MemCopies;
pub use outcomes::outcome_words_are_those_of_replays;
pub use plan::{ServePlan, ServeReport, Served};
pub use serving::serve_relay;
