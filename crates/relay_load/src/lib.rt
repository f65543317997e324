//! A large relay script made from a number, and what a run over it comes to.
//!
//! Contract: the script is a function of the seed and the count, and a relay can be run over it; the
//! summary of a run is a function of its script, by what the relay answers to each event.
//! It must not know sinks, texts of scripts or how a command is given its numbers.
//! Standard: RFC 7450, section 5.1.5, and RFC 3376, section 4.2, for the Updates; the generator and
//! the text stand in specs/.
#![tactic(auto)]

mod generator;
mod packets;
mod record;
mod reports;
mod run;
mod script;
mod summary;
mod updates;

pub use run::{load, run_load};
pub use script::load_script;
pub use summary::LoadSummary;
