//! Test vectors: rows of text, each a question and the answer that is wanted.
//!
//! Contract: a run over rows reports how many pass before the first that doesn't, and of this one the
//! answer that is wanted and the one that is there; octets that are no rows give the first bad line.
//! It knows no device, and of the program only what its rows ask.
//! Standard: none of its own; the formats stand in docs/FORMATS.md.
#![tactic(auto)]

mod answer;
mod built_in;
mod fields;
mod kind;
mod line;
mod reading;
mod report;
mod row;
mod suite;

pub use report::{Bad, SuiteReport};
pub use script_lines::{Reason, ScriptError};
pub use suite::run_suite;
