//! Which command the arguments of `amt` name.
//!
//! Contract: arguments are read as a command exactly where its written definition takes them, and they
//! are a line of at most one command.
//! It knows no device, no script and no format, nor what a command does.
//! Standard: none of its own; the lines are those that the kit's `clap` takes.
#![tactic(auto)]

mod command;
mod definition;
mod dns;
mod gateway;
mod load;
mod parsing;
mod pcap;
mod relay;
mod replay;
mod serving;
mod word;
mod words;

pub use command::{Command, Replayable, WordsFault};
pub use word::Word;
pub use words::read_words;
