//! The answer to the query for a source's relays: which relays it lists, and which one is tried first.
//!
//! Contract: octets are read exactly where they are an answer to the query, and elsewhere their first fault is reported.
//! It knows no socket or moment, and doesn't judge whether an answer is genuine.
//! Standard: RFC 1035, section 4.1; RFC 8777, section 4.2.
#![tactic(auto)]

mod answer;
mod choice;
mod fault;
mod found;
mod head;
mod laws;
mod question;
mod record;
mod relay;
mod text;

pub use answer::read_answer;
pub use choice::choose;
pub use fault::DnsFault;
pub use found::{Found, FoundList, Relay};
pub use laws::answers_have_one_meaning;
pub use text::{print_answer, print_fault};
