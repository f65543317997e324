//! What all tunnel endpoints together want, and what changed of it: the change records that a relay's
//! own network has to hear.
//!
//! Contract: the value stands for the log of accepted entries, as a membership table does. The filter
//! of a group is the one that merges those of all its memberships, and an entry is answered by the
//! records from the filters before it to those after it, by group.
//! It sends nothing, and knows no message, socket or clock.
//! Standard: RFC 4605, section 4.1; RFC 3376, sections 3.2 and 5.1.
#![tactic(auto)]

mod changed_group;
mod count_key;
mod keys;
mod looking;
mod reading;
mod records;
mod tally;
mod upstream;

pub use upstream::Upstream;
