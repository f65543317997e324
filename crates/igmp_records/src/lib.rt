//! IGMP messages, and the codes in which they carry times.
//!
//! Contract: a written query is the one spelling of its fields and is read back to them, and so is a
//! written report of its records; a payload is a query of at most one list of values and a report of
//! at most one list of records, and a time has at most one code.
//! It knows no datagram, tunnel or moment.
//! Standards: RFC 3376, sections 4.1, 4.2 and 7.3.2; RFC 2236, section 2.
#![tactic(auto)]

mod code;
mod query;
mod report;

pub use code::{code_value4, value_code4};
pub use query::{read_query4, write_query4};
pub use report::{read_report4, write_report4};
