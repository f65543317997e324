//! MLD messages, whose checksum has the pseudo-header of IPv6, and the codes in which they carry
//! times.
//!
//! Contract: a written query is the one spelling of its fields and is read back to them, and so is a
//! written report of its records; a payload between two addresses is a query of at most one list of
//! values and a report of at most one list of records, and a time has at most one code.
//! It knows no datagram, tunnel or moment.
//! Standards: RFC 3810, sections 5.1, 5.2 and 8.3.2; RFC 2710, section 3; RFC 8200, section 8.1.
#![tactic(auto)]

mod code;
mod header;
mod query;
mod report;

pub use code::{code_value6, value_code6};
pub use query::{read_query6, write_query6};
pub use report::{read_report6, write_report6};
