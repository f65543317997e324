//! Membership reports with their group records, and queries, over the address width of both families.
//!
//! Contract: octets are a report of at most one list of records, and a query of at most one set of
//! values, which is what is read; others are refused by the first fault. A written report is the one
//! spelling of its records and is read back to them, and so is a written General Query of its fields.
//! A time has at most one code.
//! It knows no datagram's layout, no tunnel or moment. The checksum it takes from inner_datagrams.
//! Standards: RFC 3376, sections 4.1, 4.2 and 7.3.2; RFC 3810, sections 5.1, 5.2 and 8.3.2; RFC 2236, section 2;
//! RFC 2710, section 3.
#![tactic(auto)]

mod code;
mod family;
mod general;
mod laws;
mod query;
mod record;
mod report;
mod writing;

pub use code::{code_value, value_code};
pub use family::Family;
pub use general::write_query;
pub use laws::payloads_are_read_as_their_reports;
pub use query::read_query;
pub use report::read_report;
pub use writing::{ITEM_LIMIT, REPORT_LIMIT, report_length, write_report};
