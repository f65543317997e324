//! Source filters and group records, and what the readers of both address families share: the faults
//! of a report, and the fields of a query with their codes.
//!
//! Contract: a filter after a record admits a source by what the record says, where the record
//! speaks of it, and as before elsewhere; a merged filter admits a source exactly where some filter
//! does; the change records from one filter to another make the other of the one.
//! It reads and writes no octets, and knows no tunnel endpoint or moment.
//! Standard: RFC 3376, sections 3.2, 4.1, 4.2.12 and 5.1; RFC 3810, section 5.1.
#![tactic(auto)]

mod changes;
mod fault;
mod filter;
mod ips;
mod merging;
mod mode;
mod mutable;
mod query;
mod record;
mod records;

pub use changes::diff;
pub use fault::{ReadFault, ReportFault};
pub use filter::{Filter, copy_filter};
pub use ips::Ips;
pub use merging::merge;
pub use mode::Mode;
pub use mutable::MutableFilter;
pub use query::{QueryFields, QueryRead};
pub use record::{Record, RecordKind};
pub use records::{Records, copy_record, copy_records};
