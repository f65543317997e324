//! Entries of the log.

use amt_values::{Endpoint, Moment};
use source_filter::Records;

/// An entry of the log of what a relay accepted.
#[derive(Debug, Drop)]
pub enum Change {
    /// A membership report of the endpoint, with its records on forwarded groups in their order.
    Reported {
        endpoint: Endpoint,
        records: Records,
        at: Moment,
    },
    /// The endpoint left every group.
    Clear {
        endpoint: Endpoint,
        at: Moment,
    },
    /// Time passed.
    Mark {
        at: Moment,
    },
}
