//! Memberships as they are shown.

use amt_values::{Endpoint, Ip, Items};
use source_filter::Filter;

/// The membership of an endpoint in a group.
#[derive(Debug, Drop)]
pub struct Row {
    pub endpoint: Endpoint,
    pub group: Ip,
    pub filter: Filter,
}

/// Rows, by endpoint and then by group.
pub type Rows = Items<Row>;
