//! What an entry of the log changes of what endpoints want.

use amt_values::{Endpoint, Ip, Items};
use source_filter::Filter;

/// What an endpoint wanted of a group, and what it wants of it after an entry. Where it has no
/// membership there is no filter.
#[derive(Debug, Drop)]
pub struct MembershipChange {
    pub group: Ip,
    pub endpoint: Endpoint,
    pub before: Option<Filter>,
    pub after: Option<Filter>,
}

/// Changes, by group and then by endpoint.
pub type MembershipChanges = Items<MembershipChange>;
