//! The keys under which memberships are counted.

use amt_values::{Endpoint, Ip};

/// What is counted of a group.
#[derive(Clone, Copy, Debug, PartialEq, Eq, PartialOrd, Ord)]
pub enum Counted {
    /// The endpoints that exclude.
    Excluders,
    /// This endpoint, where it excludes.
    Excluder(Endpoint),
    /// The endpoints that exclude this source among others.
    Excluding(Ip),
    /// The endpoints that include this source.
    Including(Ip),
}

/// What is counted, and of which group. In this order the counts of a group stand together.
#[derive(Clone, Copy, Debug, PartialEq, Eq, PartialOrd, Ord)]
pub struct CountKey {
    pub group: Ip,
    pub counted: Counted,
}
