//! How much a table may keep, and what a report passes.

ghost use Rattle.std.specs.Prelude.{◌≤◌, ◌↔◌, IsTrue};
ghost use Rattle.endpoint_membership.specs.Limits.{AreWithin};

use amt_values::Ip;

/// How much a table keeps; each is at most 16,777,216.
#[derive(Clone, Copy, Debug, PartialEq, Eq)]
pub struct Limits {
    /// Endpoints with some membership.
    pub endpoints: u32,
    /// Groups of one endpoint.
    pub groups: u32,
    /// Listed sources of one group at one endpoint.
    pub sources: u32,
}

fn is_from_one_to(most: u32, number: u32) -> bool
    ensures { IsTrue result ↔ ((1 ≤ number) × (number ≤ most)) }
{
    number >= 1 && number <= most
}

impl Limits {
    /// Whether these may be in force where no more than `self` is ever kept: each is at least 1 and at
    /// most that.
    pub fn allow(&self, limits: &Limits) -> bool
        ensures { IsTrue result ↔ AreWithin self.now limits.now }
    {
        is_from_one_to(self.endpoints, limits.endpoints)
            && is_from_one_to(self.groups, limits.groups)
            && is_from_one_to(self.sources, limits.sources)
    }
}

/// The first limit that a report would pass, with the number that passes it.
#[derive(Clone, Copy, Debug, PartialEq, Eq)]
pub enum LimitFault {
    /// The least reported group with too many sources, and how many it would list.
    Sources(Ip, u32),
    /// How many groups the endpoint would have.
    Groups(u32),
    /// How many endpoints would be live.
    Endpoints(u32),
}

/// Why a report was not accepted.
#[derive(Clone, Copy, Debug, PartialEq, Eq)]
pub enum AcceptFault {
    Limit(LimitFault),
    Memory,
}
