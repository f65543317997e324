//! What a table keeps of a membership, and a membership on its way in.

ghost use Rattle.std.specs.Prelude.{◌≡◌, ◌+◌, ◌≤◌, nat_lt};
ghost use Rattle.endpoint_membership.specs.{Membership.{endpoint_group_of}, Parts.{stored_filter}};

use crate::keys::EndpointGroup;
use amt_values::{Endpoint, Ip, Moment};
use source_filter::Filter;
use std::marker::Model;

/// What an endpoint wants of a group, and when it was last renewed.
#[derive(Debug, Drop)]
pub struct StoredFilter {
    pub filter: Filter,
    pub renewed: Moment,
}

impl StoredFilter {
    /// Whether less than a lifetime has passed since the last renewal.
    pub fn is_fresh(&self, moment: Moment, lifetime_ms: u64) -> bool
        requires { lifetime_ms ≤ 1000000000 }
        ensures { result ≡ nat_lt moment (self.now.renewed + lifetime_ms) }
    {
        is_in_time(self.renewed, moment, lifetime_ms)
    }
}

/// Whether less than a lifetime has passed since the renewal (RFC 3376, section 8.4).
pub fn is_in_time(renewed: Moment, moment: Moment, lifetime_ms: u64) -> bool
    requires { lifetime_ms ≤ 1000000000 }
    ensures { result ≡ nat_lt moment (renewed + lifetime_ms) }
{
    moment.ms() < renewed.ms() + lifetime_ms
}

/// A membership of an endpoint after its report, on its way into the table.
#[derive(Debug, Drop)]
pub struct OwnMembership {
    endpoint: Endpoint,
    group: Ip,
    filter: Filter,
    renewed: Moment,
}

impl Model for OwnMembership {
    ghost use Rattle.endpoint_membership.specs.Membership.{Membership};

    ghost Value = { Membership };

    ghost view = { λ s. record { endpoint = s.endpoint; group = s.group; filter = s.filter; renewed = s.renewed } };

    ghost inverse = { λ m. record { endpoint = m.endpoint; group = m.group; filter = m.filter; renewed = m.renewed } };
}

impl OwnMembership {
    pub fn new(endpoint: Endpoint, group: Ip, filter: Filter, renewed: Moment) -> Self
        ensures { result ≡ record {
          endpoint = endpoint;
          group = group;
          filter = filter;
          renewed = renewed;
        } }
    {
        OwnMembership {
            endpoint,
            group,
            filter,
            renewed,
        }
    }

    pub fn group(&self) -> Ip
        ensures { result ≡ self.now.group }
    {
        self.group
    }

    pub fn filter(&self) -> &Filter
        ensures { result.now ≡ self.now.filter }
    {
        &self.filter
    }

    /// When it was last renewed.
    pub fn renewed(&self) -> Moment
        ensures { result ≡ self.now.renewed }
    {
        self.renewed
    }

    /// Whose membership it is, and in which group.
    pub fn endpoint_group(&self) -> EndpointGroup
        ensures { result ≡ endpoint_group_of self.now }
    {
        EndpointGroup {
            endpoint: self.endpoint,
            group: self.group,
        }
    }

    /// What a table keeps at its endpoint and group.
    pub fn into_stored_filter(self) -> StoredFilter
        ensures { result ≡ stored_filter self }
    {
        StoredFilter {
            filter: self.filter,
            renewed: self.renewed,
        }
    }
}
