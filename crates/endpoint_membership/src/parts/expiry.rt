//! Memberships that end: in time, or with their endpoint.

ghost use Rattle.std.specs.{Prelude.{◌≡◌, ◌≤◌, IfSome, IfNone, IsSome, None}, List.{filter}};
ghost use Rattle.endpoint_membership.specs.{Membership.{is_fresh}, Memberships.{membership_in}, Stored.{is_of_another, only}};

use super::StoredMemberships;
use crate::keys::EndpointGroup;
use crate::stored::is_in_time;
use amt_values::{Endpoint, Ip, Moment};

impl StoredMemberships {
    /// The membership that was renewed first, where that was not in time.
    pub fn first_expired(&self, moment: Moment, lifetime_ms: u64) -> Option<EndpointGroup>
        requires { lifetime_ms ≤ 1000000000 }
        ensures some { IfSome result (λ at. IsSome (membership_in self.now at)
            × (only (is_fresh lifetime_ms moment) (membership_in self.now at) ≡ None)) }
        ensures none { IfNone result (filter (is_fresh lifetime_ms moment) self.now ≡ self.now) }
    {
        let first = self.renewals.first()?;
        if is_in_time(first.renewed, moment, lifetime_ms) {
            return None;
        }
        Some(first.at)
    }

    /// Drops the memberships that were not renewed in time.
    pub fn purge(&mut self, moment: Moment, lifetime_ms: u64)
        requires { lifetime_ms ≤ 1000000000 }
        ensures { self.new ≡ filter (is_fresh lifetime_ms moment) self.old }
    {
        while let Some(at) = self.first_expired(moment, lifetime_ms) {
            self.remove(&at);
        }
    }

    /// The endpoint with its least group.
    fn first_of(&self, endpoint: &Endpoint) -> Option<EndpointGroup>
        ensures some { IfSome result
            (λ at. (at.endpoint ≡ endpoint.now) × IsSome (membership_in self.now at)) }
        ensures none { IfNone result (filter (is_of_another endpoint.now) self.now ≡ self.now) }
    {
        let start = EndpointGroup {
            endpoint: *endpoint,
            group: Ip::V4(0),
        };
        let first = self.filters.pairs().range(start..).next()?;
        (first.endpoint == *endpoint).then_some(*first)
    }

    /// Drops the memberships of the endpoint.
    pub fn drop_endpoint(&mut self, endpoint: &Endpoint)
        ensures { self.new ≡ filter (is_of_another endpoint.now) self.old }
    {
        while let Some(at) = self.first_of(endpoint) {
            self.remove(&at);
        }
    }
}
