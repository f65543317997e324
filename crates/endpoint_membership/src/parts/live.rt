//! How many endpoints are live.

ghost use Rattle.std.specs.{Prelude.{◌≡◌, ◌≤◌, is_some, if◌then◌else◌}, List.{filter}};
ghost use Rattle.endpoint_membership.specs.{Limits.{live_count}, Memberships.{is_live, membership_in}, Filters.{stored_membership}, Stored.{ends_with, is_counted, is_of_another, only}};

use super::StoredMemberships;
use crate::keys::EndpointGroup;
use crate::stored::StoredFilter;
use amt_values::{Endpoint, Moment};

fn is_counted(
    at: &EndpointGroup,
    stored: &StoredFilter,
    besides: &Endpoint,
    moment: Moment,
    lifetime_ms: u64,
) -> bool
    requires { lifetime_ms ≤ 1000000000 }
    ensures { result
        ≡ is_counted lifetime_ms moment besides.now (stored_membership (at.now, stored.now)) }
{
    at.endpoint != *besides && stored.is_fresh(moment, lifetime_ms)
}

fn ends_with(last: &Option<Endpoint>, endpoint: &Endpoint) -> bool
    ensures { result ≡ ends_with last.now endpoint.now }
{
    match last {
        Some(last) => *last == *endpoint,
        None => false,
    }
}

pub fn one_unless(seen: bool) -> usize
    ensures value { result ≡ (if seen then 0 else 1) }
    ensures most { result ≤ 1 }
{
    if seen { 0 } else { 1 }
}

impl StoredMemberships {
    /// How many endpoints have a membership.
    pub fn live_count(&self) -> usize
        ensures { result ≡ live_count self.now }
    {
        self.counts.len()
    }

    /// Whether the endpoint has some membership.
    pub fn is_live(&self, endpoint: &Endpoint) -> bool
        ensures { result ≡ is_live endpoint.now self.now }
    {
        self.counts.contains_key(endpoint)
    }

    /// How many endpoints besides this one are live at a moment. It goes over all memberships only
    /// where some have expired by then.
    pub fn count_live(&self, besides: &Endpoint, moment: Moment, lifetime_ms: u64) -> usize
        requires { lifetime_ms ≤ 1000000000 }
        ensures { result ≡ live_count (filter (is_counted lifetime_ms moment besides.now) self.now) }
    {
        match self.first_expired(moment, lifetime_ms) {
            Some(_) => self.count_fresh(besides, moment, lifetime_ms),
            None => self.count_others(besides),
        }
    }

    // How many endpoints besides this one have a membership.
    fn count_others(&self, besides: &Endpoint) -> usize
        ensures { result ≡ live_count (filter (is_of_another besides.now) self.now) }
    {
        self.live_count() - one_unless(!self.is_live(besides))
    }

    // Whether the membership of the pair, if it has one, counts.
    fn counts_at(
        &self,
        at: &EndpointGroup,
        besides: &Endpoint,
        moment: Moment,
        lifetime_ms: u64,
    ) -> bool
        requires { lifetime_ms ≤ 1000000000 }
        ensures { result ≡ is_some (only (is_counted lifetime_ms moment besides.now)
            (membership_in self.now at.now)) }
    {
        match self.filters.get(at) {
            Some(stored) => is_counted(at, stored, besides, moment, lifetime_ms),
            None => false,
        }
    }

    // The same of those that have not expired. The memberships of an endpoint stand together, so each
    // is compared with the last one that counted.
    fn count_fresh(&self, besides: &Endpoint, moment: Moment, lifetime_ms: u64) -> usize
        requires { lifetime_ms ≤ 1000000000 }
        ensures { result ≡ live_count (filter (is_counted lifetime_ms moment besides.now) self.now) }
    {
        let mut count = 0;
        let mut last = None;
        for at in self.filters.pairs() {
            if self.counts_at(at, besides, moment, lifetime_ms) {
                count += one_unless(ends_with(&last, &at.endpoint));
                last = Some(at.endpoint);
            }
        }
        count
    }
}
