//! What an endpoint wants of each group before a report, and how long the list of a group is.

ghost use Rattle.std.specs.{Prelude.{◌≡◌, ◌≤◌, ◌+◌, nat_lt, length, IfOk, OnOk, option_copied, if◌then◌else◌}, BTreeMap.{get}, List.{filter}};
ghost use Rattle.amt_values.specs.{declared.address.Ip.{Ip as Address}, Order.{ip_order}, Ascending.{IsAscending}};
ghost use Rattle.endpoint_membership.specs.{Effective.{IsInOrder}, EndpointMemberships.{renewed_filter_of}, MembershipChanges.{filter_at}, Limits.{size_at}, Membership.{is_fresh, membership_order}, Memberships.{membership_in}, Stored.{only}};

use super::StoredMemberships;
use crate::after_report::{RenewedFilter, set_filter};
use crate::keys::EndpointGroup;
use crate::stored::StoredFilter;
use amt_values::{Endpoint, Ip, Moment};
use source_filter::{Filter, MutableFilter};
use std::alloc::{AllocError, Global};
use std::collections::BTreeMap;

// The filter as records change it.
fn renewed_filter_of(alloc: Global, stored: &StoredFilter) -> Result<RenewedFilter, AllocError>
    ensures stored { IfOk result (λ renewed_filter. renewed_filter
        ≡ record { filter = stored.now.filter; renewed = stored.now.renewed }) }
    ensures in_order { IsAscending ip_order stored.now.filter.sources }
{
    // Only this call says that the sources of a stored filter ascend.
    let _ = stored.filter.sources();
    Ok(RenewedFilter {
        filter: MutableFilter::of_filter(alloc, &stored.filter)?,
        renewed: stored.renewed,
    })
}

// How many sources the filter lists, and 0 where it has expired.
fn size_of(stored: &StoredFilter, moment: Moment, lifetime_ms: u64) -> usize
    requires { lifetime_ms ≤ 1000000000 }
    ensures { result ≡ (if nat_lt moment (stored.now.renewed + lifetime_ms)
        then length stored.now.filter.sources else 0) }
{
    if stored.is_fresh(moment, lifetime_ms) {
        stored.filter.sources().len()
    } else {
        0
    }
}

impl StoredMemberships {
    /// The filters of the endpoint's memberships, by group. It goes over the endpoint's memberships
    /// and no others.
    pub fn own_filters(
        &self,
        alloc: Global,
        endpoint: &Endpoint,
        moment: Moment,
        lifetime_ms: u64,
    ) -> Result<BTreeMap<Ip, RenewedFilter>, AllocError>
        requires { lifetime_ms ≤ 1000000000 }
        ensures own { IfOk result (λ filters. (group : Address)
            → get ip_order filters group ≡ renewed_filter_of (only (is_fresh lifetime_ms moment)
            (membership_in self.now (record { endpoint = endpoint.now; group = group })))) }
        ensures in_order { IfOk result (λ filters. (group : Address)
            → IsInOrder (get ip_order filters group)) }
        ensures ascends { OnOk result (IsAscending membership_order self.now) }
    {
        let least = EndpointGroup {
            endpoint: *endpoint,
            group: Ip::V4(0),
        };
        let mut filters = BTreeMap::new(alloc);
        for at in self.filters.pairs().range(least..) {
            if at.endpoint != *endpoint {
                break;
            }
            if let Some(stored) = self.filters.get(at) {
                if stored.is_fresh(moment, lifetime_ms) {
                    set_filter(&mut filters, at.group, renewed_filter_of(alloc, stored)?)?;
                }
            }
        }
        Ok(filters)
    }

    /// The filter of the endpoint's membership in the group, if it has one.
    pub fn filter(&self, endpoint: &Endpoint, group: &Ip) -> Option<&Filter>
        ensures { option_copied result
            ≡ filter_at self.now (record { endpoint = endpoint.now; group = group.now }) }
    {
        let at = EndpointGroup {
            endpoint: *endpoint,
            group: *group,
        };
        match self.filters.get(&at) {
            Some(stored) => Some(&stored.filter),
            None => None,
        }
    }

    /// The size of the pair's membership at a moment, and 0 where it has none.
    pub fn size_at(&self, at: &EndpointGroup, moment: Moment, lifetime_ms: u64) -> usize
        requires { lifetime_ms ≤ 1000000000 }
        ensures { result ≡ size_at (filter (is_fresh lifetime_ms moment) self.now) at.now }
    {
        match self.filters.get(at) {
            Some(stored) => size_of(stored, moment, lifetime_ms),
            None => 0,
        }
    }
}
