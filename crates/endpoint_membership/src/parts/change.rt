//! One membership more, and one less.

ghost use Rattle.std.specs.{Prelude.{◌≡◌, ◌<◌, ◌^◌, None, Some, OnOk, OnErr}, BTreeMap.{get, IsUnchanged}, Map.{count_at}};
ghost use Rattle.amt_values.specs.Order.{endpoint_order};
ghost use Rattle.endpoint_membership.specs.{Filters.{IsSetAt, stored_membership}, Memberships.{membership_in}, Parts.{HasNumber, one_less, one_more}};

use super::StoredMemberships;
use crate::filters::StoredFilters;
use crate::keys::{EndpointGroup, LastRenewal};
use crate::stored::StoredFilter;
use amt_values::Endpoint;
use std::alloc::AllocError;
use std::collections::BTreeMap;

impl StoredMemberships {
    /// Adds the membership of a pair that has none. Out of memory nothing changes.
    pub fn insert(&mut self, at: EndpointGroup, stored: StoredFilter) -> Result<(), AllocError>
        requires absent { membership_in self.old at ≡ None }
        ensures set { OnOk result
            (IsSetAt at (Some (stored_membership (at, stored))) self.old self.new) }
        ensures err { OnErr result (self.new ≡ self.old) }
    {
        // A count is at most the number of filters, so it has room for one more.
        prove!(self.filters.len() < usize::MAX);
        let renewal = LastRenewal {
            renewed: stored.renewed,
            at,
        };
        self.renewals.insert(renewal)?;
        let Ok(()) = insert_counted(&mut self.filters, &mut self.counts, at, stored) else {
            self.renewals.remove(&renewal);
            return Err(AllocError);
        };
        Ok(())
    }

    /// Takes the membership of the pair away, if there is one.
    pub fn remove(&mut self, at: &EndpointGroup)
        ensures { IsSetAt at.now None self.old self.new }
    {
        let Some(stored) = self.filters.remove(at) else {
            return;
        };
        self.renewals.remove(&LastRenewal {
            renewed: stored.renewed,
            at: *at,
        });
        count_less(&mut self.counts, &at.endpoint);
    }
}

// Puts in a filter and counts it, both or neither.
fn insert_counted(
    filters: &mut StoredFilters,
    counts: &mut BTreeMap<Endpoint, usize>,
    at: EndpointGroup,
    stored: StoredFilter,
) -> Result<(), AllocError>
    requires absent { membership_in filters.old at ≡ None }
    requires room { count_at (get endpoint_order counts.old) at.endpoint < 2 ^ 63 }
    ensures filters { OnOk result
        (IsSetAt at (Some (stored_membership (at, stored))) filters.old filters.new) }
    ensures counts { OnOk result (HasNumber at.endpoint
        (one_more (get endpoint_order counts.old at.endpoint)) counts.old counts.new) }
    ensures err_filters { OnErr result (filters.new ≡ filters.old) }
    ensures err_counts { OnErr result (IsUnchanged counts.old counts.new) }
{
    filters.insert(at, stored)?;
    let Ok(()) = count_more(counts, at.endpoint) else {
        filters.remove(&at);
        return Err(AllocError);
    };
    Ok(())
}

// Counts one more of the endpoint.
fn count_more(counts: &mut BTreeMap<Endpoint, usize>, endpoint: Endpoint) -> Result<(), AllocError>
    requires { count_at (get endpoint_order counts.old) endpoint < 2 ^ 63 }
    ensures ok { OnOk result (HasNumber endpoint
        (one_more (get endpoint_order counts.old endpoint)) counts.old counts.new) }
    ensures err { OnErr result (IsUnchanged counts.old counts.new) }
{
    let count = counts.get(&endpoint).copied().unwrap_or(0);
    counts.insert(endpoint, count + 1)?;
    Ok(())
}

// Counts one less of the endpoint.
fn count_less(counts: &mut BTreeMap<Endpoint, usize>, endpoint: &Endpoint)
    ensures { HasNumber endpoint.now
        (one_less (get endpoint_order counts.old endpoint.now)) counts.old counts.new }
{
    let Some(count) = counts.get_mut(endpoint) else {
        return;
    };
    if *count > 1 {
        *count -= 1;
        return;
    }
    counts.remove(endpoint);
}
