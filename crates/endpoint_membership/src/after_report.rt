//! The memberships of an endpoint after its report.

ghost use Rattle.std.specs.{Prelude.{◌≡◌, ◌≤◌, [], ◌∷◌, IfOk, OnOk, Some, if◌then◌else◌}, BTreeMap.{get, IsOrdered}, List.{filter, filter_map}};
ghost use Rattle.amt_values.specs.{declared.address.Ip.{Ip as Address}, Order.{ip_order}};
ghost use Rattle.endpoint_membership.specs.{EndpointMemberships.{AreGone, AreOwn, gone_of_entry, membership_of_entry, renewed_filter_after_all}, Effective.{IsInOrder, lent}, Limits.{group_count}, Log.{on_group}, EndpointGroup.{same_group}, Membership.{is_fresh}};
ghost use Rattle.source_filter.specs.Filter.{wants_any};

use crate::effective::effective_records;
use crate::keys::EndpointGroup;
use crate::parts::StoredMemberships;
use crate::stored::OwnMembership;
use amt_values::{Endpoint, Ip, Moment};
use source_filter::{Filter, MutableFilter, Record, Records};
use std::alloc::{AllocError, Global};
use std::collections::{BTreeMap, VecDeque};

/// The memberships of an endpoint after its report, by group, its pairs of which nothing is wanted any
/// more, and how many memberships it has without the report.
#[derive(Debug, Drop)]
pub struct OwnAfter {
    pub before: usize,
    pub memberships: Vec<OwnMembership>,
    pub gone: Vec<EndpointGroup>,
}

/// A group's filter while the records of a report are applied, and when it was last renewed.
#[derive(Debug, Drop)]
pub struct RenewedFilter {
    pub filter: MutableFilter,
    pub renewed: Moment,
}

impl RenewedFilter {
    ghost use Rattle.source_filter.specs.Filter.{filter_after, nothing};

    // Of a group of which nothing is wanted.
    fn new(alloc: Global, moment: Moment) -> Self
        ensures { result ≡ record { filter = nothing; renewed = moment } }
    {
        RenewedFilter {
            filter: MutableFilter::new(alloc),
            renewed: moment,
        }
    }

    // Applies a record on its group, which renews it.
    fn apply(&mut self, group_record: &Record, moment: Moment) -> Result<(), AllocError>
        ensures { OnOk result (self.new ≡ record {
          filter = filter_after self.old.filter group_record.now;
          renewed = moment;
        }) }
    {
        self.filter.apply(group_record)?;
        self.renewed = moment;
        Ok(())
    }
}

// Puts this filter in the place of the group's.
pub fn set_filter(
    filters: &mut BTreeMap<Ip, RenewedFilter>,
    group: Ip,
    renewed_filter: RenewedFilter,
) -> Result<(), AllocError>
    ensures { OnOk result ((other : Address) → get ip_order filters.new other
        ≡ (if same_group group other then Some renewed_filter else get ip_order filters.old other)) }
{
    match filters.insert(group, renewed_filter) {
        Ok(_) => Ok(()),
        Err(_) => Err(AllocError),
    }
}

// Applies one record to the filter of its group, in its place in the map. A report may have thousands of
// records on few groups, so a filter isn't taken out and put back for each.
fn apply_record(
    alloc: Global,
    filters: &mut BTreeMap<Ip, RenewedFilter>,
    group_record: &Record,
    moment: Moment,
) -> Result<(), AllocError>
    ensures { OnOk result ((group : Address) → get ip_order filters.new group
        ≡ renewed_filter_after_all moment (on_group group (group_record.now ∷ []))
        (get ip_order filters.old group)) }
{
    if let Some(known) = filters.get_mut(&group_record.group) {
        return known.apply(group_record, moment);
    }
    let mut first = RenewedFilter::new(alloc, moment);
    first.apply(group_record, moment)?;
    set_filter(filters, group_record.group, first)
}

// A report of no more records is applied as it is: what later ones leave without effect is looked for in
// longer ones alone, since that costs a look for each.
const FEW_RECORDS: usize = 256;

// Applies records in their order.
fn apply_few(
    alloc: Global,
    filters: &mut BTreeMap<Ip, RenewedFilter>,
    records: &[Record],
    moment: Moment,
) -> Result<(), AllocError>
    ensures { OnOk result ((group : Address) → get ip_order filters.new group
        ≡ renewed_filter_after_all moment (on_group group records.now)
        (get ip_order filters.old group)) }
{
    for group_record in records {
        apply_record(alloc, filters, group_record, moment)?;
    }
    Ok(())
}

// Applies these records in their order.
fn apply_each(
    alloc: Global,
    filters: &mut BTreeMap<Ip, RenewedFilter>,
    mut records: VecDeque<&Record>,
    moment: Moment,
) -> Result<(), AllocError>
    ensures { OnOk result ((group : Address) → get ip_order filters.new group
        ≡ renewed_filter_after_all moment (on_group group (lent records.entry.items))
        (get ip_order filters.old group)) }
{
    while let Some(group_record) = records.pop_front() {
        apply_record(alloc, filters, group_record, moment)?;
    }
    Ok(())
}

// Applies records in their order, but for those that later ones leave without effect.
fn apply_records(
    alloc: Global,
    filters: &mut BTreeMap<Ip, RenewedFilter>,
    records: &[Record],
    moment: Moment,
) -> Result<(), AllocError>
    requires { (group : Address) → IsInOrder (get ip_order filters.old group) }
    ensures { OnOk result ((group : Address) → get ip_order filters.new group
        ≡ renewed_filter_after_all moment (on_group group records.now)
        (get ip_order filters.old group)) }
{
    if records.len() <= FEW_RECORDS {
        return apply_few(alloc, filters, records, moment);
    }
    let effective = effective_records(alloc, records)?;
    apply_each(alloc, filters, effective, moment)
}

fn wants_any(renewed_filter: &RenewedFilter) -> bool
    ensures { result ≡ wants_any renewed_filter.now.filter }
{
    renewed_filter.filter.wants_any()
}

fn membership_of(
    alloc: Global,
    endpoint: &Endpoint,
    group: Ip,
    renewed_filter: &RenewedFilter,
) -> Result<OwnMembership, AllocError>
    ensures { IfOk result (λ membership. membership ≡ record {
      endpoint = endpoint.now;
      group = group;
      filter = renewed_filter.now.filter;
      renewed = renewed_filter.now.renewed;
    }) }
{
    Ok(OwnMembership::new(
        *endpoint,
        group,
        Filter::of_mutable(alloc, &renewed_filter.filter)?,
        renewed_filter.renewed,
    ))
}

// The memberships that filters make, by group, and the groups of which nothing is wanted.
fn memberships_of_filters(
    alloc: Global,
    endpoint: &Endpoint,
    before: usize,
    filters: BTreeMap<Ip, RenewedFilter>,
) -> Result<OwnAfter, AllocError>
    ensures before { IfOk result (λ after. after.before ≡ before) }
    ensures rows { IfOk result (λ after. after.memberships.items
        ≡ filter_map (membership_of_entry endpoint.now) filters.entries) }
    ensures gone { IfOk result
        (λ after. after.gone.items ≡ filter_map (gone_of_entry endpoint.now) filters.entries) }
    ensures ordered { OnOk result (IsOrdered ip_order filters) }
{
    let mut memberships = Vec::with_capacity(alloc, filters.len())?;
    let mut gone = Vec::new(alloc);
    for (group, renewed_filter) in filters {
        if wants_any(&renewed_filter) {
            memberships.push(membership_of(alloc, endpoint, group, &renewed_filter)?)?;
        } else {
            gone.push(EndpointGroup {
                endpoint: *endpoint,
                group,
            })?;
        }
    }
    Ok(OwnAfter {
        before,
        memberships,
        gone,
    })
}

// The memberships of the endpoint after its records, by group.
//
// A report may hold thousands of records of one source each on one group, and anyone may send it.
// So records change sets in place, and each list is made once, at the end: with n for the endpoint's
// sources and those of the report and its records, this costs n log n steps, however the sources are
// spread over records.
pub fn memberships_after(
    alloc: Global,
    rows: &StoredMemberships,
    endpoint: &Endpoint,
    records: &Records,
    moment: Moment,
    lifetime_ms: u64,
) -> Result<OwnAfter, AllocError>
    requires { lifetime_ms ≤ 1000000000 }
    ensures own { IfOk result (λ after. AreOwn lifetime_ms moment endpoint.now records.now
        rows.now after.memberships.items) }
    ensures gone { IfOk result (λ after. AreGone lifetime_ms moment endpoint.now rows.now
        after.memberships.items after.gone.items) }
    ensures before { IfOk result (λ after. after.before
        ≡ group_count endpoint.now (filter (is_fresh lifetime_ms moment) rows.now)) }
{
    let mut filters = rows.own_filters(alloc, endpoint, moment, lifetime_ms)?;
    let before = filters.len();
    apply_records(alloc, &mut filters, records.as_slice(), moment)?;
    memberships_of_filters(alloc, endpoint, before, filters)
}
