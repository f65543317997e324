//! The first limit that a report passes.

ghost use Rattle.std.specs.{Prelude.{◌≡◌, ◌<◌, ◌≤◌, ◌^◌, max, nat_lt}, List.{filter, find}, Option.{option_copied}};
ghost use Rattle.amt_values.specs.Conditions.{first_holding};
ghost use Rattle.endpoint_membership.specs.{EndpointMemberships.{is_over, live_with, width_fault}, Limits.{count_conditions, is_reported, raised, size, size_at}, EndpointGroup.{same_group}, Membership.{endpoint_group_of, is_fresh}};

use crate::limits::{LimitFault, Limits};
use crate::parts::StoredMemberships;
use crate::parts::live::one_unless;
use crate::stored::OwnMembership;
use amt_values::{Ip, Moment};
use source_filter::Record;

fn is_on(group_record: &Record, group: &Ip) -> bool
    ensures { result ≡ same_group group.now group_record.now.group }
{
    *group == group_record.group
}

fn is_reported(records: &[Record], group: &Ip) -> bool
    ensures { result ≡ is_reported records.now group.now }
{
    records
        .iter()
        .any(|group_record| is_on(group_record, group))
}

// What a report may leave: as much as the limit, or as there was before.
fn allowed(limit: u32, before: usize) -> usize
    ensures { result ≡ max limit before }
{
    before.max(limit as usize)
}

// What there was before is looked up only where the limit is passed.
fn is_wider(
    rows: &StoredMemberships,
    membership: &OwnMembership,
    most: u32,
    moment: Moment,
    lifetime_ms: u64,
) -> bool
    requires { lifetime_ms ≤ 1000000000 }
    ensures { result ≡ nat_lt (max most (size_at (filter (is_fresh lifetime_ms moment) rows.now)
        (endpoint_group_of membership.now))) (size membership.now) }
{
    let size = membership.filter().sources().len();
    if size <= most as usize {
        return false;
    }
    size > rows.size_at(&membership.endpoint_group(), moment, lifetime_ms)
}

// The records are looked through last: a membership that is wider than before is of a reported group,
// so they are looked through once.
fn is_over(
    rows: &StoredMemberships,
    membership: &OwnMembership,
    records: &[Record],
    most: u32,
    moment: Moment,
    lifetime_ms: u64,
) -> bool
    requires { lifetime_ms ≤ 1000000000 }
    ensures { result ≡ is_over most (filter (is_fresh lifetime_ms moment) rows.now)
        records.now membership.now }
{
    is_wider(rows, membership, most, moment, lifetime_ms)
        && is_reported(records, &membership.group())
}

/// The first membership of an endpoint after its report that has too many sources.
pub fn find_over<'a>(
    rows: &StoredMemberships,
    own: &'a [OwnMembership],
    records: &[Record],
    most: u32,
    moment: Moment,
    lifetime_ms: u64,
) -> Option<&'a OwnMembership>
    requires { lifetime_ms ≤ 1000000000 }
    ensures { option_copied result
        ≡ find (is_over most (filter (is_fresh lifetime_ms moment) rows.now) records.now) own.now }
{
    own.iter().find(|membership| is_over(rows, membership, records, most, moment, lifetime_ms))
}

/// What a membership passes that has too many sources.
pub fn width_fault(membership: &OwnMembership) -> LimitFault
    requires { size membership.now < 2 ^ 32 }
    ensures { result ≡ width_fault membership.now }
{
    LimitFault::Sources(
        membership.group(),
        membership.filter().sources().len() as u32,
    )
}

/// How many groups an endpoint has, and how many endpoints are live.
#[derive(Clone, Copy, Debug)]
pub struct Counts {
    pub groups: usize,
    pub live: usize,
}

impl Counts {
    /// By the number of its groups and of the other live endpoints.
    pub fn new(groups: usize, others: usize) -> Self
        requires { others < 2 ^ 32 }
        ensures { result ≡ record { groups = groups; live = live_with others groups } }
    {
        Counts {
            groups,
            live: others + one_unless(groups == 0),
        }
    }
}

/// The first limit that the numbers after a report pass, by those without it.
pub fn count_passed(limits: &Limits, before: Counts, after: Counts) -> Option<LimitFault>
    requires groups { after.groups < 2 ^ 32 }
    requires endpoints { after.live < 2 ^ 32 }
    ensures { result ≡ first_holding
        (count_conditions (raised limits.now before.groups before.live) after.groups after.live) }
{
    if after.groups > allowed(limits.groups, before.groups) {
        return Some(LimitFault::Groups(after.groups as u32));
    }
    if after.live > allowed(limits.endpoints, before.live) {
        return Some(LimitFault::Endpoints(after.live as u32));
    }
    None
}
