//! What is looked at of the filter of a group that changes.

ghost use Rattle.std.specs.Prelude.{◌≡◌, List, IfOk, option_copied};
ghost use Rattle.amt_values.specs.{Order.{ip_order}, Ascending.{IsAscending}};
ghost use Rattle.endpoint_membership.specs.{Membership.{Membership}, MembershipChanges.{AreChanges, filter_at}};
ghost use Rattle.amt_upstream.specs.{Looking.{IsAfter, seen_after, sources_if}, Upstream.{joined}};

use crate::tally::Tally;
use amt_values::{Endpoint, Ip, order_of_endpoints, order_of_ips};
use endpoint_membership::{MembershipChange, Table};
use source_filter::{Filter, Mode};
use std::alloc::{AllocError, Global};

/// What matters of a group's filter after changes from the table, where the filter before is of this
/// mode: an EXCLUDE filter whole; of an INCLUDE list all, if the group excluded before, and else only
/// the named sources. The numbers are those after the changes.
pub fn look_after(
    alloc: Global,
    table: &Table,
    changes: &[MembershipChange],
    tally: &Tally,
    mode: Mode,
    group: &Ip,
    named: &[Ip],
) -> Result<Filter, AllocError>
    ensures { (after : List Membership)
        → IsAfter table.now.rows changes.now tally.now.numbers after
        → IfOk result (λ found. found ≡ seen_after mode named.now (joined after group.now)) }
{
    match tally.excluder(group) {
        Some(endpoint) => {
            let its = filter_after(table, changes, &endpoint, group);
            tally.common(alloc, group, sources_of(its))
        }
        None => match mode {
            Mode::Include => tally.included_among(alloc, group, named),
            Mode::Exclude => tally.included(alloc, group),
        },
    }
}

/// The sources of a filter, if there is one.
pub fn sources_of(filter: Option<&Filter>) -> &[Ip]
    ensures listed { result.now ≡ sources_if (option_copied filter.entry) }
    ensures ascending { IsAscending ip_order result.now }
{
    match filter {
        Some(filter) => filter.sources(),
        None => &[],
    }
}

// What the endpoint wants of the group after the changes, if it has a membership there.
fn filter_after<'a>(
    table: &'a Table,
    changes: &'a [MembershipChange],
    endpoint: &Endpoint,
    group: &Ip,
) -> Option<&'a Filter>
    ensures { (after : List Membership) → AreChanges table.now.rows after changes.now
        → option_copied result
        ≡ filter_at after (record { endpoint = endpoint.now; group = group.now }) }
{
    match changes.binary_search_by(|change| {
        order_of_ips(&change.group, group).then(order_of_endpoints(&change.endpoint, endpoint))
    }) {
        Ok(found) => changes[found].after.as_ref(),
        Err(_) => table.filter(endpoint, group),
    }
}
