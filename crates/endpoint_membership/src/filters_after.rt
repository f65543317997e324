//! The filters of pairs after an entry of the log, as far as the entry may change them.

ghost use Rattle.std.specs.{Prelude.{◌≡◌, Some, OnOk, if◌then◌else◌}, Option.{option_or}};
ghost use Rattle.amt_values.specs.Ascending.{IsAscending};
ghost use Rattle.endpoint_membership.specs.{EndpointGroup.{EndpointGroup as Pair, same_endpoint_group}, FiltersAfter.{cleared_at, left_at, left_of}, Membership.{membership_order}, Memberships.{membership_in}};

use crate::filters::member_of;
use crate::keys::{EndpointGroup, GroupMember};
use crate::stored::OwnMembership;
use source_filter::Filter;
use std::alloc::{AllocError, Global};
use std::collections::BTreeMap;

/// By group and then by endpoint. A pair that has none afterwards has `None` here; one that isn't here
/// keeps the filter that it has.
pub type FiltersAfter = BTreeMap<GroupMember, Option<Filter>>;

// Says what the pair has afterwards, in the place of what was said of it before.
fn set_left(
    filters: &mut FiltersAfter,
    at: &EndpointGroup,
    left: Option<Filter>,
) -> Result<(), AllocError>
    ensures { OnOk result ((other : Pair) → left_at filters.new other
        ≡ (if same_endpoint_group at.now other then Some left else left_at filters.old other)) }
{
    match filters.insert(member_of(at), left) {
        Ok(_) => Ok(()),
        Err(_) => Err(AllocError),
    }
}

/// These pairs have none afterwards.
pub fn clear_each(filters: &mut FiltersAfter, pairs: &[EndpointGroup]) -> Result<(), AllocError>
    ensures { OnOk result ((at : Pair) → left_at filters.new at
        ≡ cleared_at pairs.now at (left_at filters.old at)) }
{
    for at in pairs {
        set_left(filters, at, None)?;
    }
    Ok(())
}

/// The pairs of these memberships have their filters afterwards.
pub fn set_each(
    filters: &mut FiltersAfter,
    memberships: Vec<OwnMembership>,
) -> Result<(), AllocError>
    requires { IsAscending membership_order memberships.items }
    ensures { OnOk result ((at : Pair) → left_at filters.new at
        ≡ option_or (left_of (membership_in memberships.items at)) (left_at filters.old at)) }
{
    for membership in memberships {
        let at = membership.endpoint_group();
        set_left(filters, &at, Some(membership.into_stored_filter().filter))?;
    }
    Ok(())
}
