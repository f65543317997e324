//! Filters afterwards, compared with those that are stored.

ghost use Rattle.std.specs.Prelude.{◌≡◌, List, IfOk};
ghost use Rattle.endpoint_membership.specs.{FiltersAfter.{AreFiltersAfter, change_at, is_changed, same_filter}, Membership.{Membership}, MembershipChanges.{AreChanges}};

use super::StoredMemberships;
use crate::filters_after::FiltersAfter;
use crate::keys::GroupMember;
use crate::membership_change::{MembershipChange, MembershipChanges};
use source_filter::{Filter, copy_filter};
use std::alloc::{AllocError, Global};

fn is_same(one: &Filter, other: &Filter) -> bool
    ensures { result ≡ same_filter one.now other.now }
{
    one.mode() == other.mode() && one.sources() == other.sources()
}

impl StoredMemberships {
    // Whether the member's filter isn't the one afterwards.
    fn is_changed(&self, member: &GroupMember, after: &Option<Filter>) -> bool
        ensures { result ≡ is_changed self.now (member.now, after.now) }
    {
        let before = self.filter(&member.endpoint, &member.group);
        match (before, after) {
            (Some(before), Some(after)) => !is_same(before, after),
            (None, None) => false,
            _ => true,
        }
    }

    fn change_at(
        &self,
        alloc: Global,
        member: GroupMember,
        after: Option<Filter>,
    ) -> Result<MembershipChange, AllocError>
        ensures { IfOk result (λ change. change ≡ change_at self.now (member, after)) }
    {
        let before = match self.filter(&member.endpoint, &member.group) {
            Some(filter) => Some(copy_filter(alloc, filter)?),
            None => None,
        };
        Ok(MembershipChange {
            group: member.group,
            endpoint: member.endpoint,
            before,
            after,
        })
    }

    /// The changes that these filters afterwards make: none where a filter is what it was before.
    pub fn changes_to(
        &self,
        alloc: Global,
        filters: FiltersAfter,
    ) -> Result<MembershipChanges, AllocError>
        ensures { IfOk result (λ changes. (after : List Membership)
            → AreFiltersAfter self.now after filters → AreChanges self.now after changes) }
    {
        let mut changes = MembershipChanges::new(alloc);
        for (member, after) in filters {
            if self.is_changed(&member, &after) {
                changes.push(self.change_at(alloc, member, after)?)?;
            }
        }
        Ok(changes)
    }
}
