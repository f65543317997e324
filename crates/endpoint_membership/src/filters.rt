//! Filters, kept by group, so that those of a group's members stand together, and seen by endpoint.

ghost use Rattle.std.specs.{Prelude.{◌≡◌, ◌<◌, ◌^◌, [], true, is_some, length, map, None, Some, OnOk, OnErr}, BTreeMap.{get}, BTreeSet.{IsOrdered}, Option.{option_copied}};
ghost use Rattle.endpoint_membership.specs.{EndpointGroup.{endpoint_group_order}, Filters.{IsSetAt, group_member_order, member_of, membership_with, pair_of, stored_membership}, Membership.{endpoint_group_of}, Memberships.{membership_in}, declared.keys.GroupMember.{GroupMember as Member}};

use crate::keys::{EndpointGroup, GroupMember};
use crate::stored::StoredFilter;
use std::alloc::{AllocError, Global};
use std::collections::{BTreeMap, BTreeSet};
use std::marker::Model;

/// Filters by endpoint and then by group: as such memberships they are seen.
///
/// They are kept by group, so that the members of a group are a range with their filters, and who
/// gets a packet is found without a look-up for each.
#[derive(Debug, Drop)]
pub struct StoredFilters {
    by_group: BTreeMap<GroupMember, StoredFilter>,
    // The pairs that have one.
    pairs: BTreeSet<EndpointGroup>,
}

impl Model for StoredFilters {
    ghost use Rattle.std.specs.Prelude.{List};
    ghost use Rattle.endpoint_membership.specs.{Filters.{HaveSamePairs, memberships_by}, Membership.{Membership}};

    ghost Value = { List Membership };

    ghost view = { λ s. memberships_by s.by_group s.pairs };

    ghost invariant = { λ s. HaveSamePairs s.by_group s.pairs };
}

pub fn member_of(at: &EndpointGroup) -> GroupMember
    ensures { result ≡ member_of at.now }
{
    GroupMember {
        group: at.group,
        endpoint: at.endpoint,
    }
}

impl StoredFilters {
    pub fn new(alloc: Global) -> Self
        ensures { result ≡ [] }
    {
        StoredFilters {
            by_group: BTreeMap::new(alloc),
            pairs: BTreeSet::new(alloc),
        }
    }

    pub fn len(&self) -> usize
        ensures len { result ≡ length self.now }
        ensures small { result < 2 ^ 63 }
    {
        self.pairs.len()
    }

    pub fn get(&self, at: &EndpointGroup) -> Option<&StoredFilter>
        ensures value { membership_with at.now (option_copied result) ≡ membership_in self.now at.now }
    {
        self.by_group.get(&member_of(at))
    }

    pub fn contains_key(&self, at: &EndpointGroup) -> bool
        ensures { result ≡ is_some (membership_in self.now at.now) }
    {
        self.pairs.contains(at)
    }

    /// The pairs that have a filter, by endpoint and then by group.
    pub fn pairs(&self) -> &BTreeSet<EndpointGroup>
        ensures keys { result.now.keys ≡ map endpoint_group_of self.now }
        ensures ordered { IsOrdered endpoint_group_order result.now }
    {
        &self.pairs
    }

    /// The same filters by group and then by endpoint.
    pub fn by_group(&self) -> &BTreeMap<GroupMember, StoredFilter>
        ensures { (member : Member) → membership_with (pair_of member)
            (get group_member_order result.now member)
            ≡ membership_in self.now (pair_of member) }
    {
        &self.by_group
    }

    /// Adds the filter of a pair that has none. Out of memory nothing changes.
    pub fn insert(&mut self, at: EndpointGroup, stored: StoredFilter) -> Result<(), AllocError>
        requires absent { membership_in self.old at ≡ None }
        ensures set { OnOk result
            (IsSetAt at (Some (stored_membership (at, stored))) self.old self.new) }
        ensures err { OnErr result (self.new ≡ self.old) }
    {
        let member = member_of(&at);
        self.by_group.insert(member, stored)?;
        let Ok(_) = self.pairs.insert(at) else {
            self.by_group.remove(&member);
            return Err(AllocError);
        };
        Ok(())
    }

    /// Puts a filter in the place of the pair's, which it gives back. It takes no memory.
    pub fn put(&mut self, at: EndpointGroup, stored: StoredFilter) -> Option<StoredFilter>
        requires { is_some (membership_in self.old at) ≡ true }
        ensures old { membership_with at result ≡ membership_in self.old at }
        ensures set { IsSetAt at (Some (stored_membership (at, stored))) self.old self.new }
        ensures pairs { map endpoint_group_of self.new ≡ map endpoint_group_of self.old }
    {
        match self.by_group.insert(member_of(&at), stored) {
            Ok(old) => old,
            // Only a member that has no filter is refused.
            Err(_) => unreachable!(),
        }
    }

    /// Takes the filter of the pair out, if there is one.
    pub fn remove(&mut self, at: &EndpointGroup) -> Option<StoredFilter>
        ensures value { membership_with at.now result ≡ membership_in self.old at.now }
        ensures set { IsSetAt at.now None self.old self.new }
    {
        self.pairs.remove(at);
        self.by_group.remove(&member_of(at))
    }
}
