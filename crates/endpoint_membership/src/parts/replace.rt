//! Memberships that are set and taken away together, or not at all.

ghost use Rattle.std.specs.{Prelude.{◌≡◌, None, true, not, is_some, map, IfOk, OnOk, OnErr, if◌then◌else◌}, List.{AllByRecursion, filter}, Option.{option_or}};
ghost use Rattle.amt_values.specs.Ascending.{IsAscending, has};
ghost use Rattle.endpoint_membership.specs.{EndpointGroup.{EndpointGroup as Pair, endpoint_group_order}, Membership.{endpoint_group_of, membership_order}, Memberships.{membership_in}, Stored.{is_known}};

use super::StoredMemberships;
use crate::keys::EndpointGroup;
use crate::stored::OwnMembership;
use std::alloc::{AllocError, Global};

/// Memberships of pairs that have none yet, these pairs, and memberships of pairs that have one.
#[derive(Debug, Drop)]
struct Parted {
    added: Vec<OwnMembership>,
    pairs: Vec<EndpointGroup>,
    kept: Vec<OwnMembership>,
}

impl StoredMemberships {
    fn has(&self, at: &EndpointGroup) -> bool
        ensures { result ≡ is_some (membership_in self.now at.now) }
    {
        self.filters.contains_key(at)
    }

    fn parted(&self, alloc: Global, memberships: Vec<OwnMembership>) -> Result<Parted, AllocError>
        ensures added { IfOk result (λ parted. parted.added.items
            ≡ filter (λ membership. not (is_known self.now membership)) memberships.items) }
        ensures pairs { IfOk result (λ parted. parted.pairs.items
            ≡ map endpoint_group_of parted.added.items) }
        ensures kept { IfOk result (λ parted. parted.kept.items
            ≡ filter (is_known self.now) memberships.items) }
    {
        let mut added = Vec::new(alloc);
        let mut pairs = Vec::new(alloc);
        let mut kept = Vec::new(alloc);
        for membership in memberships {
            let at = membership.endpoint_group();
            if self.has(&at) {
                kept.push(membership)?;
            } else {
                pairs.push(at)?;
                added.push(membership)?;
            }
        }
        Ok(Parted { added, pairs, kept })
    }

    // Out of memory some of the memberships are in.
    fn insert_all(&mut self, added: Vec<OwnMembership>) -> Result<(), AllocError>
        requires ascend { IsAscending membership_order added.items }
        requires old { IsAscending membership_order self.old }
        requires absent { AllByRecursion
            (λ membership. membership_in self.old (endpoint_group_of membership) ≡ None) added.items }
        ensures ok { OnOk result ((at : Pair) → membership_in self.new at
            ≡ option_or (membership_in added.items at) (membership_in self.old at)) }
        ensures others { (at : Pair) → membership_in added.items at ≡ None
            → membership_in self.new at ≡ membership_in self.old at }
        ensures ascends { IsAscending membership_order self.new }
    {
        for membership in added {
            let at = membership.endpoint_group();
            self.insert(at, membership.into_stored_filter())?;
        }
        Ok(())
    }

    fn remove_all(&mut self, pairs: &[EndpointGroup])
        requires { IsAscending membership_order self.old }
        ensures each { (at : Pair) → membership_in self.new at
            ≡ (if has endpoint_group_order pairs.now at then None else membership_in self.old at) }
        ensures ascends { IsAscending membership_order self.new }
    {
        for at in pairs {
            self.remove(at);
        }
    }

    // Out of memory some of those to be added are in.
    fn set_both(
        &mut self,
        added: Vec<OwnMembership>,
        kept: Vec<OwnMembership>,
    ) -> Result<(), AllocError>
        requires old { IsAscending membership_order self.old }
        requires added { IsAscending membership_order added.items }
        requires kept { IsAscending membership_order kept.items }
        requires absent { AllByRecursion
            (λ membership. membership_in self.old (endpoint_group_of membership) ≡ None) added.items }
        requires known { AllByRecursion
            (λ membership. is_known self.old membership ≡ true) kept.items }
        ensures ok { OnOk result ((at : Pair) → membership_in self.new at
            ≡ option_or (membership_in kept.items at)
            (option_or (membership_in added.items at) (membership_in self.old at))) }
        ensures others { OnErr result ((at : Pair) → membership_in added.items at ≡ None
            → membership_in self.new at ≡ membership_in self.old at) }
        ensures ascends { IsAscending membership_order self.new }
    {
        self.insert_all(added)?;
        self.renew(kept)
    }

    // Sets them all, or none.
    fn set_all(&mut self, parted: Parted) -> Result<(), AllocError>
        requires old { IsAscending membership_order self.old }
        requires added { IsAscending membership_order parted.added.items }
        requires kept { IsAscending membership_order parted.kept.items }
        requires absent { AllByRecursion (λ membership. membership_in self.old
            (endpoint_group_of membership) ≡ None) parted.added.items }
        requires pairs { parted.pairs.items ≡ map endpoint_group_of parted.added.items }
        requires known { AllByRecursion
            (λ membership. is_known self.old membership ≡ true) parted.kept.items }
        ensures ok { OnOk result ((at : Pair) → membership_in self.new at
            ≡ option_or (membership_in parted.kept.items at)
            (option_or (membership_in parted.added.items at) (membership_in self.old at))) }
        ensures ascends { IsAscending membership_order self.new }
        ensures err { OnErr result (self.new ≡ self.old) }
    {
        let Parted { added, pairs, kept } = parted;
        match self.set_both(added, kept) {
            Ok(()) => Ok(()),
            Err(full) => {
                self.remove_all(&pairs);
                Err(full)
            }
        }
    }

    /// Sets the memberships of their pairs, and takes away those of other pairs. All that needs memory
    /// is done before anything is replaced or taken away, so that out of memory nothing changes.
    pub fn replace(
        &mut self,
        alloc: Global,
        memberships: Vec<OwnMembership>,
        gone: &[EndpointGroup],
    ) -> Result<(), AllocError>
        requires old { IsAscending membership_order self.old }
        requires ascend { IsAscending membership_order memberships.items }
        ensures ok { OnOk result ((at : Pair) → membership_in self.new at
            ≡ (if has endpoint_group_order gone.now at then None
            else option_or (membership_in memberships.items at) (membership_in self.old at))) }
        ensures ascends { IsAscending membership_order self.new }
        ensures err { OnErr result (self.new ≡ self.old) }
    {
        let parted = self.parted(alloc, memberships)?;
        self.set_all(parted)?;
        self.remove_all(gone);
        Ok(())
    }
}
