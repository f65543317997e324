//! Memberships that are renewed, all or none.

ghost use Rattle.std.specs.{Prelude.{◌≡◌, [], true, not, ◌&&◌, ◌||◌, is_some, map, Some, OnOk, OnErr}, BTreeSet.{contains}, List.{AllByRecursion}, Option.{option_or}};
ghost use Rattle.amt_values.specs.Ascending.{IsAscending};
ghost use Rattle.endpoint_membership.specs.{EndpointGroup.{EndpointGroup as Pair}, Filters.{IsSetAt}, Membership.{endpoint_group_of, membership_order}, Memberships.{membership_in}, Parts.{AreRenewalsOf, is_renewal_in, is_stored, renewal_of, renewal_order}, declared.keys.LastRenewal.{LastRenewal as Renewed}};

use super::StoredMemberships;
use crate::filters::StoredFilters;
use crate::keys::LastRenewal;
use crate::stored::OwnMembership;
use std::alloc::AllocError;
use std::collections::BTreeSet;

impl StoredMemberships {
    /// Puts memberships in the place of those of their pairs, each of which has one. All new renewals
    /// go in before an old one comes out, so that out of memory nothing changes.
    pub fn renew(&mut self, memberships: Vec<OwnMembership>) -> Result<(), AllocError>
        requires ascend { IsAscending membership_order memberships.items }
        requires present { AllByRecursion (λ membership.
            is_some (membership_in self.old (endpoint_group_of membership)) ≡ true) memberships.items }
        ensures ok { OnOk result ((at : Pair) → membership_in self.new at
            ≡ option_or (membership_in memberships.items at) (membership_in self.old at)) }
        ensures ascends { IsAscending membership_order self.new }
        ensures err { OnErr result (self.new ≡ self.old) }
    {
        stage(&self.filters, &mut self.renewals, &memberships)?;
        settle(&mut self.filters, &mut self.renewals, memberships);
        Ok(())
    }
}

fn renewal_of(membership: &OwnMembership) -> LastRenewal
    ensures { result ≡ renewal_of membership.now }
{
    LastRenewal {
        renewed: membership.renewed(),
        at: membership.endpoint_group(),
    }
}

fn is_stored(filters: &StoredFilters, renewal: &LastRenewal) -> bool
    ensures { result ≡ is_stored filters.now renewal.now }
{
    match filters.get(&renewal.at) {
        Some(stored) => stored.renewed == renewal.renewed,
        None => false,
    }
}

// Puts the renewals of memberships in, up to a refusal.
fn put_renewals(
    renewals: &mut BTreeSet<LastRenewal>,
    memberships: &[OwnMembership],
) -> Result<(), AllocError>
    ensures ok { OnOk result ((renewal : Renewed) → contains renewal_order renewals.new renewal
        ≡ (is_renewal_in memberships.now renewal || contains renewal_order renewals.old renewal)) }
    ensures err { OnErr result ((renewal : Renewed) → contains renewal_order renewals.new renewal
        ≡ ((is_renewal_in memberships.now renewal && contains renewal_order renewals.new renewal)
        || contains renewal_order renewals.old renewal)) }
{
    for membership in memberships {
        match renewals.insert(renewal_of(membership)) {
            Ok(_) => {}
            Err(_) => return Err(AllocError),
        }
    }
    Ok(())
}

// Takes the renewals of memberships out, except those of the filters.
fn take_renewals(
    filters: &StoredFilters,
    renewals: &mut BTreeSet<LastRenewal>,
    memberships: &[OwnMembership],
)
    ensures { (renewal : Renewed) → contains renewal_order renewals.new renewal
        ≡ (contains renewal_order renewals.old renewal
        && not (is_renewal_in memberships.now renewal && not (is_stored filters.now renewal))) }
{
    for membership in memberships {
        let renewal = renewal_of(membership);
        if !is_stored(filters, &renewal) {
            renewals.remove(&renewal);
        }
    }
}

// Puts the renewals of memberships beside those of the filters, or changes nothing. What a refusal
// has to take out is known without a list of it, since the filters are still the old ones.
fn stage(
    filters: &StoredFilters,
    renewals: &mut BTreeSet<LastRenewal>,
    memberships: &[OwnMembership],
) -> Result<(), AllocError>
    requires { AreRenewalsOf [] filters.now renewals.old }
    ensures ok { OnOk result (AreRenewalsOf memberships.now filters.now renewals.new) }
    ensures err { OnErr result (AreRenewalsOf [] filters.now renewals.new) }
{
    match put_renewals(renewals, memberships) {
        Ok(()) => Ok(()),
        Err(_) => {
            take_renewals(filters, renewals, memberships);
            Err(AllocError)
        }
    }
}

// Puts a membership in the place of that of its pair, whose renewal comes out if it is another.
fn put_membership(
    filters: &mut StoredFilters,
    renewals: &mut BTreeSet<LastRenewal>,
    membership: OwnMembership,
)
    requires { is_some (membership_in filters.old (endpoint_group_of membership)) ≡ true }
    ensures set { IsSetAt (endpoint_group_of membership) (Some membership) filters.old filters.new }
    ensures pairs { map endpoint_group_of filters.new ≡ map endpoint_group_of filters.old }
    ensures renewals { (renewal : Renewed) → contains renewal_order renewals.new renewal
        ≡ (contains renewal_order renewals.old renewal
        && not (is_stored filters.old renewal && not (is_stored filters.new renewal))) }
{
    let renewal = renewal_of(&membership);
    if let Some(old) = filters.put(renewal.at, membership.into_stored_filter()) {
        if old.renewed != renewal.renewed {
            renewals.remove(&LastRenewal {
                renewed: old.renewed,
                at: renewal.at,
            });
        }
    }
}

// Puts memberships in the place of those of their pairs. Their renewals are there already.
fn settle(
    filters: &mut StoredFilters,
    renewals: &mut BTreeSet<LastRenewal>,
    memberships: Vec<OwnMembership>,
)
    requires ascend { IsAscending membership_order memberships.items }
    requires present { AllByRecursion (λ membership.
        is_some (membership_in filters.old (endpoint_group_of membership)) ≡ true) memberships.items }
    requires staged { AreRenewalsOf memberships.items filters.old renewals.old }
    ensures new { (at : Pair) → membership_in filters.new at
        ≡ option_or (membership_in memberships.items at) (membership_in filters.old at) }
    ensures pairs { map endpoint_group_of filters.new ≡ map endpoint_group_of filters.old }
    ensures renewals { AreRenewalsOf [] filters.new renewals.new }
{
    for membership in memberships {
        put_membership(filters, renewals, membership);
    }
}
