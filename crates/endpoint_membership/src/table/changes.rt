//! What a table's next entry changes, before it is taken.

ghost use Rattle.std.specs.Prelude.{◌≡◌, [], ◌∷◌, ◌++◌, IfOk, option_copied};
ghost use Rattle.endpoint_membership.specs.{EndpointGroup.{EndpointGroup as Pair}, FiltersAfter.{AreFiltersAfter, expired_left, left_at}, Memberships.{membership_in}, MembershipChanges.{AreChanges, filter_at}, Table.{ForLog, memberships_now}, declared.change.Change.TheVariants.{Clear, Mark, Reported}};

use super::Table;
use crate::after_report::OwnAfter;
use crate::change::Change;
use crate::filters_after::{FiltersAfter, clear_each, set_each};
use crate::membership_change::MembershipChanges;
use amt_values::{Endpoint, Ip, Moment};
use source_filter::{Filter, Records};
use std::alloc::{AllocError, Global};
use std::collections::BTreeMap;

impl Table {
    /// What the endpoint wants of the group, if it has a membership there.
    pub fn filter(&self, endpoint: &Endpoint, group: &Ip) -> Option<&Filter>
        ensures value { option_copied result
            ≡ filter_at self.now.rows (record { endpoint = endpoint.now; group = group.now }) }
        ensures log { ForLog self.now (λ settings log. option_copied result
            ≡ filter_at (memberships_now settings log) (record { endpoint = endpoint.now; group = group.now })) }
    {
        self.rows.filter(endpoint, group)
    }

    // What wasn't renewed in time ends.
    fn expired_after(&self, alloc: Global, moment: Moment) -> Result<FiltersAfter, AllocError>
        ensures { IfOk result (λ filters. (at : Pair) → left_at filters at
            ≡ expired_left self.now.lifetime moment (membership_in self.now.rows at)) }
    {
        let mut filters = BTreeMap::new(alloc);
        let expired = self.rows.expired_pairs(alloc, moment, self.lifetime_ms)?;
        clear_each(&mut filters, &expired)?;
        Ok(filters)
    }

    fn after_report(
        &self,
        alloc: Global,
        endpoint: &Endpoint,
        records: &Records,
        at: &Moment,
    ) -> Result<FiltersAfter, AllocError>
        ensures { ForLog self.now (λ settings log. IfOk result (AreFiltersAfter self.now.rows
            (memberships_now settings (log ++ Reported endpoint.now records.now at.now ∷ [])))) }
    {
        let moment = self.moment.later(at);
        let OwnAfter {
            memberships,
            gone,
            ..
        } = self.own_after(alloc, endpoint, records, moment)?;
        let mut filters = self.expired_after(alloc, moment)?;
        clear_each(&mut filters, &gone)?;
        // Last, since a membership that is renewed may have expired.
        set_each(&mut filters, memberships)?;
        Ok(filters)
    }

    fn after_clearing(
        &self,
        alloc: Global,
        endpoint: &Endpoint,
        at: &Moment,
    ) -> Result<FiltersAfter, AllocError>
        ensures { ForLog self.now (λ settings log. IfOk result (AreFiltersAfter self.now.rows
            (memberships_now settings (log ++ Clear endpoint.now at.now ∷ [])))) }
    {
        let mut filters = self.expired_after(alloc, self.moment.later(at))?;
        let own = self.rows.pairs_of(alloc, endpoint)?;
        clear_each(&mut filters, &own)?;
        Ok(filters)
    }

    fn after_mark(&self, alloc: Global, at: &Moment) -> Result<FiltersAfter, AllocError>
        ensures { ForLog self.now (λ settings log. IfOk result (AreFiltersAfter self.now.rows
            (memberships_now settings (log ++ Mark at.now ∷ [])))) }
    {
        self.expired_after(alloc, self.moment.later(at))
    }

    // The filters after one more entry, at each pair whose filter it may change.
    fn filters_after(&self, alloc: Global, change: &Change) -> Result<FiltersAfter, AllocError>
        ensures { ForLog self.now (λ settings log. IfOk result (AreFiltersAfter self.now.rows
            (memberships_now settings (log ++ change.now ∷ [])))) }
    {
        match change {
            Change::Reported {
                endpoint,
                records,
                at,
            } => self.after_report(alloc, endpoint, records, at),
            Change::Clear { endpoint, at } => self.after_clearing(alloc, endpoint, at),
            Change::Mark { at } => self.after_mark(alloc, at),
        }
    }

    /// What one more entry of the log changes of what endpoints want, by group and then by endpoint.
    /// It goes over the endpoint's own memberships, the entry's records and what expires by then, and
    /// over no other membership.
    pub fn changes_by(
        &self,
        alloc: Global,
        change: &Change,
    ) -> Result<MembershipChanges, AllocError>
        ensures { ForLog self.now (λ settings log. IfOk result (AreChanges (memberships_now settings log)
            (memberships_now settings (log ++ change.now ∷ [])))) }
    {
        let filters = self.filters_after(alloc, change)?;
        self.rows.changes_to(alloc, filters)
    }
}
