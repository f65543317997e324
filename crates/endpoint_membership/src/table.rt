//! The membership table.

ghost use Rattle.std.specs.{Prelude.{◌≡◌, ◌<◌, ◌≤◌, ◌↔◌, ◌^◌, [], ◌∷◌, ◌++◌, max, true, false, length, Some, None, Contains, IfOk, OnOk}, List.{AllByRecursion, filter}};
ghost use Rattle.amt_values.specs.{Order.{endpoint_order}, EndpointValue.{EndpointValue}, Ascending.{IsAscending}};
ghost use Rattle.source_filter.specs.Record.{item_count};
ghost use Rattle.endpoint_membership.specs.{Admission.{is_admitted}, Limits.{AreFew, AreWithin, IsWithin, group_count, live_count, size}, EndpointMemberships.{limit_by_own, AreGone, AreOwn}, Log.{latest}, Membership.{is_fresh}};
ghost use Rattle.endpoint_membership.specs.{Memberships.{is_live, rows_of, memberships_at}, Table.{ForLog, Holds, IsWithinLimits, OnLimit, OnMemory, ReportFits, in_force_of, limit_passed, memberships_now}, Targets.{targets_of}, declared.change.Change.TheVariants.{Clear, Mark, Reported}};

use crate::after_report::{OwnAfter, memberships_after};
use crate::first_limit::{Counts, count_passed, find_over, width_fault};
use crate::limits::{AcceptFault, LimitFault, Limits};
use crate::parts::StoredMemberships;
use crate::row::Rows;
use crate::stored::OwnMembership;
use crate::targets::Targets;
use amt_values::{Endpoint, Ip, Moment};
use source_filter::Records;
use std::alloc::{AllocError, Global};
use std::marker::Model;

mod absorb;
mod changes;

/// The memberships of each tunnel endpoint of a relay.
///
/// A membership lasts from an accepted record by which something is wanted of its group until one
/// lifetime passes without another record, or a record or a clearing ends it. Each call first moves
/// the table to the later of its own moment and the one that it is given.
#[derive(Debug, Drop)]
pub struct Table {
    moment: Moment,
    // The greatest that may be in force.
    limits: Limits,
    // By these reports are judged.
    in_force: Limits,
    lifetime_ms: u64,
    // By endpoint, then group.
    rows: StoredMemberships,
}

impl Model for Table {
    ghost use Rattle.amt_values.specs.Ascending.{IsAscending};
    ghost use Rattle.endpoint_membership.specs.{Limits.{AreAtMost}, Membership.{membership_order}, Table.{AreLawful, TableValue}};

    ghost Value = { TableValue };

    ghost view = { λ t. record { moment = t.moment; limits = t.limits; in_force = t.in_force; lifetime = t.lifetime_ms; rows = t.rows } };

    ghost invariant = { λ t. AreLawful t.limits t.lifetime_ms × IsAscending membership_order t.rows × AreAtMost t.limits t.in_force };

    // Nothing is kept beside what contracts see.
    ghost inverse = { λ v. record { moment = v.moment; limits = v.limits; in_force = v.in_force; lifetime_ms = v.lifetime; rows = v.rows } };
}

impl Table {
    ghost use Rattle.endpoint_membership.specs.Table.{AreLawful};

    /// An empty table at moment 0, with a lifetime in milliseconds. Its limits are in force until
    /// others are set.
    pub fn new(alloc: Global, limits: Limits, lifetime_ms: u64) -> Result<Table, AllocError>
        requires { AreLawful limits lifetime_ms }
        ensures stands { IfOk result (λ table. Holds (record { limits = limits; lifetime = lifetime_ms }) table []) }
        ensures within { IfOk result IsWithinLimits }
        ensures in_force { IfOk result (λ table. table.in_force ≡ limits) }
    {
        Ok(Table {
            moment: Moment::new(0).unwrap(),
            limits,
            in_force: limits,
            lifetime_ms,
            rows: StoredMemberships::new(alloc),
        })
    }

    /// The latest moment of all calls.
    pub fn now(&self) -> Moment
        ensures value { result ≡ self.now.moment }
        ensures latest { ForLog self.now (λ settings log. result ≡ latest log) }
    {
        self.moment
    }

    /// The limits in force, by which reports are judged. More may be kept, where they were lowered.
    pub fn limits(&self) -> Limits
        ensures { result ≡ self.now.in_force }
    {
        self.in_force
    }

    /// Puts other limits in force. Nothing that is kept is dropped, and nothing else changes.
    pub fn set_limits(&mut self, limits: &Limits)
        requires { AreWithin self.old.limits limits.now }
        ensures { self.new ≡ record self.old { in_force = limits.now } }
    {
        self.in_force = *limits;
    }

    /// Lets time pass: what was not renewed in time ends.
    pub fn advance(&mut self, at: &Moment)
        ensures stands { ForLog self.old (λ settings log.
            Holds settings self.new (log ++ Mark at.now ∷ [])) }
        ensures same { ForLog self.old (λ settings log. at.now ≤ latest log → self.new ≡ self.old) }
        ensures within { IsWithinLimits self.old → IsWithinLimits self.new }
        ensures force { self.new.in_force ≡ self.old.in_force }
    {
        self.moment = self.moment.later(at);
        self.rows.purge(self.moment, self.lifetime_ms);
    }

    /// Takes away the endpoint's groups; whether it was live.
    pub fn clear(&mut self, endpoint: &Endpoint, at: &Moment) -> bool
        ensures live { ForLog self.old (λ settings log.
            result ≡ is_live endpoint.now
            (memberships_at settings.lifetime (max at.now (latest log)) log)) }
        ensures stands { ForLog self.old (λ settings log.
            Holds settings self.new (log ++ Clear endpoint.now at.now ∷ [])) }
        ensures same { ForLog self.old (λ settings log.
            at.now ≤ latest log → result ≡ false → self.new ≡ self.old) }
        ensures within { IsWithinLimits self.old → IsWithinLimits self.new }
        ensures force { self.new.in_force ≡ self.old.in_force }
    {
        self.moment = self.moment.later(at);
        self.rows.purge(self.moment, self.lifetime_ms);
        let live = self.rows.is_live(endpoint);
        self.rows.drop_endpoint(endpoint);
        live
    }

    /// How many endpoints have some membership.
    pub fn live_endpoints(&self) -> u32
        requires { IsWithinLimits self.now }
        ensures { ForLog self.now (λ settings log.
            result ≡ live_count (memberships_now settings log)) }
    {
        self.rows.live_count() as u32
    }

    /// The memberships, by endpoint and then by group.
    pub fn rows(&self, alloc: Global) -> Result<Rows, AllocError>
        ensures stands { IfOk result (λ rows. ForLog self.now (λ settings log.
            rows ≡ rows_of settings.lifetime (latest log) log)) }
        ensures bounded { IsWithinLimits self.now → IfOk result (AreFew self.now.limits) }
    {
        self.rows.show(alloc)
    }

    /// Who gets a copy of a packet from the source to the group, at the later of the table's moment
    /// and this one (RFC 7450, section 5.3.3). What was in `out` before is replaced. Room for as
    /// many endpoints as the limits given to `new` allow is always enough.
    pub fn admitting_into(&self, group: &Ip, source: &Ip, at: &Moment, out: &mut Targets)
        requires room { live_count self.now.rows ≤ out.old.room }
        ensures targets { ForLog self.now (λ settings log.
            out.new.endpoints ≡ targets_of settings.lifetime log group.now source.now at.now) }
        ensures exactly { ForLog self.now (λ settings log. (endpoint : EndpointValue)
            → Contains out.new.endpoints endpoint
            ↔ (is_admitted settings.lifetime log (record { endpoint = endpoint; group = group.now })
            source.now at.now ≡ true)) }
        ensures ascending { IsAscending endpoint_order out.new.endpoints }

        ensures room { out.new.room ≡ out.old.room }
        ensures few { length out.new.endpoints ≤ live_count self.now.rows }
    {
        let later = self.moment.later(at);
        self.rows
            .collect_targets(group, source, later, self.lifetime_ms, out);
    }

    // The endpoint's memberships after a report at the moment.
    fn own_after(
        &self,
        alloc: Global,
        endpoint: &Endpoint,
        records: &Records,
        moment: Moment,
    ) -> Result<OwnAfter, AllocError>
        ensures own { IfOk result (λ after. AreOwn self.now.lifetime moment endpoint.now records.now
            self.now.rows after.memberships.items) }
        ensures gone { IfOk result (λ after. AreGone self.now.lifetime moment endpoint.now
            self.now.rows after.memberships.items after.gone.items) }
        ensures before { IfOk result (λ after. after.before ≡ group_count endpoint.now
            (filter (is_fresh self.now.lifetime moment) self.now.rows)) }
    {
        memberships_after(
            alloc,
            &self.rows,
            endpoint,
            records,
            moment,
            self.lifetime_ms,
        )
    }

    // The first limit in force that a report passes, if its endpoint has so many memberships without it,
    // and these afterwards.
    fn limit_passed(
        &self,
        endpoint: &Endpoint,
        records: &Records,
        before: usize,
        own: &[OwnMembership],
        moment: Moment,
    ) -> Option<LimitFault>
        requires within { IsWithinLimits self.now }
        requires groups { length own.now < 2 ^ 32 }
        requires sources { AllByRecursion (λ membership. size membership < 2 ^ 32) own.now }
        ensures { result ≡ limit_by_own self.now.lifetime moment self.now.in_force endpoint.now
            records.now self.now.rows before own.now }
    {
        let all = records.as_slice();
        let most = self.in_force.sources;
        match find_over(&self.rows, own, all, most, moment, self.lifetime_ms) {
            Some(membership) => Some(width_fault(membership)),
            None => {
                let others = self.rows.count_live(endpoint, moment, self.lifetime_ms);
                let without = Counts::new(before, others);
                count_passed(&self.in_force, without, Counts::new(own.len(), others))
            }
        }
    }

    /// Applies the records of a report in their order, or none of them.
    ///
    /// The limits in force are tried on the memberships that there would be afterwards: first the sizes
    /// of reported groups, then the endpoint's groups, then the live endpoints. What is no more than it
    /// would be without the report passes none, so lowered limits refuse only what would grow. A report
    /// that passes a limit lets time pass and changes nothing else.
    pub fn accept(
        &mut self,
        alloc: Global,
        endpoint: &Endpoint,
        records: &Records,
        at: &Moment,
    ) -> Result<(), AcceptFault>
        requires within { IsWithinLimits self.old }
        requires items { item_count records.now ≤ 16777216 }
        ensures passes { ForLog self.old (λ settings log.
            OnOk result (limit_passed (in_force_of settings self.old) log
            endpoint.now records.now at.now ≡ None)) }
        ensures stands { ForLog self.old (λ settings log. OnOk result (
            Holds settings self.new (log ++ Reported endpoint.now records.now at.now ∷ []))) }

        ensures limit { ForLog self.old (λ settings log. OnLimit result (λ fault.
            limit_passed (in_force_of settings self.old) log
            endpoint.now records.now at.now ≡ Some fault)) }
        ensures marks { ForLog self.old (λ settings log.
            OnLimit result (λ _. Holds settings self.new (log ++ Mark at.now ∷ []))) }
        ensures same { ForLog self.old (λ settings log.
            at.now ≤ latest log → OnLimit result (λ _. self.new ≡ self.old)) }
        ensures memory { OnMemory result (self.new ≡ self.old) }

        ensures within { IsWithinLimits self.new }
        ensures fits { ForLog self.old (λ settings log. OnOk result (
            IsWithin settings.limits (memberships_now settings
            (log ++ Reported endpoint.now records.now at.now ∷ [])))) }
        ensures fits_not { ForLog self.old (λ settings log. OnLimit result (λ _.
            ReportFits (in_force_of settings self.old) log endpoint.now records.now at.now → ⊥)) }
        ensures force { self.new.in_force ≡ self.old.in_force }
    {
        let moment = self.moment.later(at);
        let after = match self.own_after(alloc, endpoint, records, moment) {
            Ok(after) => after,
            Err(_) => return Err(AcceptFault::Memory),
        };
        let before = after.before;
        if let Some(fault) = self.limit_passed(
            endpoint,
            records,
            before,
            &after.memberships,
            moment,
        ) {
            self.advance(at);
            return Err(AcceptFault::Limit(fault));
        }
        let OwnAfter {
            memberships,
            gone,
            ..
        } = after;
        match self.rows.replace(alloc, memberships, &gone) {
            Ok(()) => {}
            Err(_) => return Err(AcceptFault::Memory),
        }
        self.moment = moment;
        self.rows.purge(moment, self.lifetime_ms);
        Ok(())
    }
}
