//! A table that follows another one's log, entry by entry.
ghost use Rattle.std.specs.Prelude.{◌≡◌, [], ◌∷◌, ◌++◌, OnOk, OnErr};
ghost use Rattle.endpoint_membership.specs.{Table.{ForLog, Holds}, declared.change.Change.TheVariants.{Reported}};

use super::Table;
use crate::after_report::OwnAfter;
use crate::change::Change;
use amt_values::{Endpoint, Moment};
use source_filter::Records;
use std::alloc::{AllocError, Global};

impl Table {
    // Applies the records of a report in their order, or none of them.
    fn absorb_report(
        &mut self,
        alloc: Global,
        endpoint: &Endpoint,
        records: &Records,
        at: &Moment,
    ) -> Result<(), AllocError>
        ensures stands { ForLog self.old (λ settings log. OnOk result (
            Holds settings self.new (log ++ Reported endpoint.now records.now at.now ∷ []))) }
        ensures same { OnErr result (self.new ≡ self.old) }
        ensures force { self.new.in_force ≡ self.old.in_force }
    {
        let moment = self.moment.later(at);
        let OwnAfter {
            memberships,
            gone,
            ..
        } = self.own_after(alloc, endpoint, records, moment)?;
        self.rows.replace(alloc, memberships, &gone)?;
        self.moment = moment;
        self.rows.purge(moment, self.lifetime_ms);
        Ok(())
    }

    /// Takes one more entry of a log. No limit is tried: whoever accepted the entry has tried them.
    /// Out of memory nothing changes.
    pub fn absorb(&mut self, alloc: Global, change: &Change) -> Result<(), AllocError>
        ensures stands { ForLog self.old (λ settings log.
            OnOk result (Holds settings self.new (log ++ change.now ∷ []))) }
        ensures same { OnErr result (self.new ≡ self.old) }
        ensures force { self.new.in_force ≡ self.old.in_force }
    {
        match change {
            Change::Reported {
                endpoint,
                records,
                at,
            } => self.absorb_report(alloc, endpoint, records, at),
            Change::Clear { endpoint, at } => {
                self.clear(endpoint, at);
                Ok(())
            }
            Change::Mark { at } => {
                self.advance(at);
                Ok(())
            }
        }
    }
}
