//! What all tunnel endpoints together want.

ghost use Rattle.std.specs.Prelude.{◌≡◌, ◌≤◌, ◌*◌, [], ◌∷◌, ◌++◌, All, IfOk, OnOk, OnErr, map};
ghost use Rattle.endpoint_membership.specs.Table.{AreLawful, ForLog, Holds};
ghost use Rattle.amt_upstream.specs.{Counting.{IsCounted}, Looking.{IsChangedGroupOf, changed_groups}, Taking.{AreChangesBy, AreNumbersAfter}, Upstream.{AdmitsTheWanted, StaysWithin, changes_after, joined, upstream_filter}};

use crate::changed_group::{ChangedGroup, sides_of};
use crate::keys::{keys_after, keys_before};
use crate::looking::look_after;
use crate::records::changed_records;
use crate::tally::Tally;
use amt_values::Ip;
use endpoint_membership::{Change, Limits, MembershipChange, Table};
use source_filter::{Filter, Mode, Records};
use std::alloc::{AllocError, Global};
use std::marker::Model;

/// What all tunnel endpoints together want of each group, by the log of accepted entries.
///
/// Contracts see the table of the log alone: the numbers beside it are what its memberships say.
#[derive(Debug, Drop)]
pub struct Upstream {
    table: Table,
    tally: Tally,
}

impl Model for Upstream {
    ghost use Rattle.endpoint_membership.specs.Table.{TableValue};
    ghost use Rattle.amt_upstream.specs.Counting.{IsCounted};

    ghost Value = { TableValue };

    ghost view = { λ u. u.table };

    ghost invariant = { λ u. IsCounted u.table u.tally.numbers };
}

impl Upstream {
    /// Of the empty log. The limits bound what is counted: their product is at most 16,777,216.
    pub fn new(alloc: Global, limits: Limits, lifetime_ms: u64) -> Result<Upstream, AllocError>
        requires lawful { AreLawful limits lifetime_ms }
        requires product { (limits.endpoints * limits.groups) * limits.sources ≤ 16777216 }
        ensures { IfOk result (λ upstream. Holds (record { limits = limits; lifetime = lifetime_ms }) upstream []) }
    {
        let table = Table::new(alloc, limits, lifetime_ms)?;
        Ok(Upstream {
            table,
            tally: Tally::new(alloc),
        })
    }

    /// Takes the next entry of the log, and answers it by the change records of each group of which
    /// all endpoints together want something else than before, by group. Out of memory nothing changes.
    pub fn take(&mut self, alloc: Global, change: &Change) -> Result<Records, AllocError>
        requires { StaysWithin self.old change.now }
        ensures records { ForLog self.old (λ settings log. IfOk result (λ records.
            records ≡ changes_after settings log change.now)) }
        ensures stands { ForLog self.old (λ settings log. OnOk result (
            Holds settings self.new (log ++ change.now ∷ []))) }
        ensures same { OnErr result (self.new ≡ self.old) }
    {
        let changes = self.table.changes_by(alloc, change)?;
        take_changes(
            alloc,
            &mut self.table,
            &mut self.tally,
            change,
            changes.as_slice(),
        )
    }

    /// What all endpoints together want of the group: INCLUDE of nothing where none wants it.
    pub fn interface(&self, alloc: Global, group: &Ip) -> Result<Filter, AllocError>
        ensures filter { ForLog self.now (λ settings log. IfOk result (λ found.
            found ≡ upstream_filter settings.lifetime log group.now)) }
        ensures admits { ForLog self.now (λ settings log. IfOk result (
            AdmitsTheWanted settings.lifetime log group.now)) }
    {
        joined_filter(alloc, &self.table, &self.tally, group)
    }
}

// Counts the changes, and takes the entry that makes them. Where that fails, the numbers are put back.
fn take_changes(
    alloc: Global,
    table: &mut Table,
    tally: &mut Tally,
    change: &Change,
    changes: &[MembershipChange],
) -> Result<Records, AllocError>
    requires counted { IsCounted table.old tally.old.numbers }
    requires within { StaysWithin table.old change.now }
    requires changes { AreChangesBy table.old change.now changes.now }
    ensures records { ForLog table.old (λ settings log. IfOk result (λ records.
        records ≡ changes_after settings log change.now)) }
    ensures stands { ForLog table.old (λ settings log. OnOk result (
        Holds settings table.new (log ++ change.now ∷ []))) }
    ensures same { OnErr result (table.new ≡ table.old) }
    ensures counted { IsCounted table.new tally.new.numbers }
{
    let sides = sides_of(alloc, table, tally, changes)?;
    let added = keys_after(alloc, changes)?;
    let removed = keys_before(alloc, changes)?;
    tally.count(&added, &removed)?;
    match take_counted(alloc, table, tally, change, changes, &sides) {
        Ok(records) => {
            tally.settle(&removed);
            Ok(records)
        }
        Err(error) => {
            tally.restore(&added, &removed);
            Err(error)
        }
    }
}

// Takes the entry once its changes are counted. The records are made first: they need the table as it
// was before.
fn take_counted(
    alloc: Global,
    table: &mut Table,
    tally: &Tally,
    change: &Change,
    changes: &[MembershipChange],
    sides: &[ChangedGroup],
) -> Result<Records, AllocError>
    requires changes { AreChangesBy table.old change.now changes.now }
    requires numbers { AreNumbersAfter table.old change.now tally.now.numbers }
    requires groups { map (λ side. side.group) sides.now ≡ changed_groups changes.now }
    requires each { All (IsChangedGroupOf table.old.rows changes.now) sides.now }
    ensures records { ForLog table.old (λ settings log. IfOk result (λ records.
        records ≡ changes_after settings log change.now)) }
    ensures stands { ForLog table.old (λ settings log. OnOk result (
        Holds settings table.new (log ++ change.now ∷ []))) }
    ensures same { OnErr result (table.new ≡ table.old) }
{
    let records = changed_records(alloc, table, tally, changes, sides)?;
    table.absorb(alloc, change)?;
    Ok(records)
}

// The filter of the group by the numbers.
fn joined_filter(
    alloc: Global,
    table: &Table,
    tally: &Tally,
    group: &Ip,
) -> Result<Filter, AllocError>
    requires { IsCounted table.now tally.now.numbers }
    ensures { IfOk result (λ found. found ≡ joined table.now.rows group.now) }
{
    look_after(alloc, table, &[], tally, Mode::Exclude, group, &[])
}
