//! What a full report says of each group.

ghost use Rattle.std.specs.{Prelude.{◌≡◌, ◌++◌, IfOk, OnOk}, List.{flat_map}};
ghost use Rattle.socket_merge.specs.{FullReport.{farewell, states}, Kept.{said_of, said_on}};

use super::Farewells;
use crate::family::is_of_family;
use crate::named::NamedSockets;
use crate::stored::{is_recent, wants_any};
use amt_values::{Ip, Moment};
use group_records::Family;
use source_filter::{Filter, Ips, Mode, Record, RecordKind, Records, merge};
use std::alloc::{AllocError, Global};

impl Farewells {
    /// What is said of each group of the family, by group.
    pub fn report(
        &self,
        alloc: Global,
        named: &NamedSockets,
        family: Family,
        at: Moment,
        keep_ms: u64,
    ) -> Result<Records, AllocError>
        ensures { IfOk result (λ records.
            records ≡ flat_map (said_of family named.now at keep_ms) self.now) }
    {
        let mut records = Records::new(alloc);
        for (group, left) in self.slots.iter() {
            if is_of_family(family, group) {
                push_said(&mut records, alloc, named, group, *left, at, keep_ms)?;
            }
        }
        Ok(records)
    }
}

// The current-state record of a group.
fn state(alloc: Global, group: &Ip, filter: &Filter) -> Result<Record, AllocError>
    ensures { IfOk result (λ one. one ≡ states group.now filter.now) }
{
    let kind = match filter.mode() {
        Mode::Include => RecordKind::IsIn,
        Mode::Exclude => RecordKind::IsEx,
    };
    Ok(Record {
        kind,
        group: *group,
        sources: Ips::copied(alloc, filter.sources())?,
    })
}

// The record by which a group is left.
fn farewell(alloc: Global, group: &Ip) -> Record
    ensures { result ≡ farewell group.now }
{
    Record {
        kind: RecordKind::ToIn,
        group: *group,
        sources: Ips::new(alloc),
    }
}

// Puts at the end what is said of a group.
fn push_said(
    records: &mut Records,
    alloc: Global,
    named: &NamedSockets,
    group: &Ip,
    left: Option<u64>,
    at: Moment,
    keep_ms: u64,
) -> Result<(), AllocError>
    ensures { OnOk result (records.new ≡ records.old ++ said_on named.now at keep_ms (group.now, left)) }
{
    let filter = merge(alloc, &named.filters_of(alloc, group)?)?;
    if wants_any(&filter) {
        return records.push(state(alloc, group, &filter)?);
    }
    if is_recent(at, keep_ms, left) {
        return records.push(farewell(alloc, group));
    }
    Ok(())
}
