//! The records that tell of a change of a filter.

ghost use Rattle.std.specs.Prelude.{◌≡◌, [], ◌∷◌, ◌++◌, IfOk, OnOk};
ghost use Rattle.amt_values.specs.{Order.{ip_order}, Ascending.{IsAscending, difference}};
ghost use Rattle.source_filter.specs.{Changes.{changes_on, record_of_some}, Filter.{filter_after_all}, declared.record.RecordKind.TheVariants.{Allow, Block}};

use crate::filter::Filter;
use crate::ips::{Ips, difference};
use crate::mode::Mode;
use crate::record::{Record, RecordKind};
use crate::records::Records;
use amt_values::Ip;
use std::alloc::{AllocError, Global};

/// The change records by which a listener tells that its filter of the group is the new one in place
/// of the old one (RFC 3376, section 5.1).
pub fn diff(alloc: Global, old: &Filter, new: &Filter, group: &Ip) -> Result<Records, AllocError>
    ensures records { IfOk result (λ records. records ≡ changes_on old.now new.now group.now) }
    ensures applied { IfOk result (λ records. filter_after_all old.now records ≡ new.now) }
{
    changes(alloc, old, new, *group)
}

// The records alone. That they make the new filter follows from them.
fn changes(alloc: Global, old: &Filter, new: &Filter, group: Ip) -> Result<Records, AllocError>
    ensures old { IsAscending ip_order old.now.sources }
    ensures new { IsAscending ip_order new.now.sources }
    ensures records { IfOk result (λ records. records ≡ changes_on old.now new.now group) }
{
    let (before, after) = (old.sources(), new.sources());
    match (old.mode(), new.mode()) {
        (Mode::Include, Mode::Include) => allow_and_block(alloc, group, after, before),
        (Mode::Exclude, Mode::Exclude) => allow_and_block(alloc, group, before, after),
        (Mode::Include, Mode::Exclude) => only(alloc, RecordKind::ToEx, group, after),
        (Mode::Exclude, Mode::Include) => only(alloc, RecordKind::ToIn, group, after),
    }
}

// One record of these sources.
fn only(alloc: Global, kind: RecordKind, group: Ip, sources: &[Ip]) -> Result<Records, AllocError>
    ensures { IfOk result (λ records. records
        ≡ record { kind = kind; group = group; sources = sources.now } ∷ []) }
{
    let mut records = Records::new(alloc);
    let sources = Ips::copied(alloc, sources)?;
    records.push(Record {
        kind,
        group,
        sources,
    })?;
    Ok(records)
}

// The sources that the first list alone has are allowed, and then those that the second alone has
// are blocked.
fn allow_and_block(
    alloc: Global,
    group: Ip,
    wanted: &[Ip],
    unwanted: &[Ip],
) -> Result<Records, AllocError>
    requires wanted { IsAscending ip_order wanted.now }
    requires unwanted { IsAscending ip_order unwanted.now }
    ensures { IfOk result (λ records. records
        ≡ record_of_some Allow group (difference ip_order wanted.now unwanted.now)
        ++ record_of_some Block group (difference ip_order unwanted.now wanted.now)) }
{
    let mut records = Records::new(alloc);
    let allowed = difference(alloc, wanted, unwanted)?;
    push_some(&mut records, RecordKind::Allow, group, allowed)?;
    let blocked = difference(alloc, unwanted, wanted)?;
    push_some(&mut records, RecordKind::Block, group, blocked)?;
    Ok(records)
}

// Puts a record at the end, unless it has no source.
fn push_some(
    records: &mut Records,
    kind: RecordKind,
    group: Ip,
    sources: Ips,
) -> Result<(), AllocError>
    ensures { OnOk result (records.new ≡ records.old ++ record_of_some kind group sources) }
{
    if sources.as_slice().is_empty() {
        return Ok(());
    }
    records.push(Record {
        kind,
        group,
        sources,
    })
}
