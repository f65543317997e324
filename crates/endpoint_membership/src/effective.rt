//! Which records of a report make a difference.
ghost use Rattle.std.specs.Prelude.{◌≡◌, ◌∷◌, List, IfOk, OnOk};
ghost use Rattle.endpoint_membership.specs.Effective.{AreEnough, AreKnown, is_idle, lent, only_renews};
ghost use Rattle.source_filter.specs.{Record.{is_full}, declared.record.Record.{Record as GroupRecord}};

use amt_values::Ip;
use source_filter::{Record, RecordKind};
use std::alloc::{AllocError, Global};
use std::collections::{BTreeMap, VecDeque};

// Of so many groups it is known what later records on them leave: 256 are the most of an endpoint by
// default, and a report on thousands isn't to cost a map of them all besides.
const MOST_KNOWN: usize = 256;

// The record names a whole filter, so nothing of what was before it is left.
fn is_full(kind: RecordKind) -> bool
    ensures { result ≡ is_full kind }
{
    match kind {
        RecordKind::IsIn | RecordKind::IsEx | RecordKind::ToIn | RecordKind::ToEx => true,
        RecordKind::Allow | RecordKind::Block => false,
    }
}

fn only_renews(group_record: &Record) -> bool
    ensures { result ≡ only_renews group_record.now }
{
    !is_full(group_record.kind) && group_record.sources.as_slice().is_empty()
}

fn is_idle(known: Option<bool>, group_record: &Record) -> bool
    ensures { result ≡ is_idle known group_record.now }
{
    match known {
        Some(whole) => whole || only_renews(group_record),
        None => false,
    }
}

// Puts a record before later ones, unless these leave nothing of it.
fn keep<'r>(
    group_record: &'r Record,
    known: &mut BTreeMap<Ip, bool>,
    kept: &mut VecDeque<&'r Record>,
) -> Result<(), AllocError>
    ensures enough { OnOk result ((all : List GroupRecord)
        → AreKnown known.old (lent kept.old.items) → AreEnough (lent kept.old.items) all
        → AreEnough (lent kept.new.items) (group_record.now ∷ all)) }
    ensures known { OnOk result (AreKnown known.old (lent kept.old.items)
        → AreKnown known.new (lent kept.new.items)) }
{
    let found = known.get(&group_record.group).copied();
    if is_idle(found, group_record) {
        return Ok(());
    }
    kept.push_front(group_record)?;
    let whole = is_full(group_record.kind);
    if (whole || found.is_none()) && known.len() < MOST_KNOWN {
        known.insert(group_record.group, whole)?;
    }
    Ok(())
}

/// The records of a report that make a difference, in their order (RFC 3376, section 4.2.12). A record that
/// stands before the last one of its group that names a whole filter makes none, and neither does a change
/// of no source before another record of its group. Such records may be among them on groups beyond the
/// last 256.
///
/// A report may have thousands of records on few groups, and anyone may send it. One that is passed over
/// costs a look at the groups that are known.
pub fn effective_records<'r>(
    alloc: Global,
    records: &'r [Record],
) -> Result<VecDeque<&'r Record>, AllocError>
    ensures { IfOk result (λ kept. AreEnough (lent kept.items) records.now) }
{
    let mut known = BTreeMap::new(alloc);
    let mut kept = VecDeque::new(alloc);
    for place in (0..records.len()).rev() {
        keep(&records[place], &mut known, &mut kept)?;
    }
    Ok(kept)
}
