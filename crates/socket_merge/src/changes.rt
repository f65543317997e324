//! The records of what changed of each group.

ghost use Rattle.std.specs.Prelude.{◌≡◌, ◌++◌, IfOk, OnOk};
ghost use Rattle.source_filter.specs.Merging.{merged};
ghost use Rattle.socket_merge.specs.{Changes.{changed_on, changes_between, groups_among}, Interface.{filters_on}};

use crate::family::is_of_family;
use crate::named::NamedSockets;
use amt_values::Ip;
use group_records::Family;
use source_filter::{Filter, Records, copy_record, diff, merge};
use std::alloc::{AllocError, Global};

/// What changed of each group of the family that has a socket before or after, by group.
#[tactic(auto, unfolding(crate::specs::Changes::changes_between))]
pub fn changes_between(
    alloc: Global,
    before: &NamedSockets,
    after: &NamedSockets,
    family: Family,
) -> Result<Records, AllocError>
    ensures { IfOk result (λ records. records ≡ changes_between family before.now after.now) }
{
    let groups = groups_among(alloc, before, after, family)?;
    let mut records = Records::new(alloc);
    for group in groups.as_slice() {
        push_changed(&mut records, alloc, before, after, group)?;
    }
    Ok(records)
}

// The groups of the family that have a socket before or after, ascending.
fn groups_among(
    alloc: Global,
    before: &NamedSockets,
    after: &NamedSockets,
    family: Family,
) -> Result<Vec<Ip>, AllocError>
    ensures { IfOk result (λ groups. groups.items ≡ groups_among family (before.now ++ after.now)) }
{
    let mut groups = Vec::new(alloc);
    before.append_groups(&mut groups)?;
    after.append_groups(&mut groups)?;
    groups.sort_unstable();
    groups.dedup();
    groups.retain(|group| is_of_family(family, group));
    Ok(groups)
}

// The filter of the group for all of its sockets.
fn merged_on(alloc: Global, named: &NamedSockets, group: &Ip) -> Result<Filter, AllocError>
    ensures { IfOk result (λ filter. filter ≡ merged (filters_on group.now named.now)) }
{
    merge(alloc, &named.filters_of(alloc, group)?)
}

// Puts at the end what changed of a group.
fn push_changed(
    records: &mut Records,
    alloc: Global,
    before: &NamedSockets,
    after: &NamedSockets,
    group: &Ip,
) -> Result<(), AllocError>
    ensures { OnOk result (records.new ≡ records.old ++ changed_on before.now after.now group.now) }
{
    let old = merged_on(alloc, before, group)?;
    let new = merged_on(alloc, after, group)?;
    let changed = diff(alloc, &old, &new, group)?;
    push_copies(records, alloc, &changed)
}

// Puts equal records at the end.
fn push_copies(records: &mut Records, alloc: Global, more: &Records) -> Result<(), AllocError>
    ensures { OnOk result (records.new ≡ records.old ++ more.now) }
{
    for one in more.as_slice() {
        records.push(copy_record(alloc, one)?)?;
    }
    Ok(())
}
