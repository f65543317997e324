//! The groups that change, and what is seen of their filters before.

ghost use Rattle.std.specs.Prelude.{◌≡◌, All, IfOk, map};
ghost use Rattle.amt_values.specs.Ascending.{IsAscending};
ghost use Rattle.endpoint_membership.specs.{Membership.{membership_order}, MembershipChanges.{change_order}};
ghost use Rattle.amt_upstream.specs.{Counting.{AreInOrder, AreNumbers}, Looking.{IsChangedGroupOf, changed_groups, changes_on_group, named_by}};

use crate::looking::{look_after, sources_of};
use crate::tally::Tally;
use amt_values::Ip;
use endpoint_membership::{MembershipChange, Table};
use source_filter::{Filter, Mode};
use std::alloc::{AllocError, Global};

/// A group that changes: the sources that its changes name, and what is seen of its filter before.
#[derive(Debug, Drop)]
pub struct ChangedGroup {
    pub group: Ip,
    pub named: Vec<Ip>,
    pub before: Filter,
}

/// The groups that change, ascending, with what is seen of their filters before.
pub fn sides_of(
    alloc: Global,
    table: &Table,
    tally: &Tally,
    changes: &[MembershipChange],
) -> Result<Vec<ChangedGroup>, AllocError>
    requires rows { IsAscending membership_order table.now.rows }
    requires numbers { AreNumbers table.now.rows tally.now.numbers }
    requires in_order { AreInOrder table.now.rows }
    requires ascend { IsAscending change_order changes.now }
    ensures groups { IfOk result
        (λ sides. map (λ side. side.group) sides.items ≡ changed_groups changes.now) }
    ensures each { IfOk result (λ sides. All (IsChangedGroupOf table.now.rows changes.now) sides.items) }
{
    let groups = changed_groups(alloc, changes)?;
    let mut sides = Vec::with_capacity(alloc, groups.len())?;
    for group in &groups {
        sides.push(side_of(alloc, table, tally, changes, group)?)?;
    }
    Ok(sides)
}

// The groups of the changes, which stand together by group.
fn changed_groups(alloc: Global, changes: &[MembershipChange]) -> Result<Vec<Ip>, AllocError>
    requires { IsAscending change_order changes.now }
    ensures { IfOk result (λ groups. groups.items ≡ changed_groups changes.now) }
{
    let mut groups = groups_of(alloc, changes)?;
    groups.dedup();
    Ok(groups)
}

// The group of each change.
fn groups_of(alloc: Global, changes: &[MembershipChange]) -> Result<Vec<Ip>, AllocError>
    ensures { IfOk result (λ groups. groups.items ≡ map (λ change. change.group) changes.now) }
{
    changes.iter().map(|change| change.group).collect(alloc)
}

// What its changes name of the group, and what is seen of its filter in the table.
fn side_of(
    alloc: Global,
    table: &Table,
    tally: &Tally,
    changes: &[MembershipChange],
    group: &Ip,
) -> Result<ChangedGroup, AllocError>
    requires rows { IsAscending membership_order table.now.rows }
    requires numbers { AreNumbers table.now.rows tally.now.numbers }
    requires in_order { AreInOrder table.now.rows }
    requires ascend { IsAscending change_order changes.now }
    ensures group { IfOk result (λ side. side.group ≡ group.now) }
    ensures is { IfOk result (IsChangedGroupOf table.now.rows changes.now) }
{
    let named = named_by(alloc, changes_on(changes, group))?;
    let before = look_after(alloc, table, &[], tally, Mode::Include, group, &named)?;
    Ok(ChangedGroup {
        group: *group,
        named,
        before,
    })
}

// The changes of the group, which stand together.
fn changes_on<'a>(changes: &'a [MembershipChange], group: &Ip) -> &'a [MembershipChange]
    requires { IsAscending change_order changes.now }
    ensures { result.now ≡ changes_on_group group.now changes.now }
{
    let start = changes.partition_point(|change| change.group < *group);
    let rest = &changes[start..];
    let end = rest.partition_point(|change| change.group <= *group);
    &rest[..end]
}

// The sources that the changes name.
fn named_by(alloc: Global, changes: &[MembershipChange]) -> Result<Vec<Ip>, AllocError>
    ensures { IfOk result (λ named. named.items ≡ named_by changes.now) }
{
    let mut named = Vec::new(alloc);
    for change in changes {
        named.extend_from_slice(sources_of(change.before.as_ref()))?;
        named.extend_from_slice(sources_of(change.after.as_ref()))?;
    }
    Ok(named)
}
