//! The records of what changed.

ghost use Rattle.std.specs.Prelude.{◌≡◌, ◌++◌, List, All, IfOk, OnOk, map};
ghost use Rattle.amt_values.specs.Ascending.{IsAscending};
ghost use Rattle.endpoint_membership.specs.{Membership.{Membership, membership_order}, MembershipChanges.{AreChanges}};
ghost use Rattle.amt_upstream.specs.{Counting.{AreInOrder, AreNumbers}, Looking.{IsAfter, IsChangedGroupOf, changed_groups}, Upstream.{records_on, records_between}};

use crate::changed_group::ChangedGroup;
use crate::looking::look_after;
use crate::tally::Tally;
use endpoint_membership::{MembershipChange, Table};
use source_filter::{Records, diff};
use std::alloc::{AllocError, Global};

/// The records of the changes, by group. The numbers are those after the changes, and the table is as
/// it was before.
pub fn changed_records(
    alloc: Global,
    table: &Table,
    tally: &Tally,
    changes: &[MembershipChange],
    sides: &[ChangedGroup],
) -> Result<Records, AllocError>
    requires groups { map (λ side. side.group) sides.now ≡ changed_groups changes.now }
    requires each { All (IsChangedGroupOf table.now.rows changes.now) sides.now }
    ensures { (after : List Membership) → AreNumbers after tally.now.numbers → AreInOrder after
        → AreInOrder table.now.rows → AreChanges table.now.rows after changes.now
        → IsAscending membership_order table.now.rows → IsAscending membership_order after
        → IfOk result (λ records. records ≡ records_between table.now.rows after) }
{
    let mut records = Records::new(alloc);
    for side in sides {
        push_changed(&mut records, alloc, table, tally, changes, side)?;
    }
    Ok(records)
}

// Puts at the end what changed of a group.
fn push_changed(
    records: &mut Records,
    alloc: Global,
    table: &Table,
    tally: &Tally,
    changes: &[MembershipChange],
    side: &ChangedGroup,
) -> Result<(), AllocError>
    requires { IsChangedGroupOf table.now.rows changes.now side.now }
    ensures { (after : List Membership)
        → IsAfter table.now.rows changes.now tally.now.numbers after
        → OnOk result (records.new ≡ records.old ++ records_on table.now.rows after side.now.group) }
{
    let (before, group) = (&side.before, &side.group);
    let mode = before.mode();
    let after = look_after(alloc, table, changes, tally, mode, group, &side.named)?;
    append(records, diff(alloc, before, &after, group)?)
}

// Puts the records at the end.
fn append(records: &mut Records, more: Records) -> Result<(), AllocError>
    ensures { OnOk result (records.new ≡ records.old ++ more) }
{
    for one in more.into_vec() {
        records.push(one)?;
    }
    Ok(())
}
