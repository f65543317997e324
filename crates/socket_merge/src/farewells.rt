//! The farewells of groups.

ghost use Rattle.std.specs.{Prelude.{◌≡◌, length, [], false, Some, None, IfOk, OnOk, OnErr, IsSome, not, ◌||◌, is_some}, List.{filter}, Map.{keys_of}};
ghost use Rattle.amt_values.specs.{Order.{ip_order}, Ascending.{IsAscending}};
ghost use Rattle.socket_merge.specs.{Kept.{AreMade, HasSlot, has_place_besides, has_socket, kept_at, left_after, left_fresh, slot_at, slot_fresh, slot_left, slot_of, some_recent, some_wants}};

use crate::family::is_of_family;
use crate::named::NamedSockets;
use crate::stored::{is_recent, left_after, left_fresh, may_be_due};
use amt_values::{Ip, Moment};
use group_records::Family;
use std::alloc::{AllocError, Global};
use std::collections::BTreeMap;
use std::marker::Model;

mod report;

/// Of each group with a socket or a farewell, when it stopped being wanted, in milliseconds; none
/// while it has no farewell. A slot is there from the first socket on, so a farewell takes no memory.
#[derive(Debug, Drop)]
pub struct Farewells {
    slots: BTreeMap<Ip, Option<u64>>,
}

impl Model for Farewells {
    ghost use Rattle.std.specs.Prelude.{ℕ, List, Option};
    ghost use Rattle.amt_values.specs.declared.address.Ip.{Ip};

    ghost Value = { List (Ip × Option ℕ) };

    ghost view = { λ s. s.slots.entries };
}

impl Farewells {
    pub fn new(alloc: Global) -> Self
        ensures { result ≡ [] }
    {
        Farewells {
            slots: BTreeMap::new(alloc),
        }
    }

    /// When the group was left, if it has a farewell.
    pub fn left(&self, group: &Ip) -> Option<u64>
        ensures { result ≡ kept_at self.now group.now }
    {
        match self.slots.get(group) {
            Some(left) => *left,
            None => None,
        }
    }

    /// Fills the slot of a group; only a new slot takes memory.
    pub fn put(&mut self, group: Ip, left: Option<u64>) -> Result<(), AllocError>
        ensures put { OnOk result (HasSlot group (Some left) self.old self.new) }
        ensures new { OnErr result (slot_at self.old group ≡ None) }
        ensures ordered { IsAscending ip_order (keys_of self.new) }
        ensures err { OnErr result (self.new ≡ self.old) }
    {
        self.slots.insert(group, left)?;
        Ok(())
    }

    // Fills the slot of a group that has one.
    fn fill(&mut self, group: &Ip, left: Option<u64>)
        requires { IsSome (slot_at self.old group.now) }
        ensures filled { HasSlot group.now (Some left) self.old self.new }
        ensures ordered { IsAscending ip_order (keys_of self.new) }
    {
        match self.put(*group, left) {
            Ok(()) => {}
            Err(_) => {}
        }
    }

    // Takes the slot of a group away.
    fn remove(&mut self, group: &Ip)
        ensures gone { HasSlot group.now None self.old self.new }
        ensures ordered { IsAscending ip_order (keys_of self.new) }
    {
        self.slots.remove(group);
    }

    /// What becomes of a group that has a slot, by whether it was wanted before its sockets changed.
    pub fn follow(&mut self, named: &NamedSockets, group: &Ip, before: bool, moment: Moment)
        requires { IsSome (slot_at self.old group.now) }
        ensures slot { HasSlot group.now (slot_of (has_socket group.now named.now)
            (left_after (some_wants group.now named.now) before moment (kept_at self.old group.now)))
            self.old self.new }
        ensures ordered { IsAscending ip_order (keys_of self.new) }
    {
        let left = left_after(named.wants(group), before, moment, self.left(group));
        if stays(named, group, left) {
            self.fill(group, left);
            return;
        }
        self.remove(group);
    }

    /// What becomes of all groups where every socket is closed.
    pub fn leave_all(&mut self, named: &NamedSockets, moment: Moment)
        ensures left { AreMade (slot_left named.now moment) self.old self.new }
        ensures ordered { IsAscending ip_order (keys_of self.new) }
    {
        self.slots
            .retain(|group, left| leave(named, moment, group, left));
    }

    /// Drops the farewells that can't be due any more.
    pub fn drop_old(&mut self, named: &NamedSockets, moment: Moment)
        ensures fresh { AreMade (slot_fresh named.now moment) self.old self.new }
        ensures ordered { IsAscending ip_order (keys_of self.new) }
    {
        self.slots
            .retain(|group, left| freshen(named, moment, group, left));
    }

    /// How many other groups of the family have a place in the raw report.
    pub fn places_besides(
        &self,
        named: &NamedSockets,
        family: Family,
        moment: Moment,
        group: &Ip,
    ) -> usize
        ensures { result ≡ length (filter (has_place_besides named.now family moment group.now) self.now) }
    {
        self.slots
            .iter()
            .filter(|slot| has_place(named, family, moment, group, slot.0, slot.1))
            .count()
    }

    /// Whether some farewell lasts at the moment.
    pub fn some_recent(&self, at: Moment, keep_ms: u64) -> bool
        ensures { result ≡ some_recent at keep_ms self.now }
    {
        self.slots
            .values()
            .any(|left| is_recent(at, keep_ms, *left))
    }

    /// Equal farewells that own their memory.
    pub fn copy(&self) -> Result<Farewells, AllocError>
        ensures { IfOk result (λ copy. copy ≡ self.now) }
    {
        Ok(Farewells {
            slots: self.slots.clone()?,
        })
    }
}

// Whether the group has a socket or a farewell.
fn stays(named: &NamedSockets, group: &Ip, left: Option<u64>) -> bool
    ensures { result ≡ (is_some left || has_socket group.now named.now) }
{
    left.is_some() || named.has(group)
}

// A group that is left without sockets; whether it has a farewell.
fn leave(named: &NamedSockets, moment: Moment, group: &Ip, left: &mut Option<u64>) -> bool
    ensures left { left.new ≡ left_after false (some_wants group.now named.now) moment left.old }
    ensures kept { result ≡ is_some left.new }
{
    *left = left_after(false, named.wants(group), moment, *left);
    left.is_some()
}

// A group without a farewell that can't be due any more; whether it has a socket or a farewell.
fn freshen(named: &NamedSockets, moment: Moment, group: &Ip, left: &mut Option<u64>) -> bool
    ensures fresh { left.new ≡ left_fresh moment left.old }
    ensures kept { result ≡ (not (is_some left.old) || (is_some left.new || has_socket group.now named.now)) }
{
    if left.is_none() {
        return true;
    }
    *left = left_fresh(moment, *left);
    stays(named, group, *left)
}

// Whether another group of the family has a socket, or a farewell that may still be due.
fn has_place(
    named: &NamedSockets,
    family: Family,
    moment: Moment,
    group: &Ip,
    other: &Ip,
    left: &Option<u64>,
) -> bool
    ensures { result ≡ has_place_besides named.now family moment group.now (other.now, left.now) }
{
    if other == group {
        return false;
    }
    if !is_of_family(family, other) {
        return false;
    }
    left.is_none() || may_be_due(moment, *left) || named.has(other)
}
