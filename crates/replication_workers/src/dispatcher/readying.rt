//! How slots are made ready to start, and taken apart where they aren't started.
ghost use Rattle.std.specs.Prelude.{◌≡◌, ◌≤◌, ◌<◌, ◌+◌, [], ◌∷◌, ◌++◌, length, vec_capacity, IfOk, OnErr, OnOk};
ghost use Rattle.replication_workers.specs.Slots.{from_the_end};

use crate::replicator::Replicator;
use crate::slot::{ReadySlot, ready_slot};
use amt_ports::OutLink;
use std::alloc::{AllocError, Global};
use std::sync::Wait;

/// Takes the replicators back out of slots that weren't started, last slot first.
pub fn unready<O: OutLink + Drop>(slots: &mut Vec<Replicator<O>>, ready: &mut Vec<ReadySlot<O>>)
    requires room { length slots.old.items + length ready.old.items ≤ vec_capacity slots.old }
    ensures slots { slots.new.items ≡ slots.old.items ++ from_the_end ready.old.items }
    ensures none { ready.new.items ≡ [] }
    ensures room { vec_capacity slots.new ≡ vec_capacity slots.old }
{
    while let Some(one) = ready.pop() {
        slots.push_reserved(one.into_replicator());
    }
}

// Takes all memory of one slot, and puts it at the end of those that are ready; without memory its
// replicator goes back to the end of the others.
fn ready_one<O: OutLink + Drop, R: Wait>(
    rt: &R,
    alloc: Global,
    replicator: Replicator<O>,
    slots: &mut Vec<Replicator<O>>,
    ready: &mut Vec<ReadySlot<O>>,
) -> Result<(), AllocError>
    requires room { (length slots.old.items < vec_capacity slots.old) × (length ready.old.items < vec_capacity ready.old) }
    ensures ready { OnOk result (from_the_end ready.new.items ≡ replicator ∷ from_the_end ready.old.items) }
    ensures others { OnOk result (slots.new.items ≡ slots.old.items) }
    ensures number { OnOk result (length ready.new.items ≡ length ready.old.items + 1) }
    ensures back { OnErr result (slots.new.items ≡ slots.old.items ++ replicator ∷ []) }
    ensures kept { OnErr result (ready.new.items ≡ ready.old.items) }
    ensures capacity { (vec_capacity slots.new ≡ vec_capacity slots.old)
        × (vec_capacity ready.new ≡ vec_capacity ready.old) }
{
    match ready_slot(rt, alloc, replicator) {
        Ok(one) => {
            ready.push_reserved(one);
            Ok(())
        }
        Err(back) => {
            slots.push_reserved(back);
            Err(AllocError)
        }
    }
}

// Makes the slots ready, last slot first, as far as there is memory.
fn ready_each<O: OutLink + Drop, R: Wait>(
    rt: &R,
    alloc: Global,
    slots: &mut Vec<Replicator<O>>,
    ready: &mut Vec<ReadySlot<O>>,
) -> Result<(), AllocError>
    requires none { ready.old.items ≡ [] }
    requires room { length slots.old.items ≤ vec_capacity ready.old }
    ensures all { slots.new.items ++ from_the_end ready.new.items ≡ slots.old.items }
    ensures ok { OnOk result (slots.new.items ≡ []) }
    ensures number { length slots.new.items + length ready.new.items ≡ length slots.old.items }
    ensures room { vec_capacity slots.new ≡ vec_capacity slots.old }
{
    while let Some(replicator) = slots.pop() {
        match ready_one(rt, alloc, replicator, slots, ready) {
            Ok(()) => {}
            Err(error) => return Err(error),
        }
    }
    Ok(())
}

/// Takes all memory of the slots, last slot first. Without it the replicators stay.
pub fn ready_all<O: OutLink + Drop, R: Wait>(
    rt: &R,
    alloc: Global,
    slots: &mut Vec<Replicator<O>>,
) -> Result<Vec<ReadySlot<O>>, AllocError>
    ensures ready { IfOk result (λ ready. from_the_end ready.items ≡ slots.old.items) }
    ensures none { OnOk result (slots.new.items ≡ []) }
    ensures back { OnErr result (slots.new.items ≡ slots.old.items) }
    ensures room { vec_capacity slots.new ≡ vec_capacity slots.old }
{
    let mut ready = Vec::with_capacity(alloc, slots.len())?;
    match ready_each(rt, alloc, slots, &mut ready) {
        Ok(()) => Ok(ready),
        Err(error) => {
            unready(slots, &mut ready);
            Err(error)
        }
    }
}
