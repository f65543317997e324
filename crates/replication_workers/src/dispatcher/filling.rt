//! How a dispatcher's slots are filled: with started workers, or with replicators that it keeps. It must
//! not know jobs.
ghost use Rattle.std.specs.Prelude.{◌≡◌, ◌≤◌, ◌+◌, [], OnErr, OnOk, length, vec_capacity};
ghost use Rattle.amt_ports.specs.Causes.{HasCause};
ghost use Rattle.replication_workers.specs.{KeptSlots.{AreStarted, HasKept}, Slots.{from_the_end}, Starting.{HasRefusedOne, HaveStarted}};

use super::inline_slot::InlineSlot;
use super::kept::Kept;
use crate::replicator::Replicator;
use crate::slot::{ReadySlot, start_slot};
use crate::worker::Worker;
use amt_ports::{Failed, OutLink, Spawner};

/// Starts the workers, taking their slots from the end of the list, until a start fails. The slot of that
/// one is dropped.
pub fn start_each<O: OutLink + Drop, P: Spawner<Worker<O>>>(
    ready: &mut Vec<ReadySlot<O>>,
    kept: &mut Vec<Kept<O, P::Started>>,
    spawner: &mut P,
) -> Result<(), Failed>
    requires none { kept.old.items ≡ [] }
    requires room { length ready.old.items ≤ vec_capacity kept.old }
    ensures started { OnOk result (AreStarted P.task_of (from_the_end ready.old.items) kept.new.items) }
    ensures refused { OnErr result (HasRefusedOne P.task_of
        (from_the_end ready.old.items) (from_the_end ready.new.items) kept.new.items
        (P.starts spawner.old) (P.starts spawner.new)) }

    ensures room { vec_capacity kept.new ≡ vec_capacity kept.old }
    ensures taken { length ready.new.items + length kept.new.items ≤ length ready.old.items }
    ensures starts { OnOk result (HaveStarted (length ready.old.items) (P.starts spawner.old) (P.starts spawner.new)) }
    ensures cause { HasCause (P.faults spawner.old) (P.faults spawner.new) result }
{
    while let Some(one) = ready.pop() {
        match start_slot(one, spawner) {
            Ok(slot) => kept.push_reserved(Kept::Threaded(slot)),
            Err(failed) => return Err(failed),
        }
    }
    Ok(())
}

/// Keeps the replicators in slots without a thread, after the slots that are there.
pub fn keep_inline<O: OutLink + Drop, T>(kept: &mut Vec<Kept<O, T>>, slots: Vec<Replicator<O>>)
    requires { length kept.old.items + length slots.items ≤ vec_capacity kept.old }
    ensures { HasKept slots.items kept.old.items kept.new.items }
{
    let mut rest = slots.into_iter();
    while let Some(replicator) = rest.next() {
        kept.push_reserved(Kept::Inline(InlineSlot::new(replicator)));
    }
}
