//! How a dispatcher is started.
ghost use Rattle.std.specs.{Prelude.{◌≡◌, ◌≤◌, ◌+◌, [], true, false, length, map, vec_capacity, IfErr, IfOk, OnOk}, List.{All}};
ghost use Rattle.amt_ports.specs.Causes.{Rose};
ghost use Rattle.published_table.specs.Views.{views_of};
ghost use Rattle.replication_workers.specs.{Dispatchers.{AllRun, held_by, is_threaded, slots_of}, Gathering.{HasRoom, IsFresh}, KeptSlots.{IsRunBy, state_of}, SlotStates.{jobs_in_all, new_slot}, Slots.{from_the_end}, Starting.{AllButOneBack, GivesBack, HaveStarted, OnFailed, OnMemory}};

use super::filling::{keep_inline, start_each};
use super::finishing::finish_all;
use super::gathered::Gathered;
use super::kept::Kept;
use super::readying::{ready_all, unready};
use super::{Dispatcher, Outs, Replicators, StartFault};
use crate::batch::Batch;
use crate::replicator::Replicator;
use crate::slot::ReadySlot;
use crate::worker::Worker;
use amt_ports::{OutLink, Spawner};
use published_table::Views;
use std::alloc::Global;
use std::sync::Wait;

// Ends the slots that were started, and gives back what they and the slots that are ready leave, in order.
fn give_back<O: OutLink + Drop, R: Wait, P: Spawner<Worker<O>>>(
    rt: &R,
    mut slots: Vec<Replicator<O>>,
    mut ready: Vec<ReadySlot<O>>,
    mut kept: Vec<Kept<O, P::Started>>,
    gathered: Gathered<O>,
    spawner: &mut P,
) -> (Outs<O>, Views)
    requires none { slots.items ≡ [] }
    requires room_back { length ready.items ≤ vec_capacity slots }
    requires places { length kept.items + length ready.items ≤ vec_capacity kept }
    requires fresh { IsFresh gathered }
    requires room { HasRoom (length kept.items + length ready.items) gathered }
    requires idle { jobs_in_all (map state_of kept.items) ≡ 0 }
    requires run { All (IsRunBy P.task_of) kept.items }
    ensures back { GivesBack kept.items (from_the_end ready.items) result.0 (views_of result.1) }
    ensures starts { P.starts spawner.new ≡ P.starts spawner.old }
    ensures faults { P.faults spawner.new ≡ P.faults spawner.old }
{
    unready(&mut slots, &mut ready);
    keep_inline(&mut kept, slots);
    let Gathered {
        outs,
        views,
        jobs: _,
        sent: _,
        unsent: _,
    } = finish_all(rt, kept, gathered, spawner);
    (Batch::from(outs), views)
}

// Starts a worker for each of the slots. After a start that fails, those that were started are stopped.
fn start_workers<O: OutLink + Drop, R: Wait, P: Spawner<Worker<O>>>(
    rt: &R,
    alloc: Global,
    slots: Replicators<O>,
    mut kept: Vec<Kept<O, P::Started>>,
    gathered: Gathered<O>,
    spawner: &mut P,
) -> Result<Dispatcher<O, P::Started>, StartFault<O>>
    requires some { 1 ≤ length slots }
    requires few { length slots ≤ 64 }
    requires none { kept.items ≡ [] }
    requires places { length slots ≤ vec_capacity kept }
    requires fresh { IsFresh gathered }
    requires room { HasRoom (length slots) gathered }
    ensures slots { IfOk result (λ made. slots_of made ≡ map new_slot slots) }
    ensures mode { IfOk result (λ made. is_threaded made ≡ true) }
    ensures run { IfOk result (AllRun P.task_of) }
    ensures starts { OnOk result (HaveStarted (length slots) (P.starts spawner.old) (P.starts spawner.new)) }
    ensures quiet { OnOk result (P.faults spawner.new ≡ P.faults spawner.old) }

    ensures memory { IfErr result (λ fault. OnMemory fault (λ back. back ≡ slots)) }
    ensures before { IfErr result (λ fault. OnMemory fault (λ _. (P.starts spawner.new ≡ P.starts spawner.old)
        × (P.faults spawner.new ≡ P.faults spawner.old))) }
    ensures failed { IfErr result (λ fault. OnFailed fault
        (AllButOneBack slots (P.starts spawner.old) (P.starts spawner.new))) }
    ensures cause { IfErr result (λ fault. OnFailed fault
        (λ _ _. Rose (P.faults spawner.old) (P.faults spawner.new))) }
{
    let mut slots = slots.into_items();
    let Ok(mut ready) = ready_all(rt, alloc, &mut slots) else {
        kept.destroy_empty();
        return Err(StartFault::Memory(Batch::from(slots)));
    };
    match start_each(&mut ready, &mut kept, spawner) {
        Ok(()) => Ok(Dispatcher {
            slots: kept,
            gathered,
            threads: true,
        }),
        Err(_) => {
            let (outs, views) = give_back(rt, slots, ready, kept, gathered, spawner);
            Err(StartFault::Failed { outs, views })
        }
    }
}

// Keeps the replicators, to copy jobs on the calling thread.
fn keep_all<O: OutLink + Drop, T>(
    slots: Replicators<O>,
    mut kept: Vec<Kept<O, T>>,
    gathered: Gathered<O>,
) -> Dispatcher<O, T>
    requires some { 1 ≤ length slots }
    requires few { length slots ≤ 64 }
    requires none { kept.items ≡ [] }
    requires places { length slots ≤ vec_capacity kept }
    requires fresh { IsFresh gathered }
    requires room { HasRoom (length slots) gathered }
    ensures slots { slots_of result ≡ map new_slot slots }
    ensures mode { is_threaded result ≡ false }
    ensures held { held_by result ≡ slots }
{
    keep_inline(&mut kept, slots.into_items());
    Dispatcher {
        slots: kept,
        gathered,
        threads: false,
    }
}

impl<O: OutLink + Drop, T> Dispatcher<O, T> {
    /// A dispatcher over these slots, from 1 to 64. All its memory is taken before the first start, so that
    /// without it the replicators come back as they were. Then, with threads, a worker is started for each
    /// slot, in slot order; without, the dispatcher keeps the replicators.
    pub fn start<R: Wait, P: Spawner<Worker<O>, Started = T>>(
        rt: &R,
        alloc: Global,
        slots: Replicators<O>,
        threads: bool,
        spawner: &mut P,
    ) -> Result<Dispatcher<O, T>, StartFault<O>>
        requires some { 1 ≤ length slots }
        requires few { length slots ≤ 64 }
        ensures slots { IfOk result (λ made. slots_of made ≡ map new_slot slots) }
        ensures mode { IfOk result (λ made. is_threaded made ≡ threads) }
        ensures held { threads ≡ false → IfOk result (λ made. held_by made ≡ slots) }
        ensures run { IfOk result (AllRun P.task_of) }
        ensures starts { threads ≡ true → OnOk result
            (HaveStarted (length slots) (P.starts spawner.old) (P.starts spawner.new)) }
        ensures none_started { threads ≡ false → P.starts spawner.new ≡ P.starts spawner.old }
        ensures quiet { OnOk result (P.faults spawner.new ≡ P.faults spawner.old) }

        ensures memory { IfErr result (λ fault. OnMemory fault (λ back. back ≡ slots)) }
        ensures before { IfErr result (λ fault. OnMemory fault (λ _. (P.starts spawner.new ≡ P.starts spawner.old)
            × (P.faults spawner.new ≡ P.faults spawner.old))) }
        ensures failed { IfErr result (λ fault. OnFailed fault
            (AllButOneBack slots (P.starts spawner.old) (P.starts spawner.new))) }
        ensures cause { IfErr result (λ fault. OnFailed fault (λ _ _. (threads ≡ true)
            × Rose (P.faults spawner.old) (P.faults spawner.new))) }
    {
        let Ok(gathered) = Gathered::with_room(alloc, slots.len() as u32) else {
            return Err(StartFault::Memory(slots));
        };
        let Ok(kept) = Vec::with_capacity(alloc, slots.len()) else {
            return Err(StartFault::Memory(slots));
        };
        if threads {
            start_workers(rt, alloc, slots, kept, gathered, spawner)
        } else {
            Ok(keep_all(slots, kept, gathered))
        }
    }
}
