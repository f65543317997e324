//! How a slot is given a job, and ended.
ghost use Rattle.std.specs.{Prelude.{◌≡◌, ◌<◌, ◌^◌, false, length, map}, List.{All}};
ghost use Rattle.published_table.specs.Views.{note_publisher, publisher_of};
ghost use Rattle.replication_workers.specs.{Dispatchers.{IsForSlot}, KeptSlots.{AreGiven, IsGiven, IsRunBy, is_threaded_slot, now_of, state_of}, Replicators.{out_of, view_of}, SlotStates.{IsLeft, jobs_in_all}};

use super::Kept;
use crate::job::Job;
use crate::slot::{Left, finish_slot};
use crate::worker::Worker;
use amt_ports::{OutLink, Spawner};
use std::sync::Wait;

impl<O: OutLink, T> Kept<O, T> {
    /// Puts the job in the queue of the slot's worker, or copies it at once where there is none.
    pub fn give<R: Wait>(&mut self, rt: &R, job: Job)
        requires few { length (state_of self.old).jobs < 2 ^ 46 }
        requires publisher { note_publisher job.note ≡ publisher_of (view_of (state_of self.old).first) }
        ensures { IsGiven job self.old self.new }
    {
        match self {
            Kept::Threaded(slot) => slot.put(rt, job),
            Kept::Inline(slot) => slot.copy(rt, job),
        }
    }
}

/// Gives the job to the slot at this place.
pub fn give_at<O: OutLink, T, R: Wait>(rt: &R, slots: &mut Vec<Kept<O, T>>, place: u32, job: Job)
    requires within { place < length slots.old.items }
    requires few { jobs_in_all (map state_of slots.old.items) < 2 ^ 46 }
    requires publisher { All (IsForSlot job) (map state_of slots.old.items) }
    ensures { AreGiven place job slots.old.items slots.new.items }
{
    slots[place as usize].give(rt, job);
}

/// Ends the slot: a worker is stopped and waited for. All jobs that the slot was given are handled.
pub fn finish_kept<O: OutLink + Drop, R: Wait, P: Spawner<Worker<O>>>(
    rt: &R,
    kept: Kept<O, P::Started>,
    spawner: &mut P,
) -> Left<O>
    requires { IsRunBy P.task_of kept }
    ensures left { IsLeft (state_of kept) result }
    ensures out { is_threaded_slot kept ≡ false → result.out ≡ out_of (now_of kept) }
    ensures view { is_threaded_slot kept ≡ false → result.view ≡ view_of (now_of kept) }
    ensures starts { P.starts spawner.new ≡ P.starts spawner.old }
    ensures faults { P.faults spawner.new ≡ P.faults spawner.old }
{
    match kept {
        Kept::Threaded(slot) => finish_slot(rt, slot, spawner),
        Kept::Inline(slot) => slot.into_left(),
    }
}
