//! How a dispatcher is given jobs, and ended.
ghost use Rattle.std.specs.{Prelude.{◌≡◌, ◌<◌, ◌^◌, true, false, length, map}, List.{All}};
ghost use Rattle.published_table.specs.Views.{views_of};
ghost use Rattle.replication_workers.specs.{Dispatchers.{AllRun, IsForSlot, KeepsAllRun, held_by, is_threaded, slot_for, slots_of}, Replicators.{out_of, view_of}, SlotStates.{CopiedAt, HaveLeft, jobs_in_all, with_job}};

use super::choosing::choose_slot;
use super::finishing::finish_all;
use super::gathered::Gathered;
use super::kept::give_at;
use super::{Dispatcher, Finished};
use crate::batch::Batch;
use crate::job::Job;
use crate::worker::Worker;
use amt_ports::{OutLink, Spawner};
use std::sync::Wait;

// How many of the jobs were copied on the calling thread.
fn inline_jobs(threads: bool, jobs: u64) -> u64
    ensures inline { threads ≡ false → result ≡ jobs }
    ensures none { threads ≡ true → result ≡ 0 }
{
    if threads { 0 } else { jobs }
}

impl<O: OutLink + Drop, T> Dispatcher<O, T> {
    /// Gives the job to its packet's slot, and answers which one that is, from 0. With threads the job is put
    /// in the queue of the slot's worker, which may wait for room; without, it is copied in this call.
    pub fn send<R: Wait>(&mut self, rt: &R, job: Job) -> u32
        requires few { jobs_in_all (slots_of self.old) < 2 ^ 46 }
        requires publisher { All (IsForSlot job) (slots_of self.old) }
        ensures slot { result ≡ slot_for (length (slots_of self.old)) job.packet }
        ensures put { slots_of self.new ≡ with_job result job (slots_of self.old) }
        ensures mode { is_threaded self.new ≡ is_threaded self.old }
        ensures run { KeepsAllRun self.old self.new }
        ensures copied { is_threaded self.old ≡ false → CopiedAt result job (held_by self.old) (held_by self.new) }
    {
        let slot = choose_slot(self.slots.len() as u32, job.packet.as_slice());
        give_at(rt, &mut self.slots, slot, job);
        slot
    }

    /// Ends the slots, in order, and gives what they leave: with threads each worker is stopped and waited
    /// for. It takes no memory.
    pub fn finish<R: Wait, P: Spawner<Worker<O>, Started = T>>(
        self,
        rt: &R,
        spawner: &mut P,
    ) -> Finished<O>
        requires run { AllRun P.task_of self }
        ensures left { HaveLeft (slots_of self) result.outs (views_of result.views) result.sent result.unsent }
        ensures inline { is_threaded self ≡ false → result.inline ≡ jobs_in_all (slots_of self) }
        ensures none_inline { is_threaded self ≡ true → result.inline ≡ 0 }
        ensures outs { is_threaded self ≡ false → result.outs ≡ map out_of (held_by self) }
        ensures views { is_threaded self ≡ false → views_of result.views ≡ map view_of (held_by self) }
        ensures starts { P.starts spawner.new ≡ P.starts spawner.old }
        ensures faults { P.faults spawner.new ≡ P.faults spawner.old }
    {
        let Dispatcher {
            slots,
            gathered,
            threads,
        } = self;
        let Gathered {
            outs,
            views,
            jobs,
            sent,
            unsent,
        } = finish_all(rt, slots, gathered, spawner);
        Finished {
            outs: Batch::from(outs),
            views,
            sent,
            unsent,
            inline: inline_jobs(threads, jobs),
        }
    }
}
