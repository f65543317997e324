//! How a slot is made, started, used and ended.
ghost use Rattle.std.specs.Prelude.{◌≡◌, ◌<◌, ◌^◌, [], ◌∷◌, ◌++◌, length, IfOk, MatchResult, OnErr};
ghost use Rattle.amt_ports.specs.{Causes.{HasCause}, Starts.{HasStarted}};
ghost use Rattle.published_table.specs.Views.{note_publisher, publisher_of};
ghost use Rattle.replication_workers.specs.{Replicators.{view_of}, Slots.{LeftAfter, jobs_put, ready_worker, replicator_of, started_of, worker_of}};

use super::{Left, ReadySlot, Slot};
use crate::job::Job;
use crate::queue::{make_queue, put_job, put_stop, take_in};
use crate::replicator::Replicator;
use crate::worker::Worker;
use amt_ports::{Failed, OutLink, Spawner};
use std::alloc::Global;
use std::snapshot::Snapshot;
use std::sync::Wait;

/// Takes all the memory of a slot. Without it the replicator comes back.
pub fn ready_slot<O: OutLink, R: Wait>(
    rt: &R,
    alloc: Global,
    replicator: Replicator<O>,
) -> Result<ReadySlot<O>, Replicator<O>>
    ensures { MatchResult result
        (λ ready. replicator_of (ready_worker ready) ≡ replicator)
        (λ back. back ≡ replicator) }
{
    match make_queue(rt, alloc, replicator.view()) {
        Ok((sender, pass, inbox, taking)) => Ok(ReadySlot {
            sender,
            pass,
            worker: Worker::new(replicator, inbox, taking),
        }),
        Err(_) => Err(replicator),
    }
}

impl<O: OutLink> ReadySlot<O> {
    /// The replicator of a slot that is not to be started.
    pub fn into_replicator(self) -> Replicator<O>
        ensures { result ≡ replicator_of (ready_worker self) }
    {
        let ReadySlot {
            sender: _sender,
            pass: _pass,
            worker,
        } = self;
        worker.into_replicator()
    }
}

/// Starts the slot's worker. One that isn't started is dropped.
pub fn start_slot<O: OutLink + Drop, P: Spawner<Worker<O>>>(
    ready: ReadySlot<O>,
    spawner: &mut P,
) -> Result<Slot<O, P::Started>, Failed>
    ensures started { IfOk result (λ slot. (P.task_of (started_of slot) ≡ worker_of slot)
        × (worker_of slot ≡ ready_worker ready) × (jobs_put slot ≡ [])) }
    ensures counted { IfOk result (λ _. HasStarted (P.starts spawner.old) (P.starts spawner.new)) }
    ensures kept { OnErr result (P.starts spawner.new ≡ P.starts spawner.old) }
    ensures cause { HasCause (P.faults spawner.old) (P.faults spawner.new) result }
{
    let ReadySlot {
        sender,
        pass,
        worker,
    } = ready;
    let named = Snapshot::of(&worker);
    match spawner.start(worker) {
        Ok(started) => Ok(Slot {
            sender,
            pass,
            started,
            worker: named,
        }),
        Err(failed) => Err(failed),
    }
}

impl<O: OutLink, T> Slot<O, T> {
    /// Puts the job in the worker's queue, and waits for room where it must.
    pub fn put<R: Wait>(&mut self, rt: &R, job: Job)
        requires few { length (jobs_put self.old) < 2 ^ 46 }
        requires publisher { note_publisher job.note
            ≡ publisher_of (view_of (replicator_of (worker_of self.old))) }
        ensures put { jobs_put self.new ≡ jobs_put self.old ++ job ∷ [] }
        ensures worker { worker_of self.new ≡ worker_of self.old }
        ensures started { started_of self.new ≡ started_of self.old }
    {
        put_job(rt, &self.sender, &mut self.pass, job);
    }
}

/// Puts Stop, waits for the worker to end, and gives what it left: it has handled all jobs that were put.
pub fn finish_slot<O: OutLink + Drop, R: Wait, P: Spawner<Worker<O>>>(
    rt: &R,
    slot: Slot<O, P::Started>,
    spawner: &mut P,
) -> Left<O>
    requires { P.task_of (started_of slot) ≡ worker_of slot }
    ensures left { LeftAfter (replicator_of (worker_of slot)) (jobs_put slot) result }
    ensures starts { P.starts spawner.new ≡ P.starts spawner.old }
    ensures faults { P.faults spawner.new ≡ P.faults spawner.old }
{
    let Slot {
        sender,
        mut pass,
        started,
        worker: _,
    } = slot;
    put_stop(rt, &sender, &mut pass);
    let (left, ended) = spawner.join(started).into_left();
    take_in(&sender, pass, ended);
    left
}
