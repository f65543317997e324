//! What takes jobs from a queue and copies their packets.
ghost use Rattle.std.specs.Prelude.{◌≡◌, [], ◌∷◌, map};
ghost use Rattle.crossbeam_channel.specs.{Claims.{IsSeatAt, view}, Ends.{receives_on}};
ghost use Rattle.published_table.specs.Views.{publisher_of};
ghost use Rattle.replication_workers.specs.{Queue.{IsTaking}, Replicators.{view_of}};

use crate::counts::{Counts, handle};
use crate::queue::{Item, QueuePass, Receiver, Takes};
use crate::replicator::Replicator;
use crate::slot::Left;
use amt_ports::{OutLink, Task};
use published_table::View;
use std::sync::Wait;

mod thread;

pub use thread::start_worker;

/// A slot's replicator, and the taking end of its queue.
#[derive(Drop)]
pub struct Worker<O: OutLink> {
    replicator: Replicator<O>,
    inbox: Receiver,
    pass: QueuePass,
    ghost seated: { IsSeatAt (receives_on inbox) pass },
    ghost taking: { IsTaking (view pass) },
    ghost fresh: { (view pass).taken ≡ [] },
    ghost home: { map publisher_of (view pass).home ≡ publisher_of (view_of replicator) ∷ [] },
}

/// What a worker leaves.
#[derive(Drop)]
pub struct WorkerDone<O> {
    pub out: O,
    pub view: View,
    /// How many jobs it handled.
    pub jobs: u64,
    /// How many datagrams were sent.
    pub sent: u64,
    /// How many the device didn't take.
    pub unsent: u64,
    pass: QueuePass,
}

impl<O: OutLink> Worker<O> {
    /// A worker with this replicator, which takes from a new queue with this pass.
    pub(crate) fn new(replicator: Replicator<O>, inbox: Receiver, pass: QueuePass) -> Worker<O>
        requires seat { IsSeatAt (receives_on inbox) pass }
        requires taking { IsTaking (view pass) }
        requires fresh { (view pass).taken ≡ [] }
        requires home { map publisher_of (view pass).home ≡ publisher_of (view_of replicator) ∷ [] }
        ensures replicator { result.replicator ≡ replicator }
        ensures inbox { result.inbox ≡ inbox }
    {
        Worker {
            replicator,
            inbox,
            pass,
        }
    }

    /// The replicator of a worker that is not to be run.
    pub(crate) fn into_replicator(self) -> Replicator<O>
        ensures { result ≡ self.replicator }
    {
        let Worker {
            replicator,
            inbox: _inbox,
            pass: _pass,
        } = self;
        replicator
    }
}

impl<O> WorkerDone<O> {
    /// What it left, and the pass of the end that took Stop.
    pub(crate) fn into_left(self) -> (Left<O>, QueuePass)
        ensures { (result.0.out ≡ self.out) × (result.0.view ≡ self.view) × (result.0.jobs ≡ self.jobs)
            × (result.0.sent ≡ self.sent) × (result.0.unsent ≡ self.unsent) × (result.1 ≡ self.pass) }
    {
        let WorkerDone {
            out,
            view,
            jobs,
            sent,
            unsent,
            pass,
        } = self;
        let left = Left {
            out,
            view,
            jobs,
            sent,
            unsent,
        };
        (left, pass)
    }
}

impl<O: OutLink + Drop> Task for Worker<O> {
    ghost use Rattle.replication_workers.specs.Workers.{WorkerGives};

    type Done = WorkerDone<O>;

    ghost gives = { WorkerGives };

    /// Handles the jobs in order until Stop.
    fn run<R: Wait>(self, rt: &R) -> WorkerDone<O> {
        let Worker {
            mut replicator,
            inbox,
            mut pass,
        } = self;
        let mut counts = Counts::none();
        for _ in rt.forever() {
            match inbox.recv_as::<Takes, R>(rt, &mut pass) {
                Ok(Item::Work(job)) => {
                    handle(rt, &mut replicator, &mut counts, job);
                }
                Ok(Item::Stop) => {
                    let (view, out) = replicator.into_parts();
                    let Counts { jobs, sent, unsent } = counts;
                    return WorkerDone {
                        out,
                        view,
                        jobs,
                        sent,
                        unsent,
                        pass,
                    };
                }
                Ok(Item::Home(_home)) => {}
                // Nothing was there, or the sender is gone, which can't be before Stop: asked again.
                Err(_) => {}
            }
        }
        unreachable!()
    }
}
