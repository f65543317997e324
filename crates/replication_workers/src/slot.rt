//! One started worker, with the putting end of its queue.
ghost use Rattle.std.specs.Prelude.{◌≡◌, [], ◌∷◌, length, map};
ghost use Rattle.crossbeam_channel.specs.{Claims.{IsSeatAt, view}, Ends.{receives_on, sends_on}};
ghost use Rattle.published_table.specs.Views.{publisher_of};
ghost use Rattle.replication_workers.specs.{Queue.{IsPutting, jobs_of}, Replicators.{view_of}};

use crate::queue::{QueuePass, Sender};
use crate::worker::Worker;
use amt_ports::OutLink;
use published_table::View;
use std::snapshot::Snapshot;

mod running;

pub use running::{finish_slot, ready_slot, start_slot};

/// A worker that isn't started, with all the memory that it needs.
#[derive(Drop)]
pub struct ReadySlot<O: OutLink> {
    sender: Sender,
    pass: QueuePass,
    worker: Worker<O>,
    ghost seated: { IsSeatAt (sends_on sender) pass },
    ghost linked: { receives_on worker.inbox ≡ sends_on sender },
    ghost putting: { IsPutting (view pass) },
    ghost fresh: { length (jobs_of (view pass).put) ≡ 0 },
    ghost home: { map publisher_of (view pass).home ≡ publisher_of (view_of worker.replicator) ∷ [] },
}

/// A started worker, and the putting end of its queue.
pub struct Slot<O: OutLink, T> {
    sender: Sender,
    pass: QueuePass,
    started: T,
    worker: Snapshot<Worker<O>>,
    ghost seated: { IsSeatAt (sends_on sender) pass },
    ghost linked: { receives_on worker.value.inbox ≡ sends_on sender },
    ghost putting: { IsPutting (view pass) },
    ghost home: { map publisher_of (view pass).home ≡ publisher_of (view_of worker.value.replicator) ∷ [] },
}

/// What a worker left.
#[derive(Drop)]
pub struct Left<O> {
    pub out: O,
    pub view: View,
    /// How many jobs it handled.
    pub jobs: u64,
    /// How many datagrams were sent.
    pub sent: u64,
    /// How many the device didn't take.
    pub unsent: u64,
}
