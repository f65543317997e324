//! What gives jobs to slots: to workers, each in a thread of its own, or to replicators on the calling thread.
ghost use Rattle.std.specs.Prelude.{◌≤◌, ◌^◌, length, map};
ghost use Rattle.replication_workers.specs.{Gathering.{HasRoom, IsFresh}, KeptSlots.{AreThreaded, state_of}, SlotStates.{jobs_in_all}};

use crate::batch::Batch;
use crate::replicator::Replicator;
use amt_ports::OutLink;
use gathered::Gathered;
use kept::Kept;
use published_table::Views;

mod choosing;
mod filling;
mod finishing;
mod gathered;
mod inline_slot;
mod jobs_so_far;
mod kept;
mod readying;
mod starting;
mod using;

/// The links of the slots, in slot order.
pub type Outs<O> = Batch<O>;

/// The replicators of the slots, in slot order.
pub type Replicators<O> = Batch<Replicator<O>>;

/// Why no dispatcher was started.
#[derive(Drop)]
pub enum StartFault<O: OutLink> {
    /// Out of memory: nothing was started, and the replicators come back.
    Memory(Replicators<O>),
    /// The spawner refused a start. The link and the view of that slot are lost with it; those of all others
    /// come back, in slot order.
    Failed { outs: Outs<O>, views: Views },
}

/// What a dispatcher leaves.
#[derive(Drop)]
pub struct Finished<O> {
    /// The links, in slot order.
    pub outs: Outs<O>,
    /// The views, in slot order.
    pub views: Views,
    /// How many datagrams were sent.
    pub sent: u64,
    /// How many the links didn't take.
    pub unsent: u64,
    /// How many jobs were copied on the calling thread.
    pub inline: u64,
}

/// Gives each job to one of its slots. It isn't `Drop`: end it by `finish`.
pub struct Dispatcher<O: OutLink, T> {
    slots: Vec<Kept<O, T>>,
    // Room for what the slots leave.
    gathered: Gathered<O>,
    threads: bool,
    ghost kinds: { AreThreaded threads slots.items },
    ghost some: { 1 ≤ length slots.items },
    ghost few_slots: { length slots.items ≤ 64 },
    ghost few_jobs: { jobs_in_all (map state_of slots.items) ≤ 2 ^ 46 },
    ghost fresh: { IsFresh gathered },
    ghost room: { HasRoom (length slots.items) gathered },
}
