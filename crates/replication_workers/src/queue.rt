//! The queue of one worker: jobs in the order in which they were put, and at last Stop.

use crate::job::Job;
use atomic_table::{Join, Split};
use crossbeam_channel::protocol::{Lesson, Outcome, Protocol};
use crossbeam_channel::{Pass, RuledReceiver, RuledSender};
use published_table::View;
use std::snapshot::Snapshot;

mod ending;
mod making;
mod putting;

pub use ending::take_in;
pub use making::make_queue;
pub use putting::{put_job, put_stop};

/// What a queue holds.
#[derive(Drop)]
pub enum Item {
    /// All jobs of the queue are of this view's publisher. It is the first item, since a rule can't name a
    /// publisher that is known only where the queue is made.
    Home(Snapshot<View>),
    Work(Job),
    Stop,
}

/// What the holder of a pass knows, for contracts alone: the pass itself has no bytes.
pub struct End {
    /// It alone may put.
    pub puts: bool,
    /// It alone may take.
    pub takes: bool,
    pub home: [View; 0],
    pub put: [Item; 0],
    pub taken: [Item; 0],
}

/// What one end of a queue knows of it.
pub type QueuePass = Pass<Item, End>;

pub type Sender = RuledSender<Item, End, InOrder>;

pub type Receiver = RuledReceiver<Item, End, InOrder>;

/// What was put is what was taken and then what the queue holds.
pub struct InOrder;

impl Protocol<Item, End> for InOrder {
    ghost use Rattle.replication_workers.specs.Queue.{QueueRule, whole_end};

    ghost holds = { λ items ends. QueueRule items ends };

    ghost first = { whole_end };
}

/// A put.
pub struct Puts;

impl Outcome<Item, End> for Puts {
    ghost use Rattle.std.specs.Prelude.{◌≡◌};
    ghost use Rattle.replication_workers.specs.Queue.{with_put};

    ghost then = { λ before item after. after ≡ with_put before item };
}

impl Lesson<Item, End> for Puts {
    ghost use Rattle.std.specs.Prelude.{⊤};

    ghost fact = { λ end items. ⊤ };
}

/// A taking.
pub struct Takes;

impl Outcome<Item, End> for Takes {
    ghost use Rattle.replication_workers.specs.Queue.{HasTaken};

    ghost then = { λ before item after. HasTaken before item after };
}

impl Lesson<Item, End> for Takes {
    ghost use Rattle.std.specs.Prelude.{⊤};

    ghost fact = { λ end items. ⊤ };
}

/// Makes two ends of one, and one of two.
pub struct Ends;

impl Split<End> for Ends {
    ghost use Rattle.replication_workers.specs.Queue.{putting_end, taking_end};

    ghost left = { putting_end };

    ghost right = { taking_end };
}

impl Join<End> for Ends {
    ghost use Rattle.replication_workers.specs.Queue.{joined_end, spent_end};

    ghost both = { joined_end };

    ghost spent = { spent_end };
}

/// What the holder of both ends learns: nothing is put after Stop, and what was put was taken or is held.
pub struct Totals;

impl Lesson<Item, End> for Totals {
    ghost use Rattle.replication_workers.specs.Queue.{AddsUp};

    ghost fact = { λ end items. AddsUp end items };
}
