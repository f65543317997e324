//! How a queue is made.
ghost use Rattle.std.specs.Prelude.{◌≡◌, [], ◌∷◌, IfOk};
ghost use Rattle.crossbeam_channel.specs.{Claims.{IsSeatAt, view}, Ends.{receives_on, ruled_capacity, sends_on}};
ghost use Rattle.replication_workers.specs.{Queue.{IsPutting, IsTaking, jobs_of, whole_end, with_put}, declared.queue.Item.TheVariants.{Home}};

use super::putting::put;
use super::{End, Ends, InOrder, Item, QueuePass, Receiver, Sender};
use crossbeam_channel::bounded_with;
use published_table::View;
use std::alloc::{AllocError, Global};
use std::snapshot::Snapshot;
use std::sync::Wait;

// As many jobs as may wait for a worker. The first item, which says whose jobs they are, has a place of one
// until the worker takes it, and so has Stop at last.
const PLACES: usize = 256;

// Puts whose jobs the queue is for.
fn settle<R: Wait>(rt: &R, sender: &Sender, pass: &mut QueuePass, home: Snapshot<View>)
    requires seat { IsSeatAt (sends_on sender.now) pass.old }
    requires new { view pass.old ≡ whole_end }
    ensures seat { IsSeatAt (sends_on sender.now) pass.new × (pass.new.id ≡ pass.old.id) }
    ensures settled { view pass.new ≡ with_put whole_end (Home home) }
{
    put(rt, sender, pass, Item::Home(home));
}

/// A queue for jobs of this view's publisher: what puts with its pass, and what takes with its own.
pub fn make_queue<R: Wait>(
    rt: &R,
    alloc: Global,
    home: &View,
) -> Result<(Sender, QueuePass, Receiver, QueuePass), AllocError>
    ensures seats { IfOk result (λ made. IsSeatAt (sends_on made.0) made.1
        × IsSeatAt (receives_on made.2) made.3 × (receives_on made.2 ≡ sends_on made.0)) }
    ensures putting { IfOk result (λ made. IsPutting (view made.1)
        × (jobs_of (view made.1).put ≡ []) × ((view made.1).home ≡ home.now ∷ [])) }
    ensures taking { IfOk result (λ made. IsTaking (view made.3)
        × ((view made.3).taken ≡ []) × ((view made.3).home ≡ home.now ∷ [])) }
    ensures places { IfOk result (λ made. ruled_capacity (sends_on made.0) ≡ 256) }
{
    let (sender, receiver, mut pass) = bounded_with::<Item, End, InOrder, Global>(alloc, PLACES)?;
    settle(rt, &sender, &mut pass, Snapshot::of(home));
    let taking = sender.another::<Ends>(&mut pass);
    Ok((sender, pass, receiver, taking))
}
