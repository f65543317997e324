//! How items are put.
ghost use Rattle.std.specs.Prelude.{◌≡◌, ◌<◌, ◌^◌, [], ◌∷◌, ◌++◌, length, MatchResult};
ghost use Rattle.crossbeam_channel.specs.{Claims.{IsSeatAt, view}, Ends.{sends_on}};
ghost use Rattle.replication_workers.specs.Queue.{HasStopped, IsOfHome, IsPutting, MayPut, jobs_of, with_put};

use super::{Item, Puts, QueuePass, Sender};
use crate::job::Job;
use std::sync::Wait;
use std::thread;

// How often a put is tried before it sleeps. A put that sleeps at once where the queue is full halves the
// rate at which jobs pass.
const TRIES: u32 = 1000;

// Tries to put the item, and hands it back where the queue stays full.
fn offer<R: Wait>(rt: &R, sender: &Sender, pass: &mut QueuePass, mut item: Item) -> Result<(), Item>
    requires seat { IsSeatAt (sends_on sender.now) pass.old }
    requires may { MayPut (view pass.old) item }
    ensures seat { IsSeatAt (sends_on sender.now) pass.new × (pass.new.id ≡ pass.old.id) }
    ensures put { MatchResult result (λ _. view pass.new ≡ with_put (view pass.old) item)
        (λ back. (back ≡ item) × (view pass.new ≡ view pass.old)) }
{
    for _ in 0..TRIES {
        match sender.try_send_as::<Puts, R>(rt, pass, item) {
            Ok(()) => return Ok(()),
            Err(refused) => item = refused.into_inner(),
        }
        thread::yield_now();
    }
    Err(item)
}

// Puts the item, and sleeps while there is no room.
fn wait_and_put<R: Wait>(rt: &R, sender: &Sender, pass: &mut QueuePass, mut item: Item)
    requires seat { IsSeatAt (sends_on sender.now) pass.old }
    requires may { MayPut (view pass.old) item }
    ensures seat { IsSeatAt (sends_on sender.now) pass.new × (pass.new.id ≡ pass.old.id) }
    ensures put { view pass.new ≡ with_put (view pass.old) item }
{
    for _ in rt.forever() {
        match sender.send_as::<Puts, R>(rt, pass, item) {
            Ok(()) => return,
            Err(refused) => item = refused.into_inner(),
        }
    }
    unreachable!()
}

/// Puts the item, and waits for room where it must.
pub fn put<R: Wait>(rt: &R, sender: &Sender, pass: &mut QueuePass, item: Item)
    requires seat { IsSeatAt (sends_on sender.now) pass.old }
    requires may { MayPut (view pass.old) item }
    ensures seat { IsSeatAt (sends_on sender.now) pass.new × (pass.new.id ≡ pass.old.id) }
    ensures put { view pass.new ≡ with_put (view pass.old) item }
{
    match offer(rt, sender, pass, item) {
        Ok(()) => {}
        Err(back) => wait_and_put(rt, sender, pass, back),
    }
}

/// Puts the job at the end of the queue, and waits for room where it must.
pub fn put_job<R: Wait>(rt: &R, sender: &Sender, pass: &mut QueuePass, job: Job)
    requires seat { IsSeatAt (sends_on sender.now) pass.old }
    requires putting { IsPutting (view pass.old) }
    requires few { length (jobs_of (view pass.old).put) < 2 ^ 46 }
    requires publisher { IsOfHome (view pass.old).home job }
    ensures seat { IsSeatAt (sends_on sender.now) pass.new × (pass.new.id ≡ pass.old.id) }
    ensures putting { IsPutting (view pass.new) }
    ensures put { jobs_of (view pass.new).put ≡ jobs_of (view pass.old).put ++ job ∷ [] }
    ensures home { (view pass.new).home ≡ (view pass.old).home }
{
    put(rt, sender, pass, Item::Work(job));
}

/// Puts Stop, after which nothing is put.
pub fn put_stop<R: Wait>(rt: &R, sender: &Sender, pass: &mut QueuePass)
    requires seat { IsSeatAt (sends_on sender.now) pass.old }
    requires putting { IsPutting (view pass.old) }
    ensures seat { IsSeatAt (sends_on sender.now) pass.new × (pass.new.id ≡ pass.old.id) }
    ensures stopped { HasStopped (view pass.new) }
    ensures jobs { jobs_of (view pass.new).put ≡ jobs_of (view pass.old).put }
{
    put(rt, sender, pass, Item::Stop);
}
