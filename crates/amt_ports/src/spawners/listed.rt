//! A spawner of which some starts are refused, for tests and callers.
ghost use Rattle.std.specs.Prelude.{◌≡◌, Some, Contains, IsErr, IfOk, OnOk, OnErr};
ghost use Rattle.amt_ports.specs.{Causes.{HasCause, next_count}, Starts.{HasStarted}, Tally.{fresh_tally, with_call, with_fault}};

use super::promised::{GivenBy, Starts};
use crate::tally::CallTally;
use crate::{Failed, Spawner, Task};
use std::marker::Model;
use std::thread::{PromisedHandle, Threads};

/// A spawner over threads that refuses the starts of listed numbers, and tells how many tasks it has started.
///
/// A thread that can't be made is a failed start, too, and counts as one.
#[derive(Drop)]
pub struct ListedSpawner<R, S> {
    rt: R,
    starter: S,
    starts: u64,
    tally: CallTally,
}

impl<R, S> Model for ListedSpawner<R, S> {
    ghost use Rattle.amt_ports.specs.ListedSpawner.{StartCalls};

    ghost Value = { StartCalls };

    ghost view = { λ s. record { starts = s.starts; tally = s.tally } };
}

impl<R: Threads, S> ListedSpawner<R, S> {
    /// The starts of these numbers fail, counted from 1.
    pub fn new(rt: R, starter: S, calls: Vec<u64>) -> Self
        ensures starts { result.starts ≡ 0 }
        ensures tally { result.tally ≡ fresh_tally calls.items }
    {
        ListedSpawner {
            rt,
            starter,
            starts: 0,
            tally: CallTally::new(calls),
        }
    }

    /// How many tasks it has started.
    pub fn starts(&self) -> u64
        ensures { result ≡ self.now.starts }
    {
        self.starts
    }

    /// How many starts failed.
    pub fn faults(&self) -> u64
        ensures { result ≡ self.now.tally.faults }
    {
        self.tally.faults()
    }
}

impl<R: Threads, S: Starts<T>, T: Task> Spawner<T> for ListedSpawner<R, S> {
    type Started = PromisedHandle<T::Done, GivenBy<T>>;

    ghost task_of = { λ started. started.promise.0.value };

    ghost starts = { λ spawner. Some spawner.starts };

    ghost faults = { λ spawner. spawner.tally.faults };

    fn start(&mut self, work: T) -> Result<Self::Started, Failed>
        ensures started { IfOk result (λ started. started.promise.0.value ≡ work) }
        ensures counted { IfOk result (λ _. HasStarted (Some self.old.starts)
            (Some self.new.starts)) }
        ensures kept { OnErr result (Some self.new.starts ≡ Some self.old.starts) }
        ensures cause { HasCause self.old.tally.faults self.new.tally.faults result }

        ensures listed { Contains self.old.tally.failing (next_count self.old.tally.made)
            → IsErr result }
        ensures ok { OnOk result (self.new.tally ≡ with_call self.old.tally) }
        ensures err { OnErr result (self.new.tally ≡ with_fault (with_call self.old.tally)) }
    {
        self.tally.call()?;
        match self.starter.start_thread(work) {
            Ok(started) => {
                self.starts = self.starts.saturating_add(1);
                Ok(started)
            }
            Err(_) => Err(self.tally.fail()),
        }
    }

    fn join(&mut self, started: Self::Started) -> T::Done
        ensures gives { T.gives started.promise.0.value result }
        ensures starts { Some self.new.starts ≡ Some self.old.starts }
        ensures faults { self.new.tally.faults ≡ self.old.tally.faults }

        ensures tally { self.new.tally ≡ self.old.tally }
    {
        started.join(&self.rt)
    }
}
