//! The spawner over std threads.
ghost use Rattle.std.specs.Prelude.{◌≡◌, None};

use super::promised::{GivenBy, Starts};
use crate::fault::count_fault;
use crate::{Failed, Spawner, Task};
use std::thread::{PromisedHandle, Threads};

/// A spawner over std threads. It doesn't tell its starts.
#[derive(Drop)]
pub struct ThreadSpawner<R, S> {
    rt: R,
    starter: S,
    faults: u64,
}

impl<R: Threads, S> ThreadSpawner<R, S> {
    pub fn new(rt: R, starter: S) -> Self
        ensures { result.faults ≡ 0 }
    {
        ThreadSpawner {
            rt,
            starter,
            faults: 0,
        }
    }

    /// How many starts failed.
    pub fn faults(&self) -> u64
        ensures { result ≡ self.now.faults }
    {
        self.faults
    }
}

impl<R: Threads, S: Starts<T>, T: Task> Spawner<T> for ThreadSpawner<R, S> {
    type Started = PromisedHandle<T::Done, GivenBy<T>>;

    ghost task_of = { λ started. started.promise.0.value };

    ghost starts = { λ _. None };

    ghost faults = { λ spawner. spawner.faults };

    fn start(&mut self, work: T) -> Result<Self::Started, Failed> {
        match self.starter.start_thread(work) {
            Ok(started) => Ok(started),
            Err(_) => Err(count_fault(&mut self.faults)),
        }
    }

    fn join(&mut self, started: Self::Started) -> T::Done {
        started.join(&self.rt)
    }
}
