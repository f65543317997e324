//! What starts the workers of the tests.

use amt_ports::{Failed, GivenBy, MemOut, Starts};
use replication_workers::{Worker, WorkerDone, start_worker};
use std::sync::Wait;
use std::thread::{PromisedHandle, Threads};

/// Starts each worker in a thread of its own. That a worker may go there is proved.
#[derive(Drop)]
pub struct Starter<'a, R> {
    pub rt: &'a R,
}

impl<'a, R: Threads + Wait + 'static> Starts<Worker<MemOut>> for Starter<'a, R> {
    fn start_thread(
        &self,
        work: Worker<MemOut>,
    ) -> Result<PromisedHandle<WorkerDone<MemOut>, GivenBy<Worker<MemOut>>>, Failed> {
        start_worker(self.rt, work)
    }
}
