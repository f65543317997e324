//! How a worker gets a thread of its own.
ghost use Rattle.std.specs.Prelude.{◌≡◌, IfOk};

use super::{Worker, WorkerDone};
use amt_ports::{Failed, GivenBy, OutLink, start_promised};
use std::sync::Wait;
use std::thread::{PromisedHandle, Threads};

/// Starts the worker in a thread of its own. One that can't be started is dropped.
///
/// That a worker may go to another thread where its link may is proved here, once: an impl of `Starts` at a
/// worker's type calls this.
pub fn start_worker<R, O>(
    rt: &R,
    work: Worker<O>,
) -> Result<PromisedHandle<WorkerDone<O>, GivenBy<Worker<O>>>, Failed>
where
    R: Threads + Wait + 'static,
    O: OutLink + Send + Drop + 'static,
    ensures { IfOk result (λ started. started.promise.0.value ≡ work) }
{
    start_promised(rt, work)
}
