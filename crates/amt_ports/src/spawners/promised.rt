//! A thread that gives what its task may give.
ghost use Rattle.std.specs.Prelude.{◌≡◌, IfOk};

use crate::{Failed, Task};
use std::snapshot::Snapshot;
use std::sync::Wait;
use std::thread;
use std::thread::{Promise, PromisedHandle, Threads};

/// The promise that a thread gives what this task may give.
#[derive(Drop)]
pub struct GivenBy<T>(pub Snapshot<T>);

impl<T: Task> Promise<T::Done> for GivenBy<T> {
    ghost kept_by = { λ promise done. T.gives promise.0.value done };
}

// Leave to wait, which the thread may take with it: it has no bytes.
#[derive(Drop)]
struct WaitBy<R>(Snapshot<R>);

impl<R: Wait> Wait for WaitBy<R> {}

/// What starts a thread for tasks of one type.
///
/// One impl a type of task: that the task may go to another thread is proved where the type is known, by a
/// call of `start_promised`.
pub trait Starts<T: Task> {
    /// Starts the task in a thread of its own; one that isn't started is dropped.
    fn start_thread(&self, work: T) -> Result<PromisedHandle<T::Done, GivenBy<T>>, Failed>
        ensures { IfOk result (λ started. started.promise.0.value ≡ work) };
}

/// Starts the task in a thread of its own. It is dropped where no thread can be made.
pub fn start_promised<R, T>(rt: &R, work: T) -> Result<PromisedHandle<T::Done, GivenBy<T>>, Failed>
where
    R: Threads + Wait + 'static,
    T: Task + Send + 'static,
    T::Done: Send + Drop + 'static,
    ensures { IfOk result (λ started. started.promise.0.value ≡ work) }
{
    let promise = GivenBy(Snapshot::of(&work));
    let by = WaitBy(Snapshot::of(rt));
    match thread::spawn_with(rt, promise, move || work.run(&by)) {
        Ok(started) => Ok(started),
        Err(_) => Err(Failed),
    }
}
