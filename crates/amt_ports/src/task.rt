//! Work that may run in a thread of its own, and what starts it.
ghost use Rattle.std.specs.Prelude.{◌≡◌, ℕ, Option, IfOk, OnErr};
ghost use Rattle.amt_ports.specs.{Causes.{HasCause}, Starts.{HasStarted}};

use crate::Failed;
use std::sync::Wait;

/// Work that gives something in the end.
pub trait Task: Sized + Drop {
    type Done;

    /// What the task gives, of all that it may give.
    ghost gives: { Self → Self.Done → Type 0 };

    /// Does the work. It may wait for other threads.
    fn run<R: Wait>(self, rt: &R) -> Self::Done
        ensures { gives self result };
}

/// What starts tasks, each in a thread of its own where it has threads.
pub trait Spawner<T: Task> {
    type Started;

    /// Which task a started one is.
    ghost task_of: { Self.Started → T };

    /// How many tasks it has started, where it tells that. A count at 2^64 - 1 stays there.
    ghost starts: { Self → Option ℕ };

    /// How often a start has failed. A count at 2^64 - 1 stays there.
    ghost faults: { Self → ℕ };

    /// Starts the task; one that isn't started is dropped.
    fn start(&mut self, work: T) -> Result<Self::Started, Failed>
        ensures started { IfOk result (λ started. task_of started ≡ work) }
        ensures counted { IfOk result (λ _. HasStarted (starts self.old) (starts self.new)) }
        ensures kept { OnErr result (starts self.new ≡ starts self.old) }
        ensures cause { HasCause (faults self.old) (faults self.new) result };

    /// Waits for the task to end, and answers what it gives.
    fn join(&mut self, started: Self::Started) -> T::Done
        ensures gives { T.gives (task_of started) result }
        ensures starts { starts self.new ≡ starts self.old }
        ensures faults { faults self.new ≡ faults self.old };
}
