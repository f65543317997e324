//! What tells the time.
ghost use Rattle.std.specs.Prelude.{◌≤◌, ℕ, List, Option};
ghost use Rattle.amt_ports.specs.Told.{Appends};

use amt_values::Moment;

/// A clock. Its moments may go back; whoever asks takes the greatest.
pub trait Clock {
    /// The moments that it gave so far, in order, where the device tells them.
    ghost given: { Self → Option (List ℕ) };

    /// How often the device has failed. A count at 2^64 - 1 stays there.
    ghost faults: { Self → ℕ };

    /// The moment. It can't fail: a clock that can't be read gives its last moment again, or 0.
    fn now(&mut self) -> Moment
        ensures given { Appends (given self.old) (given self.new) result }
        ensures faults { faults self.old ≤ faults self.new };
}
