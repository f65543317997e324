//! A clock in memory, for tests and callers.
ghost use Rattle.std.specs.Prelude.{◌≡◌, ◌≤◌, [], Some, drop};
ghost use Rattle.amt_ports.specs.{Scripted.{head_or, last_or}, Told.{Appends}};

use crate::Clock;
use crate::script::Scripted;
use amt_values::Moment;
use std::marker::Model;

/// A clock whose moments are listed. After them it gives the last one again, or 0 where none was listed.
///
/// Its count of faults is 0 at every moment. It takes no memory.
#[derive(Debug, Drop)]
pub struct MemClock {
    moments: Scripted<Moment>,
}

impl Model for MemClock {
    ghost use Rattle.std.specs.Prelude.{ℕ};
    ghost use Rattle.amt_ports.specs.Scripted.{Script};

    ghost Value = { Script ℕ };

    ghost view = { λ clock. clock.moments };
}

impl MemClock {
    pub fn new(moments: Vec<Moment>) -> Self
        ensures coming { result.coming ≡ moments.items }
        ensures last { result.last ≡ last_or 0 moments.items }
        ensures given { result.given ≡ Some [] }
    {
        let last = last_of(moments.as_slice());
        MemClock {
            moments: Scripted::new(moments, last),
        }
    }
}

// The last moment, or 0.
fn last_of(moments: &[Moment]) -> Moment
    ensures { result ≡ last_or 0 moments.now }
{
    match moments.last() {
        Some(moment) => *moment,
        None => Moment::new(0).unwrap(),
    }
}

impl Clock for MemClock {
    ghost given = { λ clock. clock.given };

    ghost faults = { λ _. 0 };

    fn now(&mut self) -> Moment
        ensures given { Appends self.old.given self.new.given result }
        ensures faults { 0 ≤ 0 }

        ensures moment { result ≡ head_or self.old.last self.old.coming }
        ensures coming { self.new.coming ≡ drop 1 self.old.coming }
        ensures last { self.new.last ≡ self.old.last }
    {
        self.moments.next()
    }
}
