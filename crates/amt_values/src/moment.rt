//! Points in time.

ghost use Rattle.std.specs.Prelude.{◌≡◌, ◌<◌, ◌≤◌, ◌^◌, ◌↔◌, ℕ, max, IsNone, IfSome};

use std::marker::Model;

/// A point in time, in milliseconds from a start of the caller's choosing.
///
/// It is below 2^62, so that no sum of a moment and a lifetime overflows.
#[derive(Clone, Copy, Debug, PartialEq, Eq, PartialOrd, Ord)]
pub struct Moment {
    ms: u64,
}

impl Model for Moment {
    ghost use Rattle.std.specs.Prelude.{ℕ, ◌<◌, ◌^◌};

    ghost Value = { ℕ };

    ghost view = { λ m. m.ms };

    ghost invariant = { λ m. m.ms < 2 ^ 62 };

    ghost inverse = { λ ms. record { ms = ms } };
}

impl Moment {
    pub fn new(ms: u64) -> Option<Moment>
        ensures none { IsNone result ↔ (2 ^ 62 ≤ ms) }
        ensures value { IfSome result (λ moment. moment ≡ ms) }
    {
        if ms < 1 << 62 {
            Some(Moment { ms })
        } else {
            None
        }
    }

    /// The milliseconds since the start.
    pub fn ms(&self) -> u64
        ensures value { result ≡ self.now }
        ensures small { result < 2 ^ 62 }
    {
        self.ms
    }

    /// The later of two moments: time doesn't run backwards.
    pub fn later(&self, other: &Moment) -> Moment
        ensures { result ≡ max self.now other.now }
    {
        if self.ms < other.ms { *other } else { *self }
    }
}
