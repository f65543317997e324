//! Counts of copies in memory, for tests and callers.
ghost use Rattle.std.specs.Prelude.{◌≡◌, [], Some, drop};
ghost use Rattle.amt_ports.specs.{Scripted.{head_or}, Told.{Appends}};
ghost use Rattle.relay_serving.specs.Controls.{no_copies};

use crate::control::{Copies, CopyCount};
use std::marker::Model;

/// Counts of copies in memory, for tests and callers: those of a list, and after them none sent and none not.
#[derive(Debug, Drop)]
pub struct MemCopies {
    counts: Vec<CopyCount>,
    given: u64,
}

impl Model for MemCopies {
    ghost use Rattle.std.specs.Prelude.{List, Option, drop};
    ghost use Rattle.amt_ports.specs.Scripted.{Script, given_of};
    ghost use Rattle.relay_serving.specs.{Controls.{no_copies}, declared.control.CopyCount.{CopyCount as CountValue}};

    ghost Value = { Script CountValue };

    ghost view = { λ copies. record { coming = drop copies.given copies.counts.items; last = no_copies; given = given_of copies.given copies.counts.items no_copies } };
}

impl MemCopies {
    pub fn new(counts: Vec<CopyCount>) -> MemCopies
        ensures coming { result.coming ≡ counts.items }
        ensures given { result.given ≡ Some [] }
    {
        MemCopies { counts, given: 0 }
    }
}

// The count at this place, or none.
fn count_at(counts: &[CopyCount], place: u64) -> CopyCount
    ensures { result ≡ head_or no_copies (drop place counts.now) }
{
    match counts.get(place as usize) {
        Some(count) => *count,
        None => CopyCount { sent: 0, unsent: 0 },
    }
}

impl Copies for MemCopies {
    ghost given = { λ copies. copies.given };

    fn copies(&mut self) -> CopyCount
        ensures given { Appends self.old.given self.new.given result }
        ensures next { result ≡ head_or no_copies self.old.coming }
    {
        let count = count_at(self.counts.as_slice(), self.given);
        self.given = self.given.saturating_add(1);
        count
    }
}
