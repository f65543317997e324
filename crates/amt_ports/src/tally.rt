//! The calls of a device in memory, and which of them fail.

ghost use Rattle.std.specs.Prelude.{◌≡◌, ◌≤◌, ◌↔◌, Contains, IsErr, OnOk, OnErr};
ghost use Rattle.amt_ports.specs.{Causes.{HasCause, next_count}, Tally.{fresh_tally, with_call, with_fault}};

use crate::Failed;
use crate::fault::count_fault;
use std::marker::Model;

/// The calls of a device in memory: how many there were, which of them fail, and how many failed.
#[derive(Debug, Drop)]
pub struct CallTally {
    made: u64,
    failing: Vec<u64>,
    faults: u64,
}

impl Model for CallTally {
    ghost use Rattle.amt_ports.specs.Tally.{Tally};

    ghost Value = { Tally };

    ghost view = { λ t. record { made = t.made; failing = t.failing.items; faults = t.faults } };
}

impl CallTally {
    /// Calls are counted from 1, so a 0 in the list names none.
    pub fn new(failing: Vec<u64>) -> Self
        ensures { result ≡ fresh_tally failing.items }
    {
        CallTally {
            made: 0,
            failing,
            faults: 0,
        }
    }

    /// How many of the calls failed. A count at 2^64 - 1 stays there.
    pub fn faults(&self) -> u64
        ensures { result ≡ self.now.faults }
    {
        self.faults
    }

    /// Counts a call, which fails where its number is listed.
    pub fn call(&mut self) -> Result<(), Failed>
        ensures listed { IsErr result ↔ Contains self.old.failing (next_count self.old.made) }
        ensures ok { OnOk result (self.new ≡ with_call self.old) }
        ensures err { OnErr result (self.new ≡ with_fault (with_call self.old)) }
        ensures cause { HasCause self.old.faults self.new.faults result }
    {
        self.made = self.made.saturating_add(1);
        if self.failing.contains(&self.made) {
            return Err(self.fail());
        }
        Ok(())
    }

    /// Counts a fault of a call that is not listed, as one where memory ran out.
    pub fn fail(&mut self) -> Failed
        ensures fault { self.new ≡ with_fault self.old }
        ensures later { self.old.faults ≤ self.new.faults }
    {
        count_fault(&mut self.faults)
    }
}
