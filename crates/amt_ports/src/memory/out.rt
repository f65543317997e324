//! An out link in memory, for tests and callers.
ghost use Rattle.std.specs.Prelude.{◌≡◌, [], Some, Contains, IsErr, IsSome, OnOk, OnErr};
ghost use Rattle.amt_ports.specs.{Causes.{HasCause, next_count}, MemOut.{Shows}, Sends.{tried_send}, Tally.{fresh_tally, with_call, with_fault}, Told.{Appends}};

use crate::tally::CallTally;
use crate::tried::{SendLog, Tried, send_by};
use crate::{Failed, OutLink};
use amt_values::Peer;
use std::alloc::Global;
use std::marker::Model;

/// An out link that keeps what was sent in memory, and of which some calls may fail.
///
/// A growth that memory refuses is a failed call, and counts as one; after it the link tells its sends no
/// more, since one of them is missing.
#[derive(Debug, Drop)]
pub struct MemOut {
    log: SendLog,
    tally: CallTally,
}

impl Model for MemOut {
    ghost use Rattle.amt_ports.specs.MemOut.{TriedSends};

    ghost Value = { TriedSends };

    ghost view = { λ out. record { tried = out.log; tally = out.tally } };
}

impl MemOut {
    /// No call of it fails unless memory runs out.
    pub fn new(alloc: Global) -> Self
        ensures tried { result.tried ≡ Some [] }
        ensures tally { result.tally ≡ fresh_tally [] }
    {
        MemOut::failing(alloc, Vec::new(alloc))
    }

    /// The calls of these numbers fail, counted from 1.
    pub fn failing(alloc: Global, calls: Vec<u64>) -> Self
        ensures tried { result.tried ≡ Some [] }
        ensures tally { result.tally ≡ fresh_tally calls.items }
    {
        MemOut {
            log: SendLog::new(alloc),
            tally: CallTally::new(calls),
        }
    }

    /// What was tried, in order; all of it, unless memory ran out.
    pub fn tried(&self) -> &[Tried]
        ensures { Shows self.now.tried result.now }
    {
        self.log.as_slice()
    }

    /// How many calls failed.
    pub fn faults(&self) -> u64
        ensures { result ≡ self.now.tally.faults }
    {
        self.tally.faults()
    }
}

impl OutLink for MemOut {
    ghost tried = { λ out. out.tried };

    ghost faults = { λ out. out.tally.faults };

    fn send(&mut self, to: &Peer, bytes: &[u8]) -> Result<(), Failed>
        ensures tried { Appends self.old.tried self.new.tried
            (tried_send to.now bytes.now result) }
        ensures tells { OnOk result (IsSome self.old.tried → IsSome self.new.tried) }
        ensures cause { HasCause self.old.tally.faults self.new.tally.faults result }

        ensures listed { Contains self.old.tally.failing (next_count self.old.tally.made)
            → IsErr result }
        ensures ok { OnOk result (self.new.tally ≡ with_call self.old.tally) }
        ensures err { OnErr result (self.new.tally ≡ with_fault (with_call self.old.tally)) }
    {
        send_by(&mut self.log, &mut self.tally, to, bytes)
    }
}
