//! A sink in memory, for tests and callers.

ghost use Rattle.std.specs.{Prelude.{◌≡◌, ◌<◌, [], length, Some, Contains, IsErr, IfOk, OnOk, OnErr}, Io.{WritesAtMost, KnownBytes.{WriteAppends}}};
ghost use Rattle.amt_ports.specs.{Causes.{HasCause, next_count}, Tally.{fresh_tally, with_call, with_fault}};

use crate::tally::CallTally;
use crate::{Failed, Sink};
use amt_values::Bytes;
use std::alloc::Global;
use std::marker::Model;

/// A sink that keeps what was written to it in memory, and of which some calls may fail.
///
/// A growth that memory refuses is a failed call, and counts as one.
#[derive(Debug, Drop)]
pub struct MemSink {
    written: Bytes,
    tally: CallTally,
}

impl Model for MemSink {
    ghost use Rattle.amt_ports.specs.MemSink.{WrittenBytes};

    ghost Value = { WrittenBytes };

    ghost view = { λ s. record { written = s.written; tally = s.tally } };
}

impl MemSink {
    /// No call of it fails unless memory runs out.
    pub fn new(alloc: Global) -> Self
        ensures written { result.written ≡ [] }
        ensures tally { result.tally ≡ fresh_tally [] }
    {
        MemSink::failing(alloc, Vec::new(alloc))
    }

    /// The calls of these numbers fail, counted from 1.
    pub fn failing(alloc: Global, calls: Vec<u64>) -> Self
        ensures written { result.written ≡ [] }
        ensures tally { result.tally ≡ fresh_tally calls.items }
    {
        MemSink {
            written: Bytes::new(alloc),
            tally: CallTally::new(calls),
        }
    }

    pub fn as_slice(&self) -> &[u8]
        ensures { result.now ≡ self.now.written }
    {
        self.written.as_slice()
    }

    pub fn faults(&self) -> u64
        ensures { result ≡ self.now.tally.faults }
    {
        self.tally.faults()
    }
}

impl Sink for MemSink {
    ghost written = { λ s. Some s.written };

    ghost faults = { λ s. s.tally.faults };

    fn write(&mut self, piece: &[u8]) -> Result<usize, Failed>
        ensures bound { WritesAtMost result piece.now }
        ensures some { IfOk result (λ n. 0 < length piece.now → 0 < n) }
        ensures bytes { WriteAppends (Some self.old.written) (Some self.new.written)
            result piece.now }
        ensures cause { HasCause self.old.tally.faults self.new.tally.faults result }

        ensures whole { IfOk result (λ n. n ≡ length piece.now) }
        ensures listed { Contains self.old.tally.failing (next_count self.old.tally.made)
            → IsErr result }
        ensures ok { OnOk result (self.new.tally ≡ with_call self.old.tally) }
        ensures err { OnErr result (self.new.tally ≡ with_fault (with_call self.old.tally)) }
    {
        self.tally.call()?;
        match self.written.append(piece) {
            Ok(()) => Ok(piece.len()),
            Err(_) => Err(self.tally.fail()),
        }
    }
}
