//! Sources in memory, for tests and callers.

ghost use Rattle.std.specs.{Prelude.{◌≡◌, ◌↔◌, [], min, length, take, drop, Some, Ok, Contains, IsErr, IfOk, OnOk, OnErr}, Io.{ReadsAtMost, KnownBytes.{ReadConsumes}}};
ghost use Rattle.amt_ports.specs.{Causes.{HasCause, next_count}, Tally.{fresh_tally, with_call, with_fault}};

use crate::tally::CallTally;
use crate::{Failed, Source};
use amt_values::Bytes;
use std::alloc::Global;
use std::marker::Model;

/// Bytes in memory as a source that never fails. Contracts see the bytes that are left.
///
/// Its count of faults is 0 at every moment, so a caller at this type knows that no read fails.
#[derive(Debug, Drop)]
pub struct FaultlessSource {
    bytes: Bytes,
    at: usize,
}

impl Model for FaultlessSource {
    ghost use Rattle.std.specs.Prelude.{ℕ, List, drop, length, ◌≤◌};

    ghost Value = { List ℕ };

    ghost view = { λ s. drop s.at s.bytes };

    ghost invariant = { λ s. s.at ≤ length s.bytes };
}

impl FaultlessSource {
    pub fn new(bytes: Bytes) -> Self
        ensures { result ≡ bytes }
    {
        FaultlessSource { bytes, at: 0 }
    }
}

impl Source for FaultlessSource {
    ghost left = { λ s. Some s };

    ghost faults = { λ _. 0 };

    fn read(&mut self, buf: &mut [u8]) -> Result<usize, Failed>
        ensures bound { ReadsAtMost result buf.new }
        ensures bytes { ReadConsumes (Some self.old) (Some self.new) result buf.new }
        ensures cause { HasCause 0 0 result }

        ensures most { result ≡ Ok (min (length self.old) (length buf.old)) }
        ensures rest { IfOk result (λ n. drop n buf.new ≡ drop n buf.old) }
    {
        let (_, left) = self.bytes.as_slice().split_at(self.at);
        let count = fill(buf, left);
        self.at += count;
        Ok(count)
    }
}

// Copies as many bytes as both have to the start of the buffer, and answers how many.
fn fill(buf: &mut [u8], bytes: &[u8]) -> usize
    ensures count { result ≡ min (length bytes.now) (length buf.old) }
    ensures copied { take result buf.new ≡ take result bytes.now }
    ensures rest { drop result buf.new ≡ drop result buf.old }
{
    let count = bytes.len().min(buf.len());
    let (prefix, _) = buf.split_at_mut(count);
    let (bytes, _) = bytes.split_at(count);
    prefix.copy_from_slice(bytes);
    count
}

/// Bytes in memory as a source of which some calls may fail.
#[derive(Debug, Drop)]
pub struct MemSource {
    source: FaultlessSource,
    tally: CallTally,
}

impl Model for MemSource {
    ghost use Rattle.amt_ports.specs.MemSource.{UnreadBytes};

    ghost Value = { UnreadBytes };

    ghost view = { λ s. record { left = s.source; tally = s.tally } };
}

impl MemSource {
    /// No call of it fails.
    pub fn new(alloc: Global, bytes: Bytes) -> Self
        ensures left { result.left ≡ bytes }
        ensures tally { result.tally ≡ fresh_tally [] }
    {
        MemSource::failing(bytes, Vec::new(alloc))
    }

    /// The calls of these numbers fail, counted from 1. Each call counts, those at the end too.
    pub fn failing(bytes: Bytes, calls: Vec<u64>) -> Self
        ensures left { result.left ≡ bytes }
        ensures tally { result.tally ≡ fresh_tally calls.items }
    {
        MemSource {
            source: FaultlessSource::new(bytes),
            tally: CallTally::new(calls),
        }
    }

    pub fn faults(&self) -> u64
        ensures { result ≡ self.now.tally.faults }
    {
        self.tally.faults()
    }
}

impl Source for MemSource {
    ghost left = { λ s. Some s.left };

    ghost faults = { λ s. s.tally.faults };

    fn read(&mut self, buf: &mut [u8]) -> Result<usize, Failed>
        ensures bound { ReadsAtMost result buf.new }
        ensures bytes { ReadConsumes (Some self.old.left) (Some self.new.left) result buf.new }
        ensures cause { HasCause self.old.tally.faults self.new.tally.faults result }

        ensures most { IfOk result (λ n. n ≡ min (length self.old.left) (length buf.old)) }
        ensures rest { IfOk result (λ n. drop n buf.new ≡ drop n buf.old) }
        ensures untouched { OnErr result (buf.new ≡ buf.old) }
        ensures listed { IsErr result
            ↔ Contains self.old.tally.failing (next_count self.old.tally.made) }
        ensures ok { OnOk result (self.new.tally ≡ with_call self.old.tally) }
        ensures err { OnErr result (self.new.tally ≡ with_fault (with_call self.old.tally)) }
    {
        self.tally.call()?;
        self.source.read(buf)
    }
}
