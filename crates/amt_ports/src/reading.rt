//! Reading an input to its end.

ghost use Rattle.std.specs.{Prelude.{◌≡◌, ◌≢◌, ◌+◌, ◌≤◌, ◌<◌, ◌^◌, ◌++◌, length, replicate, vec_len, OnOk, OnErr, IfOk, IfErr, IsErrOf}, Io.KnownBytes.{Keeps}};
ghost use Rattle.amt_ports.specs.{Causes.{Rose}, Reading.{TakesAll, TakesAtMost, TakesMore, TakesNext}};

use crate::Source;
use amt_values::{Bytes, INPUT_LIMIT};
use std::alloc::Global;

/// How many bytes one read asks for: as many as a pipe holds.
pub const READ_SIZE: usize = 65_536;

/// Why an input was not read to its end.
#[derive(Clone, Copy, Debug, PartialEq, Eq)]
pub enum ReadAllFault {
    /// The source failed.
    ReadFault,
    /// The input has more bytes than the limit.
    TooLong,
    /// Memory was refused.
    Memory,
}

// More room, with zeros in it.
fn add_room(all: &mut Vec<u8>, size: usize) -> Result<(), ReadAllFault>
    requires { vec_len all.old + size < 2 ^ 62 }
    ensures room { OnOk result (all.new.items ≡ all.old.items ++ replicate size 0) }
    ensures len { OnOk result (vec_len all.new ≡ vec_len all.old + size) }
    ensures fault { IfErr result (λ fault. fault ≡ ReadAllFault.Memory) }
{
    match all.resize(all.len() + size, 0) {
        Ok(()) => Ok(()),
        Err(_) => Err(ReadAllFault::Memory),
    }
}

// Reads the next bytes into the room after those that were read before.
fn read_more<S: Source>(source: &mut S, all: &mut Vec<u8>) -> Result<usize, ReadAllFault>
    requires { vec_len all.old ≤ INPUT_LIMIT }
    ensures next { IfOk result (TakesNext READ_SIZE (S.left source.old) (S.left source.new)
        all.old.items all.new.items) }
    ensures kept { OnErr result (Keeps (S.left source.old) (S.left source.new)) }
    ensures later { S.faults source.old ≤ S.faults source.new }
    ensures fault { IfErr result (λ fault. fault ≢ ReadAllFault.TooLong) }
    ensures read_fault { IsErrOf result ReadAllFault.ReadFault
        → Rose (S.faults source.old) (S.faults source.new) }
    ensures quiet { ¬ IsErrOf result ReadAllFault.ReadFault
        → S.faults source.new ≡ S.faults source.old }
{
    let start = all.len();
    match add_room(all, READ_SIZE) {
        Ok(()) => {}
        Err(fault) => return Err(fault),
    }
    let Ok(count) = source.read(all.slice_mut(start..)) else {
        return Err(ReadAllFault::ReadFault);
    };
    all.truncate(start + count);
    Ok(count)
}

/// Reads to the end of input. What was taken before a refusal is lost: the source gives it no more.
pub fn read_all<S: Source>(alloc: Global, source: &mut S) -> Result<Bytes, ReadAllFault>
    ensures all { IfOk result (λ bytes. TakesAll (S.left source.old) (S.left source.new) bytes) }
    ensures short { IfOk result (λ bytes. length bytes ≤ INPUT_LIMIT) }

    // Exactly where the answer is `TooLong`, more bytes than the limit were taken.
    ensures too_long { IsErrOf result ReadAllFault.TooLong
        → TakesMore INPUT_LIMIT (S.left source.old) (S.left source.new) }
    ensures within { ¬ IsErrOf result ReadAllFault.TooLong
        → TakesAtMost INPUT_LIMIT (S.left source.old) (S.left source.new) }
    ensures stops { TakesAtMost (INPUT_LIMIT + READ_SIZE) (S.left source.old) (S.left source.new) }

    ensures later { S.faults source.old ≤ S.faults source.new }
    ensures read_fault { IsErrOf result ReadAllFault.ReadFault
        → Rose (S.faults source.old) (S.faults source.new) }
    ensures quiet { ¬ IsErrOf result ReadAllFault.ReadFault
        → S.faults source.new ≡ S.faults source.old }
{
    let mut all = Vec::new(alloc);
    loop {
        let count = match read_more(source, &mut all) {
            Ok(count) => count,
            Err(fault) => return Err(fault),
        };
        if count == 0 {
            return Ok(Bytes::from(all));
        }
        if all.len() > INPUT_LIMIT {
            return Err(ReadAllFault::TooLong);
        }
    }
}
