//! Files in memory, for tests and callers.
ghost use Rattle.std.specs.Prelude.{◌≡◌, ◌≤◌, ◌↔◌, ◌⊎◌, ℕ, [], List, Some, None, Contains, find, length, option_copied, IfOk, IfErr, IsErrOf};
ghost use Rattle.amt_ports.specs.{Causes.{Rose, next_count}, Contents.{IsContent, IsLonger}, MemFiles.{SaysLength, content_named, has_name}, Tally.{fresh_tally, with_call, with_fault}};

use crate::tally::CallTally;
use crate::{FileFault, Files};
use amt_values::{Bytes, INPUT_LIMIT};
use std::alloc::Global;
use std::marker::Model;

/// A file in memory.
#[derive(Debug, Drop)]
pub struct MemFile {
    pub name: String,
    pub bytes: Bytes,
}

/// Files in memory, of which some calls may fail. Of two files with one name the first is read.
///
/// A name that no file has is a failed call, and counts as one. Memory that is refused is no fault of the
/// files.
#[derive(Debug, Drop)]
pub struct MemFiles {
    files: Vec<MemFile>,
    tally: CallTally,
}

impl Model for MemFiles {
    ghost use Rattle.amt_ports.specs.MemFiles.{FileCalls};

    ghost Value = { FileCalls };

    ghost view = { λ f. record { files = f.files.items; tally = f.tally } };
}

impl MemFiles {
    /// No call of it fails where it has a file of the name.
    pub fn new(alloc: Global, files: Vec<MemFile>) -> Self
        ensures files { result.files ≡ files.items }
        ensures tally { result.tally ≡ fresh_tally [] }
    {
        MemFiles::failing(files, Vec::new(alloc))
    }

    /// The calls of these numbers fail, counted from 1.
    pub fn failing(files: Vec<MemFile>, calls: Vec<u64>) -> Self
        ensures files { result.files ≡ files.items }
        ensures tally { result.tally ≡ fresh_tally calls.items }
    {
        MemFiles {
            files,
            tally: CallTally::new(calls),
        }
    }

    /// How many calls failed.
    pub fn faults(&self) -> u64
        ensures { result ≡ self.now.tally.faults }
    {
        self.tally.faults()
    }
}

impl Files for MemFiles {
    ghost use Rattle.amt_ports.specs.MemFiles.{content_named};

    ghost contents = { λ f name. content_named f.files name };

    ghost lacks = { λ f name. content_named f.files name ≡ None };

    ghost faults = { λ f. f.tally.faults };

    fn read_file(&mut self, alloc: Global, name: &str) -> Result<Bytes, FileFault>
        ensures whole { IfOk result (IsContent (content_named self.old.files name.now)) }
        ensures short { IfOk result (λ bytes. length bytes ≤ INPUT_LIMIT) }
        ensures long { IfErr result (IsLonger (content_named self.old.files name.now)) }
        ensures same { (other : List ℕ)
            → content_named self.new.files other ≡ content_named self.old.files other }
        ensures absent { content_named self.old.files name.now ≡ None
            → IsErrOf result FileFault.Failed }

        ensures later { self.old.tally.faults ≤ self.new.tally.faults }
        ensures failed { IsErrOf result FileFault.Failed
            → Rose self.old.tally.faults self.new.tally.faults }
        ensures quiet { ¬ IsErrOf result FileFault.Failed
            → self.new.tally.faults ≡ self.old.tally.faults }

        ensures files { self.new.files ≡ self.old.files }
        ensures exact { IfErr result (SaysLength (content_named self.old.files name.now)) }
        ensures listed { Contains self.old.tally.failing (next_count self.old.tally.made)
            → IsErrOf result FileFault.Failed }
        ensures only { IsErrOf result FileFault.Failed
            → Contains self.old.tally.failing (next_count self.old.tally.made)
            ⊎ (content_named self.old.files name.now ≡ None) }
        ensures err { IsErrOf result FileFault.Failed
            → self.new.tally ≡ with_fault (with_call self.old.tally) }
        ensures ok { ¬ IsErrOf result FileFault.Failed
            → self.new.tally ≡ with_call self.old.tally }
    {
        if self.tally.call().is_err() {
            return Err(FileFault::Failed);
        }
        let read = copied_from(self.files.as_slice(), alloc, name);
        if matches!(&read, Err(FileFault::Failed)) {
            let _ = self.tally.fail();
        }
        read
    }
}

// A copy of the first file with this name.
fn copied_from(files: &[MemFile], alloc: Global, name: &str) -> Result<Bytes, FileFault>
    ensures whole { IfOk result (IsContent (content_named files.now name.now)) }
    ensures short { IfOk result (λ bytes. length bytes ≤ INPUT_LIMIT) }
    ensures long { IfErr result (IsLonger (content_named files.now name.now)) }
    ensures exact { IfErr result (SaysLength (content_named files.now name.now)) }
    ensures absent { IsErrOf result FileFault.Failed ↔ (content_named files.now name.now ≡ None) }
{
    match file_named(files, name) {
        Some(file) => copied_whole(file.bytes.as_slice(), alloc),
        None => Err(FileFault::Failed),
    }
}

fn file_named<'a>(files: &'a [MemFile], name: &str) -> Option<&'a MemFile>
    ensures { option_copied result ≡ find (has_name name.now) files.now }
{
    files.iter().find(|file| has_name(file, name))
}

fn has_name(file: &MemFile, name: &str) -> bool
    ensures { result ≡ has_name name.now file.now }
{
    name == file.name.as_str()
}

// A copy of the octets of a file, where they are no more than an input may have.
fn copied_whole(octets: &[u8], alloc: Global) -> Result<Bytes, FileFault>
    ensures whole { IfOk result (λ bytes. bytes ≡ octets.now) }
    ensures short { IfOk result (λ bytes. length bytes ≤ INPUT_LIMIT) }
    ensures long { IfErr result (IsLonger (Some octets.now)) }
    ensures exact { IfErr result (SaysLength (Some octets.now)) }
    ensures here { ¬ IsErrOf result FileFault.Failed }
{
    if octets.len() > INPUT_LIMIT {
        return Err(FileFault::TooLong(octets.len() as u64));
    }
    match Bytes::copied(alloc, octets) {
        Ok(bytes) => Ok(bytes),
        Err(_) => Err(FileFault::Memory),
    }
}
