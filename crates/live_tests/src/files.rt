//! Files, in memory and of the machine. It knows public calls alone.

use amt_ports::{FileFault, Files, HostFiles, MemFile, MemFiles};
use amt_values::{Bytes, INPUT_LIMIT};
use std::alloc::{AllocError, Global};
use std::{fs, io, process};

// A name that is read, the octets of the file `script`, the calls that fail, how many octets are read or
// why none is, and the count of faults.
const READINGS: [(&str, usize, &[u64], Result<usize, FileFault>, u64); 6] = [
    ("script", 3, &[], Ok(3), 0),
    ("script", 3, &[2], Ok(3), 0),
    ("script", 3, &[1], Err(FileFault::Failed), 1),
    ("scripts", 3, &[], Err(FileFault::Failed), 1),
    ("script", INPUT_LIMIT, &[], Ok(INPUT_LIMIT), 0),
    (
        "script",
        INPUT_LIMIT + 1,
        &[],
        Err(FileFault::TooLong(16_777_217)),
        0,
    ),
];

fn file(alloc: Global, name: &str, count: usize) -> Result<MemFile, AllocError> {
    Ok(MemFile {
        name: String::from_str(alloc, name)?,
        bytes: Bytes::from(vec![in alloc; 7u8; count]?),
    })
}

// The second file of one name is never read.
fn files(alloc: Global, count: usize) -> Result<Vec<MemFile>, AllocError> {
    let mut files = Vec::new(alloc);
    files.push(file(alloc, "script", count)?)?;
    files.push(file(alloc, "script", 4)?)?;
    Ok(files)
}

fn length_read<F: Files>(alloc: Global, files: &mut F, name: &str) -> Result<usize, FileFault> {
    match files.read_file(alloc, name) {
        Ok(bytes) => Ok(bytes.len()),
        Err(fault) => Err(fault),
    }
}

fn reads(
    alloc: Global,
    name: &str,
    count: usize,
    failing: &[u64],
    want: Result<usize, FileFault>,
    faults: u64,
) -> Result<bool, AllocError> {
    let mut files = MemFiles::failing(files(alloc, count)?, Vec::from_slice(alloc, failing)?);
    Ok(length_read(alloc, &mut files, name) == want && files.faults() == faults)
}

#[test]
fn files_in_memory_are_read_up_to_the_limit(rt: HostRuntime) {
    for (name, count, failing, want, faults) in READINGS.as_slice() {
        let shown = reads(rt.alloc(), name, *count, failing, *want, *faults);
        assert!(rt; shown == Ok(true), "{name} of {count} octets");
    }
}

// Files of the machine, and what is read of them.
const FILES: [(&str, Result<usize, FileFault>, u64); 4] = [
    ("/dev/null", Ok(0), 0),
    ("/no/such/file", Err(FileFault::Failed), 1),
    // It can be opened, and not read.
    ("/", Err(FileFault::Failed), 1),
    ("/dev/zero", Err(FileFault::TooLong(16_777_217)), 0),
];

#[test]
fn a_file_that_cant_be_read_is_a_fault_and_one_that_is_too_long_is_none(rt: HostRuntime) {
    for (name, want, faults) in FILES.as_slice() {
        let mut files = HostFiles::new(rt);
        assert_eq!(rt; length_read(rt.alloc(), &mut files, name), *want, "{name}");
        assert_eq!(rt; files.faults(), *faults, "{name}");
    }
}

fn holds(rt: &HostRuntime, files: &mut HostFiles<HostRuntime>, name: &str, octets: &[u8]) -> bool {
    match files.read_file(rt.alloc(), name) {
        Ok(bytes) => bytes.as_slice() == octets,
        Err(_) => false,
    }
}

fn is_read_twice(rt: &HostRuntime, name: &str, octets: &[u8]) -> io::Result<bool> {
    fs::write(rt, name, octets)?;
    let mut files = HostFiles::new(*rt);
    let twice = holds(rt, &mut files, name, octets) && holds(rt, &mut files, name, octets);
    fs::remove_file(rt, name)?;
    Ok(twice && files.faults() == 0)
}

#[test]
fn a_file_is_read_whole_each_time(rt: HostRuntime) -> Result<(), AllocError> {
    // Tests of two copies of the repository may run at once.
    let name = format!(in rt.alloc(); "/tmp/amt-files-{}", process::id(rt.process()))?;
    let read = is_read_twice(&rt, name.as_str(), b"relay 192.0.2.1\n");
    assert!(rt; matches!(read, Ok(true)));
    Ok(())
}
