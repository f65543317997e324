//! The file system.

ghost use Rattle.std.specs.Prelude.{◌≡◌, None};
ghost use Rattle.amt_ports.specs.RealDevices.{files_failed};

use crate::fault::count_fault;
use crate::{FileFault, Files, ReadAllFault, ReaderSource, read_all};
use amt_values::{Bytes, INPUT_LIMIT};
use std::alloc::Global;
use std::fs;
use std::fs::File;

// What a file that is too long has at least.
const TOO_LONG: u64 = INPUT_LIMIT as u64 + 1;

/// The machine's files. A directory is a file that can't be read.
#[derive(Debug, Drop)]
pub struct HostFiles<F> {
    files: F,
    faults: u64,
}

impl<F: fs::Files + Drop> HostFiles<F> {
    pub fn new(files: F) -> Self
        ensures { files_failed result ≡ 0 }
    {
        HostFiles { files, faults: 0 }
    }

    /// How often a file could not be opened or read.
    pub fn faults(&self) -> u64
        ensures { result ≡ files_failed self.now }
    {
        self.faults
    }
}

impl<F: fs::Files + Drop> Files for HostFiles<F> {
    ghost contents = { λ _ _. None };

    // A file that can't be opened may be there.
    ghost lacks = { λ _ _. ⊥ };

    ghost faults = { files_failed };

    fn read_file(&mut self, alloc: Global, name: &str) -> Result<Bytes, FileFault> {
        let Ok(file) = File::open(&self.files, name) else {
            count_fault(&mut self.faults);
            return Err(FileFault::Failed);
        };
        match read_all(alloc, &mut ReaderSource::new(file)) {
            Ok(bytes) => Ok(bytes),
            Err(ReadAllFault::ReadFault) => {
                count_fault(&mut self.faults);
                Err(FileFault::Failed)
            }
            Err(ReadAllFault::TooLong) => Err(FileFault::TooLong(TOO_LONG)),
            Err(ReadAllFault::Memory) => Err(FileFault::Memory),
        }
    }
}
