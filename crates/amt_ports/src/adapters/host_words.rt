//! The machine's random numbers.

ghost use Rattle.std.specs.Prelude.{◌≡◌, None};
ghost use Rattle.amt_ports.specs.RealDevices.{drawings_failed};

use crate::fault::count_fault;
use crate::{Failed, Words};
use std::random::RandomSource;

/// The machine's random source, of which a word takes 8 octets.
#[derive(Debug, Drop)]
pub struct HostWords<R> {
    source: R,
    faults: u64,
}

impl<R: RandomSource + Drop> HostWords<R> {
    pub fn new(source: R) -> Self
        ensures { drawings_failed result ≡ 0 }
    {
        HostWords { source, faults: 0 }
    }

    /// How often a word could not be drawn.
    pub fn faults(&self) -> u64
        ensures { result ≡ drawings_failed self.now }
    {
        self.faults
    }
}

impl<R: RandomSource + Drop> Words for HostWords<R> {
    ghost given = { λ _. None };

    ghost faults = { drawings_failed };

    fn word(&mut self) -> Result<u64, Failed> {
        let mut octets = [0; 8];
        match self.source.fill_bytes(&mut octets) {
            Ok(()) => Ok(u64::from_be_bytes(octets)),
            Err(_) => Err(count_fault(&mut self.faults)),
        }
    }
}
