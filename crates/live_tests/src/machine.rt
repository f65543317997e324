//! The machine's clock and random words, and those of a machine that fails. It knows public calls alone.

use amt_ports::*;
use std::cell::Cell;
use std::io::ErrorKind;
use std::random::RandomSource;
use std::time::Duration;
use std::{io, time};

#[test]
fn the_machines_clock_starts_at_0_and_doesnt_go_back(rt: HostRuntime) {
    let mut clock = HostClock::new(rt);
    let first = clock.now();
    let second = clock.now();
    assert!(rt; first <= second);
    assert!(rt; second.ms() < 60_000, "{second:?}");
    assert_eq!(rt; clock.faults(), 0);
}

// A clock whose readings are listed, in milliseconds. After the last one it can't be read.
#[derive(Drop)]
struct ListedClock {
    readings: &'static [Option<u64>],
    read: Cell<usize>,
}

impl time::Clock for ListedClock {
    fn monotonic(&self) -> io::Result<Duration> {
        let place = self.read.get();
        self.read.set(place.saturating_add(1));
        match self.readings.get(place) {
            Some(Some(ms)) => Ok(Duration::from_millis(*ms)),
            _ => Err(io::Error::from(ErrorKind::Other)),
        }
    }

    fn since_1970(&self) -> io::Result<Duration> {
        Err(io::Error::from(ErrorKind::Other))
    }
}

// The readings, the first of them made with the clock, and the moments and faults that follow.
const TIMES: [(&str, &[Option<u64>], [(u64, u64); 3]); 3] = [
    (
        "moments count from the making",
        &[Some(1_000), Some(1_000), Some(1_007), Some(61_000)],
        [(0, 0), (7, 0), (60_000, 0)],
    ),
    (
        "a clock that can't be read gives its last moment, and one that goes back too",
        &[Some(1_000), Some(1_020), None, Some(1_010)],
        [(20, 0), (20, 1), (20, 1)],
    ),
    (
        "a clock that was never read gives 0",
        &[None, None, Some(5_000), Some(5_003)],
        [(0, 2), (0, 2), (3, 2)],
    ),
];

fn clock_of(readings: &'static [Option<u64>]) -> HostClock<ListedClock> {
    HostClock::new(ListedClock {
        readings,
        read: Cell::new(0),
    })
}

fn reading(clock: &mut HostClock<ListedClock>) -> (u64, u64) {
    let moment = clock.now();
    (moment.ms(), clock.faults())
}

fn gives(readings: &'static [Option<u64>], want: &[(u64, u64); 3]) -> bool {
    let mut clock = clock_of(readings);
    reading(&mut clock) == want[0]
        && reading(&mut clock) == want[1]
        && reading(&mut clock) == want[2]
}

#[test]
fn a_clock_counts_from_its_making_and_each_reading_that_fails(rt: HostRuntime) {
    for (name, readings, want) in TIMES.as_slice() {
        assert!(rt; gives(readings, want), "{name}");
    }
}

#[test]
fn two_words_of_the_machine_differ(rt: HostRuntime) {
    let mut words = HostWords::new(rt);
    let first = words.word();
    let second = words.word();
    assert!(rt; first.is_ok() && second.is_ok());
    // Alike once in 2^64 runs.
    assert!(rt; first != second);
    assert_eq!(rt; words.faults(), 0);
}

// A random source that gives 1, 2, 3 and so on, or fails.
#[derive(Drop)]
struct CountingOctets {
    fails: bool,
}

impl RandomSource for CountingOctets {
    fn fill_bytes(&self, buf: &mut [u8]) -> io::Result<()> {
        if self.fails {
            return Err(io::Error::from(ErrorKind::Other));
        }
        let mut last = 0u8;
        for octet in buf.iter_mut() {
            last = last.wrapping_add(1);
            *octet = last;
        }
        Ok(())
    }
}

#[test]
fn a_word_is_eight_octets_or_a_fault(rt: HostRuntime) {
    let mut words = HostWords::new(CountingOctets { fails: false });
    assert_eq!(rt; words.word(), Ok(0x0102_0304_0506_0708));
    assert_eq!(rt; words.faults(), 0);
    let mut none = HostWords::new(CountingOctets { fails: true });
    assert_eq!(rt; none.word(), Err(Failed));
    assert_eq!(rt; none.faults(), 1);
}
