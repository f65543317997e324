//! The machine's clock.

ghost use Rattle.std.specs.Prelude.{◌≡◌, ◌<◌, ◌≤◌, ◌+◌, None};
ghost use Rattle.amt_ports.specs.RealDevices.{readings_failed};

use crate::Clock;
use crate::fault::count_fault;
use amt_values::Moment;
use std::time;
use std::time::Instant;

/// The machine's monotonic clock, in milliseconds since its first reading, which is made with it. It doesn't go
/// back. Where it can't be read, the last moment is given again, and a fault is counted.
#[derive(Debug, Drop)]
pub struct HostClock<C> {
    clock: C,
    start: Option<Instant>,
    last: Moment,
    faults: u64,
}

impl<C: time::Clock + Drop> HostClock<C> {
    /// The clock is read once here.
    pub fn new(clock: C) -> Self
        ensures faults { readings_failed result ≤ 1 }
    {
        let mut made = HostClock {
            clock,
            start: None,
            last: Moment::new(0).unwrap(),
            faults: 0,
        };
        made.now();
        made
    }

    /// How often the clock could not be read.
    pub fn faults(&self) -> u64
        ensures { result ≡ readings_failed self.now }
    {
        self.faults
    }

    fn read(&mut self) -> Option<Moment>
        ensures last { self.new.last ≡ self.old.last }
        ensures faults { self.new.faults ≡ self.old.faults }
    {
        let reading = Instant::now(&self.clock).ok()?;
        let start = *self.start.get_or_insert(reading);
        let passed = reading.duration_since(start).as_millis();
        Moment::new(u64::try_from(passed).ok()?)
    }
}

impl<C: time::Clock + Drop> Clock for HostClock<C> {
    ghost given = { λ _. None };

    ghost faults = { readings_failed };

    fn now(&mut self) -> Moment
        ensures faults { readings_failed self.old ≤ readings_failed self.new }

        ensures last { self.new.last ≡ result }
        ensures forward { self.old.last ≤ result }
        ensures once { readings_failed self.new ≤ readings_failed self.old + 1 }
        ensures unread { readings_failed self.old < readings_failed self.new → result ≡ self.old.last }
    {
        match self.read() {
            Some(moment) => self.last = self.last.later(&moment),
            None => {
                count_fault(&mut self.faults);
            }
        }
        self.last
    }
}
