//! What a running relay counts.
ghost use Rattle.std.specs.Prelude.{◌≡◌, ◌+◌, ◌<◌, ◌^◌};
ghost use Rattle.relay_serving.specs.Counting.{no_counts, with_late, with_outcome, with_packet, with_starved};

use relay_machine::{Event, Outcome};

/// Counts since the run began.
#[derive(Clone, Copy, Debug, PartialEq, Eq)]
pub struct Counts {
    /// Datagrams from the link, and packets from the feed.
    pub datagrams: u64,
    pub packets: u64,
    /// Updates, and Teardowns of live endpoints, that were accepted.
    pub updated: u64,
    pub torn: u64,
    /// Answers that the link sent, and that it didn't take.
    pub sent: u64,
    pub unsent: u64,
    /// Events, and publishings, that memory refused.
    pub starved: u64,
    pub late: u64,
}

impl Counts {
    /// Nothing is counted.
    pub(crate) fn new() -> Counts
        ensures { result ≡ no_counts }
    {
        Counts {
            datagrams: 0,
            packets: 0,
            updated: 0,
            torn: 0,
            sent: 0,
            unsent: 0,
            starved: 0,
            late: 0,
        }
    }

    /// Counts a packet that came from the feed.
    pub(crate) fn count_packet(&mut self)
        requires { self.old.packets < 2 ^ 62 }
        ensures { self.new ≡ with_packet self.old }
    {
        self.packets += 1;
    }

    /// Counts events, or answers to lines, that memory refused.
    pub(crate) fn count_starved(&mut self, number: u64)
        requires { self.old.starved + number < 2 ^ 62 }
        ensures { self.new ≡ with_starved self.old number }
    {
        self.starved += number;
    }

    /// Counts a publishing that memory refused.
    pub(crate) fn count_late(&mut self)
        requires { self.old.late < 2 ^ 62 }
        ensures { self.new ≡ with_late self.old }
    {
        self.late += 1;
    }

    /// Counts an event by what it came to.
    pub(crate) fn count(&mut self, event: &Event, outcome: &Outcome)
        requires events { (self.old.datagrams < 2 ^ 62) × (self.old.packets < 2 ^ 62) }
        requires outcomes { (self.old.updated < 2 ^ 62) × (self.old.torn < 2 ^ 62) }
        ensures { self.new ≡ with_outcome self.old event.now outcome.now }
    {
        match event {
            Event::Datagram { .. } => self.datagrams += 1,
            Event::Packet { .. } => self.packets += 1,
            Event::Moment(_) | Event::Rotate(_) | Event::Limits(_) => {}
        }
        match outcome {
            Outcome::Updated => self.updated += 1,
            Outcome::TornDown => self.torn += 1,
            _ => {}
        }
    }
}
