//! Links out whose sends are counted.
ghost use Rattle.std.specs.Prelude.{◌≡◌, IfOk, IsSome, None, OnOk};
ghost use Rattle.amt_ports.specs.{Causes.{HasCause}, Sends.{tried_send}, Told.{Appends}};

use amt_ports::{Failed, OutLink};
use amt_values::Peer;
use relay_serving::{Copies, CopyCount};
use std::alloc::{AllocError, Global};
use std::marker::Model;
use std::sync::Arc;
use std::sync::atomic::{AtomicU64, Ordering};

// What one link out sent, and didn't. It is read while a worker adds to it, so nothing is known of a number here
// but that it was there: that the numbers are those of the sends is tested, not proved.
#[derive(Drop)]
struct Counter {
    sent: AtomicU64,
    unsent: AtomicU64,
}

impl Counter {
    fn new() -> Self {
        Counter {
            sent: AtomicU64::new(0),
            unsent: AtomicU64::new(0),
        }
    }

    fn count(&self, was_sent: bool) {
        let number = if was_sent { &self.sent } else { &self.unsent };
        number.fetch_add(1, Ordering::SeqCst);
    }
}

/// A link out that does what the one within does. Where its sends are counted, a number of those that were sent
/// rises by one, or a number of the others.
///
/// Contracts see the link within. No clause says what the numbers are, since other threads read and add to them.
#[derive(Drop)]
pub struct CountedOut<O> {
    out: O,
    counter: Option<Arc<Counter>>,
}

impl<O> Model for CountedOut<O> {
    ghost Value = { O };

    ghost view = { λ counted. counted.out };
}

impl<O> CountedOut<O> {
    /// The sends of the link aren't counted.
    pub fn uncounted(out: O) -> Self
        ensures { result ≡ out }
    {
        CountedOut { out, counter: None }
    }
}

impl<O: OutLink> OutLink for CountedOut<O> {
    ghost tried = { O.tried };

    ghost faults = { O.faults };

    fn send(&mut self, to: &Peer, bytes: &[u8]) -> Result<(), Failed>
        ensures tried { Appends (O.tried self.old) (O.tried self.new)
            (tried_send to.now bytes.now result) }
        ensures tells { OnOk result (IsSome (O.tried self.old) → IsSome (O.tried self.new)) }
        ensures cause { HasCause (O.faults self.old) (O.faults self.new) result }
    {
        let sent = self.out.send(to, bytes);
        if let Some(counter) = &self.counter {
            counter.count(sent.is_ok());
        }
        sent
    }
}

/// The sums of what links out count: how many copies they sent, and how many they didn't.
///
/// The numbers of a link stay in the sums where the link is gone. A sum at 2^64 - 1 stays there. No clause says what a
/// sum is: that it is that of the sends is tested, not proved.
#[derive(Drop)]
pub struct SharedCopies {
    alloc: Global,
    counters: Vec<Arc<Counter>>,
}

impl SharedCopies {
    /// The sums of no link.
    pub fn new(alloc: Global) -> Self {
        SharedCopies {
            alloc,
            counters: Vec::new(alloc),
        }
    }

    /// The link, whose sends count in the sums from here on. Out of memory it is lost.
    pub fn counted<O: Drop>(&mut self, out: O) -> Result<CountedOut<O>, AllocError>
        ensures { IfOk result (λ counted. counted ≡ out) }
    {
        let counter = Arc::new(self.alloc, Counter::new())?;
        self.counters.push(Arc::try_clone(&counter)?)?;
        Ok(CountedOut {
            out,
            counter: Some(counter),
        })
    }
}

impl Copies for SharedCopies {
    ghost given = { λ _. None };

    fn copies(&mut self) -> CopyCount {
        let mut sums = CopyCount { sent: 0, unsent: 0 };
        for counter in self.counters.as_slice() {
            let sent = counter.sent.load(Ordering::SeqCst);
            let unsent = counter.unsent.load(Ordering::SeqCst);
            sums.sent = sums.sent.saturating_add(sent);
            sums.unsent = sums.unsent.saturating_add(unsent);
        }
        sums
    }
}
