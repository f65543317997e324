//! Links out in memory that may wait for each other, and what starts workers over them.

use amt_ports::{Failed, GivenBy, MemOut, OutLink, Starts, Tried};
use amt_values::Peer;
use replication_workers::{Outs, Worker, WorkerDone, start_worker};
use std::alloc::{AllocError, Global};
use std::sync::atomic::{AtomicBool, Ordering};
use std::sync::{Arc, Wait};
use std::thread::{PromisedHandle, Threads};

// Which of the links out send, or have sent.
#[derive(Drop)]
struct Signals {
    first: AtomicBool,
    second: AtomicBool,
}

type Shared = Arc<Signals, Global>;

/// A link out that keeps what it sends. Before its first send it looks so often whether the other one sends too.
#[derive(Drop)]
pub struct WaitingOut {
    kept: MemOut,
    signals: Shared,
    is_first: bool,
    looks: u64,
    met: bool,
}

fn meets(mine: &AtomicBool, other: &AtomicBool, looks: u64) -> bool {
    mine.store(true, Ordering::SeqCst);
    for _ in 0..looks {
        if other.load(Ordering::SeqCst) {
            return true;
        }
    }
    false
}

impl WaitingOut {
    fn meets(&self) -> bool {
        let signals = &self.signals;
        if self.is_first {
            meets(&signals.first, &signals.second, self.looks)
        } else {
            meets(&signals.second, &signals.first, self.looks)
        }
    }

    /// Whether the other one was found to send.
    pub fn met(&self) -> bool {
        self.met
    }

    /// What it has tried to send, in order.
    pub fn tried(&self) -> &[Tried] {
        self.kept.tried()
    }
}

impl OutLink for WaitingOut {
    ghost tried = { λ out. out.kept.tried };

    ghost faults = { λ out. out.kept.tally.faults };

    fn send(&mut self, to: &Peer, bytes: &[u8]) -> Result<(), Failed> {
        if self.looks > 0 {
            self.met = self.meets();
            self.looks = 0;
        }
        self.kept.send(to, bytes)
    }
}

fn out_of(
    alloc: Global,
    signals: &Shared,
    is_first: bool,
    looks: u64,
) -> Result<WaitingOut, AllocError> {
    Ok(WaitingOut {
        kept: MemOut::new(alloc),
        signals: Arc::try_clone(signals)?,
        is_first,
        looks,
        met: false,
    })
}

fn signals_of(alloc: Global) -> Result<Shared, AllocError> {
    let signals = Arc::new(
        alloc,
        Signals {
            first: AtomicBool::new(false),
            second: AtomicBool::new(false),
        },
    )?;
    Ok(signals)
}

/// So many links out, which look so often before their first send. The first one and one of the others can meet.
pub fn outs_of(alloc: Global, count: u32, looks: u64) -> Result<Outs<WaitingOut>, AllocError> {
    let signals = signals_of(alloc)?;
    let mut outs = Vec::new(alloc);
    for number in 0..count {
        outs.push(out_of(alloc, &signals, number == 0, looks)?)?;
    }
    Ok(Outs::from(outs))
}

/// Starts each worker in a thread of its own.
#[derive(Drop)]
pub struct Starter<'a, R> {
    pub rt: &'a R,
}

impl<'a, R: Threads + Wait + 'static> Starts<Worker<WaitingOut>> for Starter<'a, R> {
    fn start_thread(
        &self,
        work: Worker<WaitingOut>,
    ) -> Result<PromisedHandle<WorkerDone<WaitingOut>, GivenBy<Worker<WaitingOut>>>, Failed> {
        start_worker(self.rt, work)
    }
}
