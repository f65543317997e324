//! One slot of a dispatcher: with a thread, or without.

use crate::dispatcher::inline_slot::InlineSlot;
use crate::slot::Slot;
use amt_ports::OutLink;

mod using;

pub use using::{finish_kept, give_at};

/// A slot, by who copies its jobs.
pub enum Kept<O: OutLink, T> {
    /// A started worker.
    Threaded(Slot<O, T>),
    /// The dispatcher, on the calling thread.
    Inline(InlineSlot<O>),
}
