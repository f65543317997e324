//! What sends a packet to the tunnel endpoints that want it.
//!
//! Contract: a replicator sends one Multicast Data message to each endpoint that wants the packet, by a
//! prefix of the published log that begins with the log of the packet's note. A worker takes jobs from its
//! queue and handles them in order, each once, until Stop. A dispatcher gives each packet to one of its
//! slots, by source and group, and at its end each slot has handled exactly its packets, in order: in a
//! worker's thread, or on the calling one.
//! It knows no membership report, and no device but where it sends to.
//! Standard: RFC 7450, sections 5.1.6 and 5.3.3.
#![tactic(auto)]

mod batch;
mod counts;
mod dispatcher;
mod job;
mod queue;
mod replicator;
mod slot;
mod worker;

pub use batch::Batch;
pub use dispatcher::{Dispatcher, Finished, Outs, Replicators, StartFault};
pub use job::{Copied, Job};
pub use replicator::{NewFault, Replicator, read_length};
pub use worker::{Worker, WorkerDone, start_worker};
