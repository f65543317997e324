//! How a replicator handles one job more.
ghost use Rattle.std.specs.Prelude.{◌≡◌, ◌≤◌, ◌<◌, ◌+◌, ◌^◌, ◌∷◌};
ghost use Rattle.published_table.specs.{Lists.{BeginsWith, BeginsWithEach}, Views.{named, note_publisher, publisher_of, seen, terms_of, told}};
ghost use Rattle.replication_workers.specs.{Replicators.{HasCopied, Tries, copies_due, limit_of, view_of}, Workers.{KeepsHandled}};

use super::Counts;
use crate::job::{Copied, Job};
use crate::replicator::Replicator;
use amt_ports::OutLink;
use std::sync::Wait;

// Copies the job's packet, and says what became of its datagrams.
fn copy<O: OutLink, R: Wait>(rt: &R, replicator: &mut Replicator<O>, job: Job) -> Copied
    requires publisher { note_publisher job.note ≡ publisher_of (view_of replicator.old) }
    ensures view { (terms_of (view_of replicator.new) ≡ terms_of (view_of replicator.old))
        × (publisher_of (view_of replicator.new) ≡ publisher_of (view_of replicator.old))
        × (limit_of replicator.new ≡ limit_of replicator.old) }
    ensures further { BeginsWith (seen (view_of replicator.new)) (seen (view_of replicator.old)) }
    ensures told { BeginsWithEach (seen (view_of replicator.new))
        (named job.note ∷ told (view_of replicator.old)) }
    ensures sends { Tries replicator.old replicator.new
        (copies_due replicator.old (seen (view_of replicator.new)) job.at job.packet)
        result.sent result.unsent }
    ensures few { result.sent + result.unsent ≤ 65536 }
{
    replicator.replicate(rt, job)
}

/// Handles the job, and counts it.
pub fn handle<O: OutLink, R: Wait>(
    rt: &R,
    replicator: &mut Replicator<O>,
    counts: &mut Counts,
    job: Job,
)
    requires publisher { note_publisher job.note ≡ publisher_of (view_of replicator.old) }
    requires jobs { counts.old.jobs < 2 ^ 46 }
    ensures counted { counts.new.jobs ≡ counts.old.jobs + 1 }
    ensures copied { HasCopied replicator.old job replicator.new }
    ensures handled { KeepsHandled replicator.old counts.old job replicator.new counts.new }
{
    let copied = copy(rt, replicator, job);
    counts.add(&copied);
}
