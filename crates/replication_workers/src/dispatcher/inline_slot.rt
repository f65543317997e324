//! A slot whose replicator the dispatcher keeps: it copies each job at once.
ghost use Rattle.std.specs.Prelude.{◌≡◌, length};
ghost use Rattle.published_table.specs.Views.{publisher_of, terms_of};
ghost use Rattle.replication_workers.specs.{Backs.{IsBack}, JobsSoFar.{jobs_listed}, Replicators.{limit_of, out_of, view_of}, Workers.{HasHandled}};

use crate::counts::Counts;
use crate::dispatcher::jobs_so_far::JobsSoFar;
use crate::replicator::Replicator;
use amt_ports::OutLink;
use std::snapshot::Snapshot;

mod copying;

/// A replicator, and what it did since it was given to the dispatcher.
#[derive(Drop)]
pub struct InlineSlot<O: OutLink> {
    replicator: Replicator<O>,
    // As it was given.
    first: Snapshot<Replicator<O>>,
    handled: JobsSoFar,
    counts: Counts,
    ghost counted: { counts.jobs ≡ length (jobs_listed handled) },
    ghost has_handled: { ∥ HasHandled first.value (jobs_listed handled) (out_of replicator) (view_of replicator) counts.sent counts.unsent ∥₁ },
    ghost idle: { counts.jobs ≡ 0 → IsBack first.value (out_of replicator) (view_of replicator) },
    ghost terms: { terms_of (view_of replicator) ≡ terms_of (view_of first.value) },
    ghost publisher: { publisher_of (view_of replicator) ≡ publisher_of (view_of first.value) },
    ghost limit: { limit_of replicator ≡ limit_of first.value },
}
