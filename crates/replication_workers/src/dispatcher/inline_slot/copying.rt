//! How a slot without a thread is made, used and ended.
ghost use Rattle.std.specs.Prelude.{◌≡◌, ◌<◌, ◌^◌, [], ◌∷◌, ◌++◌, length};
ghost use Rattle.published_table.specs.Views.{note_publisher, publisher_of};
ghost use Rattle.replication_workers.specs.{InlineSlots.{first_of, inline_state, jobs_done, replicator_now}, Replicators.{HasCopied, out_of, view_of}, SlotStates.{IsLeft}};

use super::InlineSlot;
use crate::counts::{Counts, handle};
use crate::dispatcher::jobs_so_far::JobsSoFar;
use crate::job::Job;
use crate::replicator::Replicator;
use crate::slot::Left;
use amt_ports::OutLink;
use std::snapshot::Snapshot;
use std::sync::Wait;

impl<O: OutLink> InlineSlot<O> {
    /// A slot of this replicator, without any job.
    pub fn new(replicator: Replicator<O>) -> InlineSlot<O>
        ensures first { first_of result ≡ replicator }
        ensures jobs { jobs_done result ≡ [] }
        ensures now { replicator_now result ≡ replicator }
    {
        let first = Snapshot::of(&replicator);
        InlineSlot {
            replicator,
            first,
            handled: JobsSoFar::Nothing,
            counts: Counts::none(),
        }
    }

    /// Copies the job's packet.
    pub fn copy<R: Wait>(&mut self, rt: &R, job: Job)
        requires few { length (jobs_done self.old) < 2 ^ 46 }
        requires publisher { note_publisher job.note ≡ publisher_of (view_of (first_of self.old)) }
        ensures first { first_of self.new ≡ first_of self.old }
        ensures jobs { jobs_done self.new ≡ jobs_done self.old ++ job ∷ [] }
        ensures copied { HasCopied (replicator_now self.old) job (replicator_now self.new) }
    {
        let handled = self.handled.then(&job);
        handle(rt, &mut self.replicator, &mut self.counts, job);
        self.handled = handled;
    }

    /// What the slot left.
    pub fn into_left(self) -> Left<O>
        ensures left { IsLeft (inline_state self) result }
        ensures out { result.out ≡ out_of (replicator_now self) }
        ensures view { result.view ≡ view_of (replicator_now self) }
    {
        let InlineSlot {
            replicator,
            first: _,
            handled: _handled,
            counts,
        } = self;
        let Counts { jobs, sent, unsent } = counts;
        let (view, out) = replicator.into_parts();
        Left {
            out,
            view,
            jobs,
            sent,
            unsent,
        }
    }
}
