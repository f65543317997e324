//! Which jobs a slot was given. No job is kept: they are for contracts alone.
ghost use Rattle.std.specs.Prelude.{◌≡◌, ◌∷◌, [], ◌++◌};
ghost use Rattle.replication_workers.specs.JobsSoFar.{jobs_listed};

use crate::job::Job;
use std::snapshot::Snapshot;

/// The jobs so far, oldest first: all that is kept is whether there is one.
#[derive(Drop)]
pub enum JobsSoFar {
    Nothing,
    Then(Snapshot<JobsSoFar>, Snapshot<Job>),
}

impl JobsSoFar {
    /// The same with one job more.
    pub fn then(&self, job: &Job) -> JobsSoFar
        ensures { jobs_listed result ≡ jobs_listed self.now ++ job.now ∷ [] }
    {
        JobsSoFar::Then(Snapshot::of(self), Snapshot::of(job))
    }
}
