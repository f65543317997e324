//! Logs of which no entry is kept: contracts see what they have.
ghost use Rattle.std.specs.Prelude.{◌≡◌, [], ◌∷◌, ◌++◌};
ghost use Rattle.published_table.specs.Logs.{entries};

use endpoint_membership::Change;
use std::snapshot::Snapshot;

/// The entries of a log so far, oldest first. They are for contracts alone: all that is kept is whether
/// there is one.
#[derive(Drop)]
pub enum Past {
    Empty,
    Then(Snapshot<Past>, Snapshot<Change>),
}

impl Past {
    /// The same with one entry more.
    pub fn then(&self, change: &Change) -> Past
        ensures { entries result ≡ entries self.now ++ change.now ∷ [] }
    {
        Past::Then(Snapshot::of(self), Snapshot::of(change))
    }
}
