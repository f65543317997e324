//! What a view was told of. None of that is kept either: it is for contracts alone.
ghost use Rattle.std.specs.Prelude.{◌≡◌, ◌∷◌};
ghost use Rattle.published_table.specs.{Logs.{entries}, Told.{logs_told}};

use crate::past::Past;
use std::snapshot::Snapshot;

/// The logs that were told, newest first.
#[derive(Drop)]
pub enum Told {
    Nothing,
    Also(Snapshot<Told>, Snapshot<Past>),
}

impl Told {
    pub fn also(&self, log: Snapshot<Past>) -> Told
        ensures { logs_told result ≡ entries log.value ∷ logs_told self.now }
    {
        Told::Also(Snapshot::of(self), log)
    }
}
