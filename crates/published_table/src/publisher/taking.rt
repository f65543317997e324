//! What a publisher takes, and what is read of it.
ghost use Rattle.std.specs.Prelude.{◌≡◌, ◌<◌, ◌+◌, ◌^◌, [], ◌∷◌, ◌++◌, length, OnOk, OnErr};
ghost use Rattle.published_table.specs.{Publishers.{IsSamePublisher, ShowsAlike, book_of, owing, published, reading_terms, spare}, Terms.{Fits}, Views.{named, note_publisher}};

use super::Publisher;
use crate::view::Note;
use endpoint_membership::Change;
use std::alloc::AllocError;
use std::snapshot::Snapshot;

impl Publisher {
    /// Makes room for an entry, where there is none.
    pub fn ready(&mut self) -> Result<(), AllocError>
        ensures same { IsSamePublisher self.old self.new }
        ensures logs { ShowsAlike self.old self.new }
        ensures room { OnOk result (0 < spare self.new) }
        ensures sure { OnErr result (spare self.old ≡ 0) }
    {
        self.taken.reserve(1)
    }

    /// Takes an entry, which is owed until it is published. The entry fits: the memberships by the log with
    /// it are within the limits.
    pub fn take(&mut self, change: Change)
        requires room { 0 < spare self.old }
        requires few { length (published self.old ++ owing self.old) < 2 ^ 62 }
        requires fits { Fits (reading_terms self.old) ((published self.old ++ owing self.old) ++ change ∷ []) }
        ensures same { IsSamePublisher self.old self.new }
        ensures published { published self.new ≡ published self.old }
        ensures owing { owing self.new ≡ owing self.old ++ change ∷ [] }
    {
        self.whole = self.whole.then(&change);
        self.taken.push_back_reserved(change);
        self.owed += 1;
    }

    /// How many entries are owed.
    pub fn owed(&self) -> u64
        ensures { result ≡ length (owing self.now) }
    {
        self.owed
    }

    /// How many entries are published.
    pub fn published(&self) -> u64
        ensures { result ≡ length (published self.now) }
    {
        self.writer.published().count
    }

    /// Names the published log, for any of its views.
    pub fn tell(&self) -> Note
        ensures publisher { note_publisher result ≡ book_of self.now }
        ensures named { named result ≡ published self.now }
    {
        let copy = self.writer.published();
        Note {
            count: copy.count,
            log: Snapshot::of(&copy.past),
            bookmark: self.history.bookmark.again(),
        }
    }
}
