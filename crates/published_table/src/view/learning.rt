//! How a view is told of a log.
ghost use Rattle.std.specs.Prelude.{◌≡◌, ◌∷◌};
ghost use Rattle.published_table.specs.{Logs.{entries}, Told.{logs_told}, Views.{handed, named, note_publisher, publisher_of, seen, terms_of, told}};

use super::{Note, Reader, View};

impl Reader {
    fn learn(&mut self, note: Note)
        requires { note.bookmark.seen.book ≡ self.old.bookmark.seen.book }
        ensures door { self.new.door ≡ self.old.door }
        ensures terms { self.new.terms ≡ self.old.terms }
        ensures log { self.new.log ≡ self.old.log }
        ensures told { logs_told self.new.told ≡ entries note.log.value ∷ logs_told self.old.told }
        ensures book { self.new.bookmark.seen.book ≡ self.old.bookmark.seen.book }
    {
        let Note {
            count,
            log,
            bookmark,
        } = note;
        self.bookmark.learn(&bookmark);
        self.least = self.least.max(count);
        self.told = self.told.also(log);
    }
}

impl View {
    /// Learns the note's log, which its publisher told. What the view has seen stays.
    pub fn learn(&mut self, note: Note)
        requires { note_publisher note ≡ publisher_of self.old }
        ensures seen { seen self.new ≡ seen self.old }
        ensures told { told self.new ≡ named note ∷ told self.old }

        ensures publisher { publisher_of self.new ≡ publisher_of self.old }
        ensures terms { terms_of self.new ≡ terms_of self.old }
        ensures handed { handed self.new ≡ handed self.old }
    {
        self.reader.learn(note);
    }

    /// How many of its readings were handed back.
    pub fn handed(&self) -> u64
        ensures { result ≡ handed self.now }
    {
        self.reader.door.handed()
    }
}
