//! The history of a published log: each log that was to be published, in order, before it is shown. It
//! exists for contracts alone, but for one word, its length.
//!
//! Why it is needed: a note leaves the publisher's thread as a value, and may come to any view, whenever
//! it likes. That the logs of two notes are prefixes of one log is a fact of no single holder, so it is
//! the rule of a book that all of them have seen a part of.
ghost use Rattle.std.specs.Prelude.{◌≡◌, ◌≤◌, [], ◌∷◌, ◌++◌, List, length, map, MatchResult};
ghost use mathlib.Core.List.{IsPrefix};
ghost use Rattle.logbook.specs.Pages.{Cell};
ghost use Rattle.published_table.specs.{History.{IsKept, IsUnder, AreUnder, head_of}, Lists.{BeginsWithEach}, Logs.{entries}, Told.{logs_told}};

use crate::past::Past;
use crate::told::Told;
use logbook::{Gain, Offer, Plain, Play, Rule, Seen, Start, Word};
use std::alloc::AllocError;

/// The rule of the book: some log begins with each log of the history.
pub struct OneLog;

impl Rule<Past, u64> for OneLog {
    ghost use Rattle.std.specs.Prelude.{[]};
    ghost use base.Fml.{ftrue};
    ghost use Rattle.published_table.specs.History.{IsKept};

    ghost holds = { λ cells log. IsKept cells log };

    ghost first = { [] };

    ghost hinted = { λ n log. Unit {0} };

    ghost shows = { λ log. [] };

    ghost keeps = { λ names log. ftrue };

    ghost moves = { λ ask before after answer. Unit {0} };
}

/// Nobody trades anything for a step.
pub struct Nothing;

impl Gain<Past, u64> for Nothing {
    ghost use base.Fml.{ftrue};

    ghost after = { λ names about answer. ftrue };
}

/// The step that adds a log.
pub struct Add;

impl Play<Past, u64> for Add {
    ghost use Rattle.published_table.specs.History.{Adds};

    ghost then = { Adds };
}

impl Plain<Past, Past, u64> for Add {
    ghost use Rattle.std.specs.Prelude.{None};

    ghost ask = { λ log. log };

    ghost state = { λ log. None };
}

/// How far a history was seen to have come. It has no bytes.
#[derive(Drop)]
pub struct Bookmark {
    pub seen: Seen<Past, u64, OneLog>,
}

impl Bookmark {
    pub fn again(&self) -> Bookmark
        ensures { result ≡ self.now }
    {
        Bookmark {
            seen: self.seen.again(),
        }
    }

    /// Knows from now on what both knew.
    pub fn learn(&mut self, other: &Bookmark)
        requires { other.now.seen.book ≡ self.old.seen.book }
        ensures book { self.new.seen.book ≡ self.old.seen.book }
        ensures reached { IsPrefix self.old.seen.log self.new.seen.log
            × IsPrefix other.now.seen.log self.new.seen.log }
        ensures kept { (cells : List Cell) × IsKept cells self.new.seen.log }
    {
        self.seen.learn(&other.seen);
    }
}

/// The one that adds to a history, with all of it.
#[derive(Drop)]
pub struct History {
    head: Word<Past, u64, OneLog>,
    count: u64,
    pub bookmark: Bookmark,
    ghost head_is: { head ≡ head_of bookmark.seen.book },
    ghost counted: { count ≡ length bookmark.seen.log },
}

impl History {
    /// A new book, in which nothing was published.
    pub fn new() -> History
        ensures { result.bookmark.seen.log ≡ [] }
    {
        let (seen, mut first, _second) = Seen::open(Start::alone(), 0, 0);
        History {
            head: Word::tracked(0, &mut first),
            count: 0,
            bookmark: Bookmark { seen },
        }
    }

    /// Adds the log, which begins with each one before it. It answers `Err` after 2^62 logs.
    pub fn record(&mut self, log: &Past) -> Result<(), AllocError>
        requires { BeginsWithEach (entries log.now) (map entries self.old.bookmark.seen.log) }
        ensures book { self.new.bookmark.seen.book ≡ self.old.bookmark.seen.book }
        ensures log { MatchResult result
            (λ _. self.new.bookmark.seen.log ≡ self.old.bookmark.seen.log ++ log.now ∷ [])
            (λ _. self.new.bookmark.seen.log ≡ self.old.bookmark.seen.log) }
    {
        let count = self.count;
        if count >= 1 << 62 {
            return Err(AllocError);
        }
        let mut seen = self.bookmark.seen.again();
        let mut offer: Offer<Past, u64, OneLog, Nothing> = seen.plain::<Nothing, Past, Add>(log);
        let mut pen = seen.no_pen();
        let found = self
            .head
            .compare_exchange::<Add, Nothing>(count, count + 1, &mut seen, &mut offer, &mut pen);
        // No one else has the word, but no clause says so.
        if found != count {
            return Err(AllocError);
        }
        self.bookmark = Bookmark { seen };
        self.count = count + 1;
        Ok(())
    }
}

/// Shows, and does nothing, that a log as long as the longest that was told begins with each of them:
/// all of them are of one history.
pub fn compare(bookmark: &Bookmark, told: &Told, least: u64, other: &Bookmark, log: &Past)
    requires same { other.now.seen.book ≡ bookmark.now.seen.book }
    requires told { AreUnder bookmark.now.seen.log least (logs_told told.now) }
    requires under { IsUnder other.now.seen.log (entries log.now) }
    requires longer { least ≤ length (entries log.now) }
    ensures { BeginsWithEach (entries log.now) (logs_told told.now) }
{
    let mut both = bookmark.again();
    both.learn(other);
}
