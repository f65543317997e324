//! The publisher: the one that changes the published table.
ghost use Rattle.std.{specs.Prelude.{◌≡◌, ◌<◌, ◌^◌, [], ◌∷◌, ◌++◌, length, map, drop, fold}, proofs.Props.{props}};
ghost use Rattle.left_right.specs.Sides.{view};
ghost use Rattle.published_table.specs.{Copies.{log_of, origin_of, state_of}, Entries.{IsVouched, changes, with_entry}, History.{IsUnder}, Lists.{BeginsWithEach}, Logs.{entries}, Terms.{FitsThroughout}};

use crate::entry::Entry;
use crate::history::History;
use crate::past::Past;
use crate::rule::{Known, Prefixes};
use crate::table_copy::TableCopy;
use crate::terms::Terms;
use endpoint_membership::Change;
use left_right::writer::Writer;
use std::collections::VecDeque;

mod making;
mod publishing;
mod taking;

/// What the publisher changes the copies by.
pub(crate) type TableWriter = Writer<TableCopy, Entry, Known, Prefixes>;

/// Takes the entries of a log, and shows them to its views when it is told to. It isn't `Drop`: end it by
/// `end`.
pub struct Publisher {
    writer: TableWriter,
    terms: Terms,
    // What was taken and isn't handed to the writer yet: its log has no call that makes room.
    taken: VecDeque<Change>,
    owed: u64,
    // The published log, and then what is owed.
    whole: Past,
    history: History,
    ghost marked: { map origin_of (view writer.desk.place).copies ≡ (history.bookmark.seen.book, terms) ∷ [] },
    ghost origin: { origin_of writer.desk.shown.value ≡ (history.bookmark.seen.book, terms) },
    ghost all: { entries whole
        ≡ log_of writer.desk.shown.value ++ (changes (drop writer.behind writer.log.items) ++ taken.items) },
    ghost vouched: { IsVouched history.bookmark.seen.book
        (fold with_entry (state_of writer.desk.shown.value) (drop writer.behind writer.log.items)) },
    ghost under: { IsUnder history.bookmark.seen.log (log_of writer.desk.shown.value) },
    ghost above: { BeginsWithEach (entries whole) (map entries history.bookmark.seen.log) },
    ghost counted: { owed ≡ length (changes (drop writer.behind writer.log.items) ++ taken.items) },
    ghost short: { length (entries whole) < 2 ^ 63 },
    ghost fits: { FitsThroughout terms (entries whole) } by { Prim.hlevel props },
}
