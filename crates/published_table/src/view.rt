//! What reads the published table: views, and the notes by which a view is told of a log. It must not
//! know who publishes.
ghost use Rattle.std.specs.Prelude.{◌≡◌, [], ◌∷◌, length, map};
ghost use Rattle.left_right.specs.Sides.{view};
ghost use Rattle.published_table.specs.{Copies.{origin_of}, History.{AreUnder, IsUnder}, Lists.{BeginsWith}, Logs.{entries}, Told.{logs_told}};

use crate::door::Door;
use crate::history::Bookmark;
use crate::past::Past;
use crate::rule::{Known, Prefixes};
use crate::table_copy::TableCopy;
use crate::terms::Terms;
use crate::told::Told;
use endpoint_membership::Targets;
use std::snapshot::Snapshot;

mod learning;
mod reading;
mod views;

pub use views::Views;

/// Names the log that was published when it was made. It goes from the publisher to any of its views, by
/// way of whatever queue; a view that learns it answers by no shorter log from then on.
#[derive(Drop)]
pub struct Note {
    pub(crate) count: u64,
    pub(crate) log: Snapshot<Past>,
    pub(crate) bookmark: Bookmark,
    ghost counted: { count ≡ length (entries log.value) },
    ghost reached: { IsUnder bookmark.seen.log (entries log.value) },
}

/// The reader of a view, with what the view has seen and was told.
#[derive(Drop)]
pub(crate) struct Reader {
    pub(crate) door: Door<TableCopy, Known, Prefixes>,
    pub(crate) terms: Terms,
    pub(crate) log: Snapshot<Past>,
    pub(crate) told: Told,
    // So many entries has the longest log that it was told of.
    pub(crate) least: u64,
    pub(crate) bookmark: Bookmark,
    ghost same: { map origin_of (view door.reader.place).copies ≡ (bookmark.seen.book, terms) ∷ [] },
    ghost behind: { BeginsWith (view door.reader.place).seen (entries log.value) },
    ghost reached: { AreUnder bookmark.seen.log least (logs_told told) },
}

/// Reads the published table. It waits for nobody and takes no memory, whatever the publisher does.
#[derive(Drop)]
pub struct View {
    pub(crate) reader: Reader,
    // The caller's targets, while a reading fills them; empty else.
    pub(crate) targets: Targets,
}
