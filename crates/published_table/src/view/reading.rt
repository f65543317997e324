//! How a view reads the table.
ghost use Rattle.std.specs.Prelude.{◌≡◌, ◌≤◌, Some, length, OnSome, MatchOption};
ghost use Rattle.endpoint_membership.specs.{Limits.{live_count}, Targets.{targets_of}};
ghost use Rattle.published_table.specs.{History.{AreUnder, IsUnder}, Lists.{BeginsWithEach}, Logs.{entries}, Told.{logs_told}, Views.{Fills, HasRead, IsHandedBack, IsSameView, seen, terms_of, told}};

use super::{Reader, View};
use crate::history::{Bookmark, compare};
use crate::rule::Sees;
use crate::table_copy::TableCopy;
use crate::told::Told;
use amt_values::{Ip, Moment};
use core::mem::{replace_with, swap};
use endpoint_membership::Targets;
use std::snapshot::Snapshot;

/// Who gets a copy of a packet from the source to the group at the moment.
#[derive(Drop)]
pub struct Wanted {
    pub group: Ip,
    pub source: Ip,
    pub at: Moment,
}

// Fills the targets, where they are wanted.
fn fill(copy: &TableCopy, wanted: &Option<Wanted>, targets: &mut Targets)
    requires room { OnSome wanted.now (live_count copy.now.table.rows ≤ targets.old.room) }
    ensures { Fills wanted.now copy.now.terms (entries copy.now.past) targets.old targets.new }
{
    match wanted {
        Some(wanted) => {
            let Wanted { group, source, at } = wanted;
            copy.table.admitting_into(group, source, at, targets);
        }
        None => {}
    }
}

// Fills the targets by the copy, and answers how many entries its log has, which begins with each log
// that the reader was told of.
fn answer(
    copy: &TableCopy,
    bookmark: &Bookmark,
    told: &Told,
    least: u64,
    wanted: &Option<Wanted>,
    targets: &mut Targets,
) -> u64
    requires same { copy.now.bookmark.seen.book ≡ bookmark.now.seen.book }
    requires told { AreUnder bookmark.now.seen.log least (logs_told told.now) }
    requires under { IsUnder copy.now.bookmark.seen.log (entries copy.now.past) }
    requires longer { least ≤ length (entries copy.now.past) }
    requires room { OnSome wanted.now (live_count copy.now.table.rows ≤ targets.old.room) }
    ensures number { result ≡ copy.now.count }
    ensures told { BeginsWithEach (entries copy.now.past) (logs_told told.now) }
    ensures targets { Fills wanted.now copy.now.terms (entries copy.now.past) targets.old targets.new }
{
    compare(bookmark, told, least, &copy.bookmark, &copy.past);
    fill(copy, wanted, targets);
    copy.count
}

// Reads once.
fn look(view: View, wanted: Option<Wanted>) -> (View, Option<u64>)
    requires room { OnSome wanted ((terms_of view).limits.endpoints ≤ view.targets.room) }
    ensures view { IsSameView view result.0 }
    ensures number { MatchOption result.1 (IsHandedBack view result.0) (HasRead view result.0) }
    ensures targets { MatchOption result.1 (result.0.targets ≡ view.targets)
        (λ _. Fills wanted (terms_of view) (seen result.0) view.targets result.0.targets) }
{
    let View {
        reader,
        mut targets,
    } = view;
    let Reader {
        door,
        terms,
        log,
        told,
        least,
        bookmark,
    } = reader;
    let (door, log, number) = match door.enter::<Sees>(least) {
        Ok(inside) => {
            let copy = inside.get();
            let number = answer(copy, &bookmark, &told, least, &wanted, &mut targets);
            let log = Snapshot::of(&copy.past);
            (inside.leave(), log, Some(number))
        }
        Err(door) => (door, log, None),
    };
    let reader = Reader {
        door,
        terms,
        log,
        told,
        least,
        bookmark,
    };
    (View { reader, targets }, number)
}

impl View {
    /// Tries one reading: how many entries the log has that the view then has seen.
    pub fn length(&mut self) -> Option<u64>
        ensures view { IsSameView self.old self.new }
        ensures number { MatchOption result (IsHandedBack self.old self.new) (HasRead self.old self.new) }
    {
        replace_with(self, None, look)
    }

    /// Tries one reading: who gets a copy of a packet from the source to the group, at the later of this
    /// moment and the log's (RFC 7450, section 5.3.3), by a log of the number of entries that is answered.
    pub fn admitting_into(
        &mut self,
        group: &Ip,
        source: &Ip,
        at: &Moment,
        out: &mut Targets,
    ) -> Option<u64>
        requires room { (terms_of self.old).limits.endpoints ≤ out.old.room }
        ensures view { IsSameView self.old self.new }
        ensures number { MatchOption result (IsHandedBack self.old self.new) (HasRead self.old self.new) }
        ensures targets { MatchOption result (out.new ≡ out.old)
            (λ _. (out.new.room ≡ out.old.room) × (out.new.endpoints
            ≡ targets_of (terms_of self.old).lifetime_ms (seen self.new) group.now source.now at.now)) }
    {
        let wanted = Wanted {
            group: *group,
            source: *source,
            at: *at,
        };
        swap(&mut self.targets, out);
        let number = replace_with(self, Some(wanted), look);
        swap(&mut self.targets, out);
        number
    }
}
