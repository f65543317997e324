//! How a publisher shows what it owes.
ghost use Rattle.std.specs.Prelude.{◌≡◌, [], ◌++◌, drop, fold, map, IfOk, MatchResult};
ghost use mathlib.Core.List.{IsPrefix};
ghost use Rattle.published_table.specs.{Copies.{log_of, state_of}, Entries.{IsVouched, changes, with_entry}, History.{IsUnder}, Lists.{BeginsWithEach}, Logs.{entries}, Publishers.{HasPublished, IsSamePublisher, ShowsAlike}};

use super::{Publisher, TableWriter};
use crate::entry::Entry;
use crate::history::{Bookmark, History};
use crate::past::Past;
use crate::rule::Sees;
use core::mem::replace_with;
use endpoint_membership::Change;
use std::alloc::AllocError;
use std::collections::VecDeque;
use std::sync::Wait;

// Hands the writer what was taken, in order. The bookmark has seen the whole log, so each entry goes with
// what shows that the log up to it is of the history.
fn hand_over(
    writer: &mut TableWriter,
    taken: &mut VecDeque<Change>,
    bookmark: &Bookmark,
    whole: &Past,
) -> Result<(), AllocError>
    requires all { entries whole.now ≡ log_of writer.old.desk.shown.value
        ++ (changes (drop writer.old.behind writer.old.log.items) ++ taken.old.items) }
    requires under { IsUnder bookmark.now.seen.log (entries whole.now) }
    requires vouched { IsVouched bookmark.now.seen.book
        (fold with_entry (state_of writer.old.desk.shown.value) (drop writer.old.behind writer.old.log.items)) }
    ensures desk { writer.new.desk ≡ writer.old.desk }
    ensures owed { changes (drop writer.new.behind writer.new.log.items) ++ taken.new.items
        ≡ changes (drop writer.old.behind writer.old.log.items) ++ taken.old.items }
    ensures vouched { IsVouched bookmark.now.seen.book
        (fold with_entry (state_of writer.new.desk.shown.value) (drop writer.new.behind writer.new.log.items)) }
    ensures none { IfOk result (λ _. taken.new.items ≡ []) }
{
    while let Some(change) = taken.pop_front() {
        let entry = Entry {
            change,
            bookmark: bookmark.again(),
        };
        if let Err(entry) = writer.append(entry) {
            let Entry {
                change,
                bookmark: _bookmark,
            } = entry;
            taken.push_front_reserved(change);
            return Err(AllocError);
        }
    }
    Ok(())
}

fn still_owed(done: &Result<(), AllocError>, owed: u64) -> u64
    ensures { MatchResult done.now (λ _. result ≡ 0) (λ _. result ≡ owed) }
{
    match done {
        Ok(()) => 0,
        Err(_) => owed,
    }
}

// Hands the writer all that was taken, after the whole log went into the history: what shows it has to
// know that it is there.
fn hand_all_over(
    writer: &mut TableWriter,
    taken: &mut VecDeque<Change>,
    history: &mut History,
    whole: &Past,
) -> Result<(), AllocError>
    requires all { entries whole.now ≡ log_of writer.old.desk.shown.value
        ++ (changes (drop writer.old.behind writer.old.log.items) ++ taken.old.items) }
    requires above { BeginsWithEach (entries whole.now) (map entries history.old.bookmark.seen.log) }
    requires vouched { IsVouched history.old.bookmark.seen.book
        (fold with_entry (state_of writer.old.desk.shown.value) (drop writer.old.behind writer.old.log.items)) }
    ensures desk { writer.new.desk ≡ writer.old.desk }
    ensures owed { changes (drop writer.new.behind writer.new.log.items) ++ taken.new.items
        ≡ changes (drop writer.old.behind writer.old.log.items) ++ taken.old.items }
    ensures vouched { IsVouched history.new.bookmark.seen.book
        (fold with_entry (state_of writer.new.desk.shown.value) (drop writer.new.behind writer.new.log.items)) }
    ensures book { history.new.bookmark.seen.book ≡ history.old.bookmark.seen.book }
    ensures kept { IsPrefix history.old.bookmark.seen.log history.new.bookmark.seen.log }
    ensures above { BeginsWithEach (entries whole.now) (map entries history.new.bookmark.seen.log) }
    ensures under { IfOk result (λ _. IsUnder history.new.bookmark.seen.log (entries whole.now)) }
    ensures none { IfOk result (λ _. taken.new.items ≡ []) }
{
    history.record(whole)?;
    hand_over(writer, taken, &history.bookmark, whole)
}

// Shows the whole log. Where some of it couldn't be handed over, nothing is shown.
fn publish_by<R: Wait>(publisher: Publisher, rt: &R) -> (Publisher, Result<(), AllocError>)
    ensures same { IsSamePublisher publisher result.0 }
    ensures logs { MatchResult result.1 (λ _. HasPublished publisher result.0) (λ _. ShowsAlike publisher result.0) }
{
    let Publisher {
        mut writer,
        terms,
        mut taken,
        owed,
        whole,
        mut history,
    } = publisher;
    let (writer, done) = match hand_all_over(&mut writer, &mut taken, &mut history, &whole) {
        Ok(()) => writer.publish_as::<Sees, R>(rt),
        Err(error) => (writer, Err(error)),
    };
    let owed = still_owed(&done, owed);
    let next = Publisher {
        writer,
        terms,
        taken,
        owed,
        whole,
        history,
    };
    (next, done)
}

impl Publisher {
    /// Publishes all owed entries in one step. Out of memory they stay owed, in order, and go first next
    /// time. It may wait for readings to end.
    pub fn publish<R: Wait>(&mut self, rt: &R) -> Result<(), AllocError>
        ensures same { IsSamePublisher self.old self.new }
        ensures logs { MatchResult result (λ _. HasPublished self.old self.new) (λ _. ShowsAlike self.old self.new) }
    {
        replace_with(self, rt, publish_by::<R>)
    }

    /// Ends the publisher. Its views and notes keep the logs that they have; readings may be handed back
    /// from then on. It may wait for readings to end.
    pub fn end<R: Wait>(self, rt: &R) {
        let Publisher {
            writer,
            terms: _,
            taken: _taken,
            owed: _,
            whole: _whole,
            history: _history,
        } = self;
        writer.take(rt);
    }
}
