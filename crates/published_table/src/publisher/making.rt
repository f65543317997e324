//! How a publisher and its views are made.
ghost use Rattle.std.specs.Prelude.{◌≡◌, ◌≤◌, [], All, length, IfOk};
ghost use Rattle.published_table.specs.{Publishers.{IsSamePublisher, ShowsAlike, book_of, owing, published, reading_terms}, Terms.{AreLawfulTerms}, Views.{IsNew, views_of}};

use super::{Publisher, TableWriter};
use crate::door::Door;
use crate::history::History;
use crate::past::Past;
use crate::rule::{Greets, Sees};
use crate::table_copy::TableCopy;
use crate::terms::Terms;
use crate::told::Told;
use crate::view::{Reader, View, Views};
use endpoint_membership::Targets;
use left_right::writer::Writer;
use std::alloc::{AllocError, Global};
use std::collections::VecDeque;
use std::snapshot::Snapshot;
use std::sync::Wait;

impl Publisher {
    /// A publisher of no entry, and so many views of it.
    pub fn with_views<R: Wait>(
        rt: &R,
        alloc: Global,
        views: u32,
        terms: Terms,
    ) -> Result<(Publisher, Views), AllocError>
        requires views { (1 ≤ views) × (views ≤ 64) }
        requires terms { AreLawfulTerms terms }
        ensures publisher { IfOk result (λ made. (published made.0 ≡ []) × (owing made.0 ≡ []) × (reading_terms made.0 ≡ terms)) }
        ensures count { IfOk result (λ made. length (views_of made.1) ≡ views) }
        ensures views { IfOk result (λ made. All (IsNew (book_of made.0) terms) (views_of made.1)) }
    {
        let history = History::new();
        let first = TableCopy::new(alloc, terms, history.bookmark.again())?;
        let second = TableCopy::new(alloc, terms, history.bookmark.again())?;
        let writer: TableWriter = Writer::new(alloc, first, second, views as usize)?;
        // Nothing is shown by this, but that the publisher then knows where its copies come from.
        let (writer, opened) = writer.publish_as::<Sees, R>(rt);
        if opened.is_err() {
            writer.take(rt);
            return Err(AllocError);
        }
        let mut publisher = Publisher {
            writer,
            terms,
            taken: VecDeque::new(alloc),
            owed: 0,
            whole: Past::Empty,
            history,
        };
        match publisher.views(alloc, views) {
            Ok(views) => Ok((publisher, views)),
            Err(error) => {
                publisher.end(rt);
                Err(error)
            }
        }
    }

    fn views(&mut self, alloc: Global, count: u32) -> Result<Views, AllocError>
        ensures same { IsSamePublisher self.old self.new }
        ensures logs { ShowsAlike self.old self.new }
        ensures count { IfOk result (λ made. length (views_of made) ≡ count) }
        ensures new { IfOk result (λ made. All (IsNew (book_of self.old) (reading_terms self.old)) (views_of made)) }
    {
        let mut views = Views::with_room(alloc, count)?;
        for _ in 0..count {
            let view = self.view(alloc)?;
            match views.push(view) {
                Ok(()) => {}
                Err(_) => return Err(AllocError),
            }
        }
        Ok(views)
    }

    // A view that has seen nothing. It learns where the copies come from, so that it knows by what their
    // log is read.
    fn view(&mut self, alloc: Global) -> Result<View, AllocError>
        ensures same { IsSamePublisher self.old self.new }
        ensures logs { ShowsAlike self.old self.new }
        ensures new { IfOk result (IsNew (book_of self.old) (reading_terms self.old)) }
    {
        let targets = Targets::new(alloc, 0)?;
        let mut reader = self.writer.factory().reader()?;
        reader.learn::<Greets>(self.writer.tell::<Greets>());
        let reader = Reader {
            door: Door::new(reader),
            terms: self.terms,
            log: Snapshot::of(&Past::Empty),
            told: Told::Nothing,
            least: 0,
            bookmark: self.history.bookmark.again(),
        };
        Ok(View { reader, targets })
    }
}
