//! A relay's part in the tests: it accepts reports and lets time pass, and publishes that. It must not
//! know who reads the log.
ghost use Rattle.std.{specs.Prelude.{◌≡◌, ◌≤◌, ◌<◌, ◌+◌, ◌^◌, All, length}, proofs.{Props.{props}, lemmas.Map.Keys.{IsStrictlySortedBy-prop}}};
ghost use Rattle.published_table.specs.{Publishers.{IsSamePublisher, book_of, owing, published}, Views.{IsNew, note_publisher, views_of}};
ghost use Rattle.replication_tests.specs.Following.{Follows, whole_log};

use crate::fixtures::{TERMS, moment, show, take_mark, take_report_on};
use amt_values::{Endpoint, Ip, Moment};
use endpoint_membership::Table;
use published_table::{Note, Publisher, View, Views};
use std::alloc::Global;
use std::process::Abort;
use std::sync::Wait;

// No test takes as many entries.
const MOST: u64 = 1_000_000;

/// A publisher, and the table that accepts all that it takes. It isn't `Drop`: end it by `end`.
pub struct Relay {
    alloc: Global,
    publisher: Publisher,
    table: Table,
    ghost follows: { Follows table publisher } by { Prim.hlevel (props, IsStrictlySortedBy-prop) },
}

// Between its two steps the table doesn't follow the publisher, so these take both and not the relay.
fn expect_report(
    rt: &impl Abort,
    group: Ip,
    alloc: Global,
    publisher: &mut Publisher,
    table: &mut Table,
    endpoint: Endpoint,
    at: Moment,
)
    requires follows { Follows table.old publisher.old }
    requires few { length (whole_log publisher.old) + 1 < 2 ^ 62 }
    ensures follows { Follows table.new publisher.new }
    ensures same { IsSamePublisher publisher.old publisher.new }
{
    let Ok(()) = take_report_on(group, alloc, publisher, table, endpoint, at) else {
        panic!(rt; "out of memory");
    };
}

fn expect_mark(rt: &impl Abort, publisher: &mut Publisher, table: &mut Table, at: Moment)
    requires follows { Follows table.old publisher.old }
    requires few { length (whole_log publisher.old) + 1 < 2 ^ 62 }
    ensures follows { Follows table.new publisher.new }
    ensures same { IsSamePublisher publisher.old publisher.new }
{
    let Ok(()) = take_mark(publisher, table, at) else {
        panic!(rt; "out of memory");
    };
}

impl Relay {
    /// A relay that has accepted nothing, and so many views of what it publishes.
    pub fn with_views<R: Wait + Abort>(rt: &R, alloc: Global, count: u32) -> (Relay, Views)
        requires { (1 ≤ count) × (count ≤ 64) }
        ensures { All (IsNew (book_of result.0.publisher) TERMS) (views_of result.1) }
    {
        let Ok(table) = Table::new(alloc, TERMS.limits, TERMS.lifetime_ms) else {
            panic!(rt; "out of memory");
        };
        let Ok((publisher, views)) = Publisher::with_views(rt, alloc, count, TERMS) else {
            panic!(rt; "out of memory");
        };
        let relay = Relay {
            alloc,
            publisher,
            table,
        };
        (relay, views)
    }

    /// A relay that has accepted nothing, and the one view of what it publishes.
    pub fn with_view<R: Wait + Abort>(rt: &R, alloc: Global) -> (Relay, View)
        ensures { IsNew (book_of result.0.publisher) TERMS result.1 }
    {
        let (relay, mut views) = Relay::with_views(rt, alloc, 1);
        let view = views.pop().expect(rt, "there is one view");
        (relay, view)
    }

    fn assert_few(&self, rt: &impl Abort)
        ensures published { length (published self.now.publisher) ≤ MOST }
        ensures owing { length (owing self.now.publisher) ≤ MOST }
    {
        assert!(rt; self.publisher.published() <= MOST);
        assert!(rt; self.publisher.owed() <= MOST);
    }

    /// The endpoint wants all sources of the group.
    pub fn report(&mut self, rt: &impl Abort, endpoint: Endpoint, group: Ip, ms: u64)
        ensures { book_of self.new.publisher ≡ book_of self.old.publisher }
    {
        self.assert_few(rt);
        let at = moment(rt, ms);
        expect_report(
            rt,
            group,
            self.alloc,
            &mut self.publisher,
            &mut self.table,
            endpoint,
            at,
        );
    }

    /// Time passes.
    pub fn mark(&mut self, rt: &impl Abort, ms: u64)
        ensures { book_of self.new.publisher ≡ book_of self.old.publisher }
    {
        self.assert_few(rt);
        let at = moment(rt, ms);
        expect_mark(rt, &mut self.publisher, &mut self.table, at);
    }

    /// Publishes all that is owed.
    pub fn publish<R: Wait + Abort>(&mut self, rt: &R)
        ensures { book_of self.new.publisher ≡ book_of self.old.publisher }
    {
        let Ok(()) = show(rt, &mut self.publisher) else {
            panic!(rt; "out of memory");
        };
    }

    pub fn owed(&self) -> u64 {
        self.publisher.owed()
    }

    pub fn tell(&self) -> Note
        ensures { note_publisher result ≡ book_of self.now.publisher }
    {
        self.publisher.tell()
    }

    pub fn end<R: Wait>(self, rt: &R) {
        let Relay {
            alloc: _,
            publisher,
            table: _table,
        } = self;
        publisher.end(rt);
    }
}
