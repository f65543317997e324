//! How a running relay is ended.
ghost use Rattle.std.specs.Prelude.{◌≡◌, ◌≤◌, ◌<◌, ◌+◌, ◌^◌, [], ◌∷◌, ◌++◌, All, cond, count_by, length, reverse};
ghost use Rattle.published_table.specs.{Lists.{BeginsWith}, Publishers.{book_of, published}, Views.{publisher_of, room_of, seen, views_of}};
ghost use Rattle.replication_workers.specs.Dispatchers.{AllRun};
ghost use Rattle.relay_serving.specs.{Ending.{AreAsked, Finishes}, Servers.{slots_in}, Views.{is_apart}};

use super::Server;
use crate::counts::Counts;
use amt_ports::{OutLink, Spawner};
use published_table::{Publisher, View, Views};
use replication_workers::{Finished, Outs, Worker, read_length};
use std::sync::Wait;

/// What a relay left.
#[derive(Drop)]
pub(crate) struct Ending<O> {
    pub(crate) outs: Outs<O>,
    pub(crate) views: Views,
    pub(crate) counts: Counts,
    /// What the outs sent, and what they didn't take.
    pub(crate) outs_sent: u64,
    pub(crate) outs_unsent: u64,
    pub(crate) inline: u64,
    pub(crate) owed: u64,
    pub(crate) published: u64,
    pub(crate) apart: u64,
}

// Puts the views after the others, the last one first.
fn turn_round(from: &mut Views, to: &mut Views)
    requires none { views_of to.old ≡ [] }
    requires room { length (views_of from.old) ≤ room_of to.old }
    ensures { views_of to.new ≡ reverse (views_of from.old) }
{
    while let Some(view) = from.pop() {
        let _ = to.push(view);
    }
}

// Puts the view after the others.
fn put(views: &mut Views, view: View)
    requires room { length (views_of views.old) < room_of views.old }
    ensures put { views_of views.new ≡ views_of views.old ++ view ∷ [] }
    ensures room { room_of views.old ≤ room_of views.new }
{
    let _ = views.push(view);
}

// Tells the view what is published, and asks it until it answers: 1 where its log isn't the published one.
fn ask<R: Wait>(rt: &R, publisher: &Publisher, view: &mut View) -> u64
    requires { publisher_of view.old ≡ book_of publisher.now }
    ensures further { BeginsWith (seen view.new) (seen view.old) }
    ensures reached { BeginsWith (seen view.new) (published publisher.now) }
    ensures apart { result ≡ cond (is_apart (length (published publisher.now)) view.new) 1 0 }
{
    view.learn(publisher.tell());
    if read_length(rt, view) == publisher.published() {
        0
    } else {
        1
    }
}

// Asks each view, the last one first. Those whose log isn't the published one are counted.
fn ask_each<R: Wait>(rt: &R, publisher: &Publisher, from: &mut Views, to: &mut Views) -> u64
    requires none { views_of to.old ≡ [] }
    requires room { length (views_of from.old) ≤ room_of to.old }
    requires publisher { All (λ view. publisher_of view ≡ book_of publisher.now) (views_of from.old) }
    ensures asked { AreAsked (published publisher.now) (reverse (views_of from.old)) (views_of to.new) }
    ensures apart { result ≡ count_by (is_apart (length (published publisher.now))) (views_of to.new) }
{
    let mut apart = 0;
    while let Some(mut view) = from.pop() {
        apart += ask(rt, publisher, &mut view);
        put(to, view);
    }
    apart
}

impl<O: OutLink + Drop, T> Server<O, T> {
    /// Ends the slots, and asks their views for their logs. It takes no memory: there is room for the views in
    /// `turned` and `asked`.
    pub(crate) fn finish<R: Wait, P: Spawner<Worker<O>, Started = T>>(
        self,
        rt: &R,
        spawner: &mut P,
        mut turned: Views,
        mut asked: Views,
    ) -> Ending<O>
        requires run { AllRun P.task_of self.dispatcher }
        requires none { (views_of turned ≡ []) × (views_of asked ≡ []) }
        requires room { (length (slots_in self) ≤ room_of turned) × (length (slots_in self) ≤ room_of asked) }
        ensures finishes { Finishes self result }
        ensures few { result.outs_sent + result.outs_unsent ≤ 2 ^ 62 }
        ensures starts { P.starts spawner.new ≡ P.starts spawner.old }
        ensures faults { P.faults spawner.new ≡ P.faults spawner.old }
    {
        let Server {
            relay: _relay,
            publisher,
            dispatcher,
            counts,
            outcomes: _outcomes,
            first: _,
            course: _course,
        } = self;
        let Finished {
            outs,
            mut views,
            sent,
            unsent,
            inline,
        } = dispatcher.finish(rt, spawner);
        turn_round(&mut views, &mut turned);
        let apart = ask_each(rt, &publisher, &mut turned, &mut asked);
        let (owed, published) = (publisher.owed(), publisher.published());
        publisher.end(rt);
        Ending {
            outs,
            views: asked,
            counts,
            outs_sent: sent,
            outs_unsent: unsent,
            inline,
            owed,
            published,
            apart,
        }
    }
}
