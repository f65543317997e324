//! Feeds in memory, for tests and callers.
ghost use Rattle.std.specs.Prelude.{◌≡◌, ◌≤◌, ◌↔◌, [], Some, All, Contains, length, IsErr, IsOk, IfOk, OnOk, OnErr};
ghost use Rattle.amt_ports.specs.{Arrivals.{IsShortFeedAnswer, IsShortFeedGot, feed_answer}, Causes.{HasCause, next_count}, Tally.{fresh_tally, with_call, with_fault}, Told.{Answers}, declared.feed.FeedAnswer.TheVariants.{Closed as ClosedFeed}};

use super::buffer::put_at_start;
use crate::tally::CallTally;
use crate::{Failed, Feed, FeedAnswer, FeedGot};
use std::alloc::Global;
use std::collections::VecDeque;
use std::marker::Model;

/// A feed whose answers are listed, and which never fails. Contracts see the answers to come.
///
/// Its count of faults is 0 at every moment, so a caller at this type knows that no receiving fails. After
/// its last answer it is closed.
#[derive(Debug, Drop)]
pub struct FaultlessFeed {
    coming: VecDeque<FeedAnswer>,
}

impl Model for FaultlessFeed {
    ghost use Rattle.std.specs.Prelude.{List, All};
    ghost use Rattle.amt_ports.specs.{Arrivals.{IsShortFeedAnswer}, declared.feed.FeedAnswer.{FeedAnswer}};

    ghost Value = { List FeedAnswer };

    ghost view = { λ feed. feed.coming.items };

    ghost invariant = { λ feed. All IsShortFeedAnswer feed.coming.items };
}

impl FaultlessFeed {
    pub fn new(answers: VecDeque<FeedAnswer>) -> Self
        requires { All IsShortFeedAnswer answers.items }
        ensures { result ≡ answers.items }
    {
        FaultlessFeed { coming: answers }
    }
}

impl Feed for FaultlessFeed {
    ghost coming = { λ feed. Some feed };

    ghost faults = { λ _. 0 };

    ghost longest_wait = { λ _. 0 };

    fn recv(&mut self, buf: &mut [u8], wait_ms: u32) -> Result<FeedGot, Failed>
        requires room { 65536 ≤ length buf.old }
        ensures short { IfOk result IsShortFeedGot }
        ensures buffer { length buf.new ≡ length buf.old }
        ensures answer { IfOk result (λ got. Answers ClosedFeed (Some self.old) (Some self.new)
            (feed_answer got buf.new)) }
        ensures kept { OnErr result (Some self.new ≡ Some self.old) }
        ensures cause { HasCause 0 0 result }

        ensures ok { IsOk result }
    {
        Ok(match self.coming.pop_front() {
            Some(answer) => hand_over(buf, answer),
            None => FeedGot::Closed,
        })
    }
}

// Writes the octets of an answer to the buffer.
fn hand_over(buf: &mut [u8], answer: FeedAnswer) -> FeedGot
    requires short { IsShortFeedAnswer answer }
    requires room { 65536 ≤ length buf.old }
    ensures answer { feed_answer result buf.new ≡ answer }
    ensures short { IsShortFeedGot result }
    ensures buffer { length buf.new ≡ length buf.old }
{
    match answer {
        FeedAnswer::Packet(octets) => FeedGot::Packet(put_at_start(buf, octets.as_slice())),
        FeedAnswer::Nothing => FeedGot::Nothing,
        FeedAnswer::Closed => FeedGot::Closed,
    }
}

/// A feed whose answers are listed, and of which some calls may fail. After its last answer it is closed.
#[derive(Debug, Drop)]
pub struct MemFeed {
    feed: FaultlessFeed,
    tally: CallTally,
}

impl Model for MemFeed {
    ghost use Rattle.amt_ports.specs.MemFeed.{FeedCalls};

    ghost Value = { FeedCalls };

    ghost view = { λ feed. record { coming = feed.feed; tally = feed.tally } };
}

impl MemFeed {
    /// No call of it fails.
    pub fn new(alloc: Global, answers: VecDeque<FeedAnswer>) -> Self
        requires { All IsShortFeedAnswer answers.items }
        ensures coming { result.coming ≡ answers.items }
        ensures tally { result.tally ≡ fresh_tally [] }
    {
        MemFeed::failing(answers, Vec::new(alloc))
    }

    /// The calls of these numbers fail, counted from 1. A call counts that finds the feed closed, too.
    pub fn failing(answers: VecDeque<FeedAnswer>, calls: Vec<u64>) -> Self
        requires { All IsShortFeedAnswer answers.items }
        ensures coming { result.coming ≡ answers.items }
        ensures tally { result.tally ≡ fresh_tally calls.items }
    {
        MemFeed {
            feed: FaultlessFeed::new(answers),
            tally: CallTally::new(calls),
        }
    }

    /// How many calls failed.
    pub fn faults(&self) -> u64
        ensures { result ≡ self.now.tally.faults }
    {
        self.tally.faults()
    }
}

impl Feed for MemFeed {
    ghost coming = { λ feed. Some feed.coming };

    ghost faults = { λ feed. feed.tally.faults };

    ghost longest_wait = { λ _. 0 };

    fn recv(&mut self, buf: &mut [u8], wait_ms: u32) -> Result<FeedGot, Failed>
        requires room { 65536 ≤ length buf.old }
        requires wait { 1 ≤ wait_ms }
        ensures short { IfOk result IsShortFeedGot }
        ensures buffer { length buf.new ≡ length buf.old }
        ensures answer { IfOk result (λ got. Answers ClosedFeed (Some self.old.coming)
            (Some self.new.coming) (feed_answer got buf.new)) }
        ensures kept { OnErr result (Some self.new.coming ≡ Some self.old.coming) }
        ensures cause { HasCause self.old.tally.faults self.new.tally.faults result }

        ensures untouched { OnErr result (buf.new ≡ buf.old) }
        ensures listed { IsErr result
            ↔ Contains self.old.tally.failing (next_count self.old.tally.made) }
        ensures ok { OnOk result (self.new.tally ≡ with_call self.old.tally) }
        ensures err { OnErr result (self.new.tally ≡ with_fault (with_call self.old.tally)) }
    {
        self.tally.call()?;
        self.feed.recv(buf, wait_ms)
    }
}
