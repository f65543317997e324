//! A link in memory, for tests and callers.
ghost use Rattle.std.specs.Prelude.{◌≡◌, ◌≤◌, ◌↔◌, [], Some, All, Contains, length, IsErr, IsSome, IfOk, OnOk, OnErr};
ghost use Rattle.amt_ports.specs.{Arrivals.{IsShortAnswer, IsShortGot, link_answer}, Causes.{HasCause, next_count}, MemOut.{Shows}, Sends.{tried_send}, Tally.{fresh_tally, with_call, with_fault}, Told.{Answers, Appends}, declared.link.LinkAnswer.TheVariants.{Closed as ClosedLink}};

use super::buffer::put_at_start;
use crate::tally::CallTally;
use crate::tried::{SendLog, Tried, send_by};
use crate::{Failed, Got, Link, LinkAnswer};
use amt_values::Peer;
use std::alloc::Global;
use std::collections::VecDeque;
use std::marker::Model;

/// A link whose answers are listed, which keeps what was sent in memory, and of which some calls may fail.
///
/// After its last answer it is closed. A send whose growth memory refuses is a failed call, and counts as
/// one; after it the link tells its sends no more, since one of them is missing.
#[derive(Debug, Drop)]
pub struct MemLink {
    coming: VecDeque<LinkAnswer>,
    log: SendLog,
    receivings: CallTally,
    sends: CallTally,
}

impl Model for MemLink {
    ghost use Rattle.std.specs.Prelude.{All};
    ghost use Rattle.amt_ports.specs.{Arrivals.{IsShortAnswer}, MemLink.{LinkCalls}};

    ghost Value = { LinkCalls };

    ghost view = { λ link. record { coming = link.coming.items; tried = link.log; receivings = link.receivings; sends = link.sends } };

    ghost invariant = { λ link. All IsShortAnswer link.coming.items };
}

impl MemLink {
    /// No call of it fails unless memory runs out.
    pub fn new(alloc: Global, answers: VecDeque<LinkAnswer>) -> Self
        requires { All IsShortAnswer answers.items }
        ensures coming { result.coming ≡ answers.items }
        ensures tried { result.tried ≡ Some [] }
        ensures receivings { result.receivings ≡ fresh_tally [] }
        ensures sends { result.sends ≡ fresh_tally [] }
    {
        MemLink::failing(alloc, answers, Vec::new(alloc), Vec::new(alloc))
    }

    /// The receivings of these numbers fail, and the sends of those, each counted from 1. A receiving
    /// counts that finds the link closed, too.
    pub fn failing(
        alloc: Global,
        answers: VecDeque<LinkAnswer>,
        receivings: Vec<u64>,
        sends: Vec<u64>,
    ) -> Self
        requires { All IsShortAnswer answers.items }
        ensures coming { result.coming ≡ answers.items }
        ensures tried { result.tried ≡ Some [] }
        ensures receivings { result.receivings ≡ fresh_tally receivings.items }
        ensures sends { result.sends ≡ fresh_tally sends.items }
    {
        MemLink {
            coming: answers,
            log: SendLog::new(alloc),
            receivings: CallTally::new(receivings),
            sends: CallTally::new(sends),
        }
    }

    /// What was tried, in order; all of it, unless memory ran out.
    pub fn tried(&self) -> &[Tried]
        ensures { Shows self.now.tried result.now }
    {
        self.log.as_slice()
    }

    /// How many receivings failed.
    pub fn receive_faults(&self) -> u64
        ensures { result ≡ self.now.receivings.faults }
    {
        self.receivings.faults()
    }

    /// How many sends failed.
    pub fn send_faults(&self) -> u64
        ensures { result ≡ self.now.sends.faults }
    {
        self.sends.faults()
    }
}

impl Link for MemLink {
    ghost coming = { λ link. Some link.coming };

    ghost tried = { λ link. link.tried };

    ghost receive_faults = { λ link. link.receivings.faults };

    ghost send_faults = { λ link. link.sends.faults };

    ghost longest_wait = { λ _. 0 };

    fn recv(&mut self, buf: &mut [u8], wait_ms: u32) -> Result<Got, Failed>
        requires room { 65536 ≤ length buf.old }
        ensures short { IfOk result IsShortGot }
        ensures buffer { length buf.new ≡ length buf.old }
        ensures answer { IfOk result (λ got. Answers ClosedLink (Some self.old.coming)
            (Some self.new.coming) (link_answer got buf.new)) }
        ensures kept { OnErr result (Some self.new.coming ≡ Some self.old.coming) }
        ensures sends { self.new.tried ≡ self.old.tried }
        ensures cause { HasCause self.old.receivings.faults self.new.receivings.faults result }
        ensures apart { self.new.sends.faults ≡ self.old.sends.faults }

        ensures untouched { OnErr result (buf.new ≡ buf.old) }
        ensures listed { IsErr result
            ↔ Contains self.old.receivings.failing (next_count self.old.receivings.made) }
        ensures ok { OnOk result (self.new.receivings ≡ with_call self.old.receivings) }
        ensures err { OnErr result
            (self.new.receivings ≡ with_fault (with_call self.old.receivings)) }
        ensures others { self.new.sends ≡ self.old.sends }
    {
        self.receivings.call()?;
        Ok(match self.coming.pop_front() {
            Some(answer) => hand_over(buf, answer),
            None => Got::Closed,
        })
    }

    fn send(&mut self, to: &Peer, bytes: &[u8]) -> Result<(), Failed>
        ensures tried { Appends self.old.tried self.new.tried
            (tried_send to.now bytes.now result) }
        ensures tells { OnOk result (IsSome self.old.tried → IsSome self.new.tried) }
        ensures cause { HasCause self.old.sends.faults self.new.sends.faults result }
        ensures apart { self.new.receivings.faults ≡ self.old.receivings.faults }
        ensures coming { Some self.new.coming ≡ Some self.old.coming }

        ensures listed { Contains self.old.sends.failing (next_count self.old.sends.made)
            → IsErr result }
        ensures ok { OnOk result (self.new.sends ≡ with_call self.old.sends) }
        ensures err { OnErr result (self.new.sends ≡ with_fault (with_call self.old.sends)) }
        ensures others { self.new.receivings ≡ self.old.receivings }
    {
        send_by(&mut self.log, &mut self.sends, to, bytes)
    }
}

// Writes the octets of an answer to the buffer.
fn hand_over(buf: &mut [u8], answer: LinkAnswer) -> Got
    requires short { IsShortAnswer answer }
    requires room { 65536 ≤ length buf.old }
    ensures answer { link_answer result buf.new ≡ answer }
    ensures short { IsShortGot result }
    ensures buffer { length buf.new ≡ length buf.old }
{
    match answer {
        LinkAnswer::Datagram(from, octets) => {
            Got::Datagram(from, put_at_start(buf, octets.as_slice()))
        }
        LinkAnswer::Nothing => Got::Nothing,
        LinkAnswer::Closed => Got::Closed,
    }
}
