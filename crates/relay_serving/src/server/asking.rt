//! How lines that ask a running relay for something are answered.
ghost use Rattle.std.specs.Prelude.{◌≡◌, ◌≤◌, ◌<◌, ◌+◌, ◌^◌, ◌||◌, IfOk, length, is_err};
ghost use Rattle.amt_ports.specs.Devices.{link_at};
ghost use Rattle.control_lines.specs.Answer.{HasAnswer, is_answer};
ghost use Rattle.relay_serving.specs.{Asked.{is_stop}, AskingServers.{AsksSo, LineSo, NextSo, RoundSo}, Controls.{control_at, controls_at}, Counting.{one_if}, Replies.{Replying}, Servers.{tally_in}};

use super::Server;
use super::replying::Held;
use crate::control::{Control, Copies, CopyCount};
use amt_ports::{BURST, Got, Link, OutLink};
use amt_values::{Bytes, Peer};
use control_lines::{Asking, answer_line, is_answer, read_asking};
use script_lines::Reason;
use std::alloc::{AllocError, Global};

/// What lines are answered by.
pub(super) trait Replies {
    /// The texts, by what was refused since the run began.
    ghost texts: { Self → Replying };

    /// The text that answers a line.
    fn reply(
        &self,
        alloc: Global,
        starved: u64,
        reading: &Result<Asking, Reason>,
        copied: &CopyCount,
    ) -> Result<Bytes, AllocError>
        ensures { IfOk result (λ text. text ≡ texts self.now starved reading.now copied.now) };
}

/// What lines came to: whether one asks that the run ends, and how many answers memory refused.
#[derive(Clone, Copy, Debug, PartialEq, Eq)]
pub(super) struct Answered {
    stops: bool,
    refused: u64,
}

impl Answered {
    // Of these lines, and of one more.
    fn and(&self, next: &Answered) -> Answered
        requires few { self.now.refused + next.now.refused < 2 ^ 64 }
        ensures stops { result.stops ≡ (self.now.stops || next.now.stops) }
        ensures refused { result.refused ≡ self.now.refused + next.now.refused }
    {
        Answered {
            stops: self.stops || next.stops,
            refused: self.refused + next.refused,
        }
    }
}

// Whether somebody asks that the run ends.
fn is_stop(reading: &Result<Asking, Reason>) -> bool
    ensures { result ≡ is_stop reading.now }
{
    match reading {
        Ok(Asking::Stop) => true,
        Ok(Asking::Counts | Asking::Show | Asking::ShowOf(_)) | Err(_) => false,
    }
}

fn one_if(condition: bool) -> u64
    ensures { result ≡ one_if condition }
{
    if condition { 1 } else { 0 }
}

// Tries to send what answers a line, if that isn't an answer itself. Out of memory nothing is sent.
fn send_reply<A: Replies, K: Link>(
    alloc: Global,
    held: &A,
    starved: u64,
    link: &mut K,
    from: &Peer,
    line: &[u8],
    reading: &Result<Asking, Reason>,
    copied: &CopyCount,
) -> Result<(), AllocError>
    ensures answer { HasAnswer (is_answer line.now) (is_err result) from.now (A.texts held.now starved reading.now copied.now)
        (link_at K.Link link.old) (link_at K.Link link.new) }
    ensures coming { K.coming link.new ≡ K.coming link.old }
    ensures calm { K.receive_faults link.new ≡ K.receive_faults link.old }
    ensures waits { K.longest_wait link.new ≡ K.longest_wait link.old }
{
    if is_answer(line) {
        return Ok(());
    }
    let Ok(text) = held.reply(alloc, starved, reading, copied) else {
        return Err(AllocError);
    };
    answer_line(link, from, text)
}

// Answers a line.
fn answer_line_of<A: Replies, K: Link, N: Copies>(
    alloc: Global,
    held: &A,
    starved: u64,
    control: &mut Control<K, N>,
    from: Peer,
    line: &[u8],
) -> Answered
    ensures answers { LineSo (A.texts held.now starved) from line.now
        (control_at K.Link N.Copies control.old) (control_at K.Link N.Copies control.new) result }
{
    let reading = read_asking(line);
    let copied = control.copies.copies();
    let link = &mut control.link;
    let sent = send_reply(alloc, held, starved, link, &from, line, &reading, &copied);
    Answered {
        stops: is_stop(&reading),
        refused: one_if(sent.is_err()),
    }
}

// Asks the control once, and answers the line that it has.
fn answer_next<A: Replies, K: Link, N: Copies>(
    alloc: Global,
    held: &A,
    starved: u64,
    control: &mut Control<K, N>,
    buf: &mut [u8],
) -> Option<Answered>
    requires room { 65536 ≤ length buf.old }
    ensures next { NextSo (A.texts held.now starved)
        (control_at K.Link N.Copies control.old) (control_at K.Link N.Copies control.new) result }
    ensures room { length buf.new ≡ length buf.old }
{
    match control.link.recv(buf, 0) {
        Ok(Got::Datagram(from, octets)) => {
            let line = &buf[..octets];
            Some(answer_line_of(alloc, held, starved, control, from, line))
        }
        Ok(Got::Nothing) => None,
        Ok(Got::Closed) => None,
        Err(_) => None,
    }
}

// Answers the lines that the control has, at most 64.
fn answer_lines<A: Replies, K: Link, N: Copies>(
    alloc: Global,
    held: &A,
    starved: u64,
    control: &mut Control<K, N>,
    buf: &mut [u8],
) -> Answered
    requires room { 65536 ≤ length buf.old }
    requires few { starved ≤ 2 ^ 50 }
    ensures round { RoundSo (λ refused. A.texts held.now (starved + refused))
        (control_at K.Link N.Copies control.old) (control_at K.Link N.Copies control.new) result }
    ensures few { result.refused ≤ 64 }
    ensures room { length buf.new ≡ length buf.old }
{
    let mut lines = Answered {
        stops: false,
        refused: 0,
    };
    for _ in 0..BURST {
        match answer_next(alloc, held, starved + lines.refused, control, buf) {
            Some(line) => lines = lines.and(&line),
            None => return lines,
        }
    }
    lines
}

impl<O: OutLink + Drop, T> Server<O, T> {
    /// Answers the lines that came since the last turn, where there is a control: whether one asks that the run ends.
    pub(super) fn answer<K: Link, N: Copies>(
        &mut self,
        alloc: Global,
        workers: u32,
        turns: u64,
        control: &mut Option<Control<K, N>>,
        buf: &mut [u8],
    ) -> bool
        requires room { 65536 ≤ length buf.old }
        requires few { tally_in self.old + 64 < 2 ^ 50 }
        ensures asks { AsksSo workers turns self.old self.new
            (controls_at K.Link N.Copies control.old) (controls_at K.Link N.Copies control.new) result }
        ensures room { length buf.new ≡ length buf.old }
    {
        let Some(control) = control else {
            return false;
        };
        let starved = self.counts.starved;
        let held = Held {
            server: self,
            workers,
            turns,
        };
        let lines = answer_lines(alloc, &held, starved, control, buf);
        self.starve(lines.refused);
        lines.stops
    }
}
