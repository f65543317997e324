//! A control by which an end asks itself too, and keeps a journal of the answers.
ghost use Rattle.std.specs.Prelude.{◌≡◌, ◌≢◌, ◌<◌, ◌≤◌, ◌⊎◌, ◌+◌, codes, false, length, max, take, true, None, Some, IfOk};
ghost use Rattle.amt_ports.specs.{Arrivals.{IsShortGot}, Causes.{HasCause}};
ghost use Rattle.serving_commands.specs.Journaled.{Asks, IsStill, IsWrittenDown, LeavesAlone, Looks, Passes, SendsOn, WritesNothing, is_due, number_of, own_peer};

use crate::opening::journal::journal_line;
use amt_ports::{Clock, Failed, Got, Link, Sink, write_all_own};
use amt_values::{Bytes, Ip, Moment, Peer};
use std::alloc::Global;
use std::marker::Model;

// Who asks for the journal: ::ffff:0.0.0.0. No datagram is said to come from there, since a source that is an
// IPv4-mapped address is told as the IPv4 one.
const JOURNAL: Peer = Peer {
    ip: Ip::V6(0xffff_0000_0000),
    port: 0,
};

// How often in a row a socket isn't looked at, at most: the clock may give the same moment for ever.
const MOST_SKIPPED: u32 = 64;

const QUESTION: [u8; 6] = *b"counts";

/// Lines of a control socket, if there is one, and each so many seconds a question of the end's own, `counts`: of its
/// answer a line of the counts that have changed goes to the journal. The end waits until the journal has taken a line;
/// what it refuses is told in the next one.
///
/// ```text
///   socket  --- lines --->  +---------+ --- lines, and `counts` when it is due --->  the end
///           <-- answers --  | control | <-- answers ------------------------------
///                           +---------+ --- the answer to its own question --> journal
/// ```
///
/// A socket in which nothing was found isn't looked at again in the same millisecond, for 64 times at most, unless
/// there is time to wait: so one that nobody asks costs a busy end hardly a call of the system.
#[derive(Drop)]
pub struct JournaledControl<K, C, S> {
    alloc: Global,
    socket: Option<K>,
    clock: C,
    journal: S,
    seconds: u32,
    now: Moment,
    asked_at: Moment,
    empty_at: Option<Moment>,
    skipped: u32,
    last: Bytes,
}

impl<K, C, S> Model for JournaledControl<K, C, S> {
    ghost use Rattle.serving_commands.specs.Journaled.{Journaled};

    ghost Value = { Journaled K C S };

    ghost view = { λ control. record {
      socket = control.socket;
      clock = control.clock;
      journal = control.journal;
      seconds = control.seconds;
      now = control.now;
      asked_at = control.asked_at;
      empty_at = control.empty_at;
      skipped = control.skipped;
      last = control.last;
    } };
}

impl<K: Link, C: Clock, S: Sink> JournaledControl<K, C, S> {
    ghost use Rattle.std.specs.Prelude.{[]};

    /// With 0 seconds it asks nothing itself. It begins at the moment 0 of its clock.
    pub fn new(alloc: Global, socket: Option<K>, clock: C, journal: S, report_seconds: u32) -> Self
        ensures { result ≡ record {
          socket = socket;
          clock = clock;
          journal = journal;
          seconds = report_seconds;
          now = 0;
          asked_at = 0;
          empty_at = None;
          skipped = 0;
          last = [];
        } }
    {
        JournaledControl {
            alloc,
            socket,
            clock,
            journal,
            seconds: report_seconds,
            now: Moment::new(0).unwrap(),
            asked_at: Moment::new(0).unwrap(),
            empty_at: None,
            skipped: 0,
            last: Bytes::new(alloc),
        }
    }

    /// Where its lines went.
    pub fn journal(&self) -> &S
        ensures { result.now ≡ self.entry.now.journal }
    {
        &self.journal
    }

    // The latest moment that the clock gave.
    fn pass_time(&mut self)
        ensures time { Passes C.given self.old self.new }
        ensures rest { self.new ≡ record self.old { now = self.new.now; clock = self.new.clock } }
    {
        self.now = self.now.later(&self.clock.now());
    }

    fn is_due(&self) -> bool
        ensures { result ≡ is_due self.entry.now self.entry.now.now }
    {
        self.seconds > 0 && self.asked_at.ms() + u64::from(self.seconds) * 1000 <= self.now.ms()
    }

    // Whether the socket is left alone: it was found empty in this millisecond.
    fn skips(&mut self) -> bool
        ensures counted { result ≡ true → (self.old.empty_at ≡ Some self.old.now) × (self.old.skipped < 64)
            × (self.new ≡ record self.old { skipped = self.old.skipped + 1 }) }
        ensures none { result ≡ false → self.new ≡ record self.old { skipped = 0 } }
    {
        if self.empty_at != Some(self.now) || self.skipped >= MOST_SKIPPED {
            self.skipped = 0;
            return false;
        }
        self.skipped += 1;
        true
    }

    // Puts the end's own question into the buffer.
    fn ask(&mut self, buf: &mut [u8]) -> Got
        requires { 65536 ≤ length buf.old }
        ensures buffer { length buf.new ≡ length buf.old }
        ensures got { result ≡ Got.Datagram own_peer 6 }
        ensures question { take 6 buf.new ≡ codes "counts" }
        ensures asked { self.new ≡ record self.old { asked_at = self.old.now } }
    {
        self.asked_at = self.now;
        buf[..QUESTION.len()].copy_from_slice(&QUESTION);
        Got::Datagram(JOURNAL, QUESTION.len())
    }

    // Writes down what has changed since the last answer, which is one datagram: a relay's counts have at most 897 octets
    // and a gateway's 1,095, and a datagram of an answer has room for 1,376.
    fn write_down(&mut self, answer: &[u8])
        ensures socket { self.new.socket ≡ self.old.socket }
        ensures still { IsStill self.old self.new }
        ensures journal { IsWrittenDown S.written S.faults answer.now self.old self.new }
    {
        let seconds = self.asked_at.ms() / 1000;
        let Ok(line) = journal_line(self.alloc, seconds, self.last.as_slice(), answer) else {
            return;
        };
        let Ok(copy) = Bytes::copied(self.alloc, answer) else {
            return;
        };
        if write_all_own(&mut self.journal, line.as_slice()).is_ok() {
            self.last = copy;
        }
    }
}

impl<K: Link, C: Clock, S: Sink> Link for JournaledControl<K, C, S> {
    ghost coming = { λ _. None };

    ghost tried = { λ _. None };

    ghost receive_faults = { λ control. number_of K.receive_faults control.socket };

    ghost send_faults = { λ control. number_of K.send_faults control.socket };

    ghost longest_wait = { λ control. number_of K.longest_wait control.socket };

    fn recv(&mut self, buf: &mut [u8], wait_ms: u32) -> Result<Got, Failed>
        requires room { 65536 ≤ length buf.old }
        ensures short { IfOk result IsShortGot }
        ensures buffer { length buf.new ≡ length buf.old }
        ensures cause { HasCause (number_of K.receive_faults self.old.socket) (number_of K.receive_faults self.new.socket) result }
        ensures apart { number_of K.send_faults self.new.socket ≡ number_of K.send_faults self.old.socket }
        ensures waits { number_of K.longest_wait self.new.socket ≤ max (number_of K.longest_wait self.old.socket) wait_ms }
        ensures time { Passes C.given self.old self.new }
        ensures asks { is_due self.old self.new.now ≡ true → Asks result buf.new self.old self.new }
        ensures looks { is_due self.old self.new.now ≡ false
            → Looks K.coming K.tried result buf.new self.old self.new ⊎ LeavesAlone wait_ms result self.old self.new }
        ensures asked_at { is_due self.old self.new.now ≡ false → self.new.asked_at ≡ self.old.asked_at }
        ensures seconds { self.new.seconds ≡ self.old.seconds }
        ensures journal { WritesNothing self.old self.new }
    {
        self.pass_time();
        if self.is_due() {
            return Ok(self.ask(buf));
        }
        if wait_ms == 0 && self.skips() {
            return Ok(Got::Nothing);
        }
        let Some(socket) = &mut self.socket else {
            return Ok(Got::Nothing);
        };
        let got = socket.recv(buf, wait_ms)?;
        self.empty_at = match got {
            Got::Nothing => Some(self.now),
            _ => None,
        };
        Ok(got)
    }

    fn send(&mut self, to: &Peer, bytes: &[u8]) -> Result<(), Failed>
        ensures cause { HasCause (number_of K.send_faults self.old.socket) (number_of K.send_faults self.new.socket) result }
        ensures apart { number_of K.receive_faults self.new.socket ≡ number_of K.receive_faults self.old.socket }
        ensures waits { number_of K.longest_wait self.new.socket ≡ number_of K.longest_wait self.old.socket }
        ensures journal { to.now ≡ own_peer
            → IsWrittenDown S.written S.faults bytes.now self.old self.new }
        ensures unsent { to.now ≡ own_peer → self.new.socket ≡ self.old.socket }
        ensures kept { to.now ≢ own_peer → WritesNothing self.old self.new }
        ensures sent { to.now ≢ own_peer
            → SendsOn K.coming K.tried to.now bytes.now result self.old.socket self.new.socket }
        ensures still { IsStill self.old self.new }
    {
        if *to == JOURNAL {
            self.write_down(bytes);
            return Ok(());
        }
        match &mut self.socket {
            Some(socket) => socket.send(to, bytes),
            // Nobody else has asked.
            None => Ok(()),
        }
    }
}
