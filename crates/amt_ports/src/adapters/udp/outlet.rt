//! Sending whole datagrams, and how long a send waits for room.
//!
//! One socket sends to many peers, and what waits for those that don't answer takes the room of the
//! others. So a send that finds none waits once, and the next ones don't until one has found room, or the
//! outlet's owner lets them: else a few peers that are gone would stop a relay for everybody.

ghost use Rattle.std.specs.Prelude.{◌≡◌, true, false, IsTrue, IsFalse, List, None, Ok, Option, OnErr};
ghost use Rattle.amt_ports.specs.{Outlets.{SendsSo, TriesSo, Use, tried, try_of, waited}, Told.{Appends}, declared.adapters.udp.outlet.Attempt.TheVariants.{Full}};

use super::sources::std_peer;
use super::watch::{readiness, wait_until_ready};
use amt_values::Peer;
use libc::net::POLLOUT;
use std::io;
use std::io::{Error, ErrorKind};
use std::net::UdpSocket;

const ROOM_WAIT_MS: i32 = 10;

/// What a try to send comes to. Contracts alone speak of it.
#[derive(Clone, Copy, Debug, PartialEq, Eq)]
pub enum Attempt {
    /// The system took the datagram.
    Taken,
    /// It had no room for it.
    Full,
    /// It failed.
    Failed,
}

/// A socket whose sends don't wait by themselves.
pub trait Unwaiting {
    /// What was done with it so far, in order, where it is told.
    ghost done: { Self → Option (List Use) };

    /// Tries to send the octets as one datagram: whether there was room.
    fn try_send(&mut self, to: &Peer, bytes: &[u8]) -> io::Result<bool>
        ensures { Appends (done self.old) (done self.new) (tried to.now bytes.now (try_of result)) };

    /// Waits for room, 10 ms at most.
    fn wait_for_room(&mut self)
        ensures { Appends (done self.old) (done self.new) waited };
}

impl Unwaiting for UdpSocket {
    ghost done = { λ _. None };

    // A signal that comes before anything was sent is as good as no room.
    fn try_send(&mut self, to: &Peer, bytes: &[u8]) -> io::Result<bool> {
        match self.send_to(bytes, std_peer(to)) {
            Ok(count) if count == bytes.len() => Ok(true),
            Ok(_) => Err(Error::from(ErrorKind::WriteZero)),
            Err(error) => match error.kind() {
                ErrorKind::WouldBlock | ErrorKind::Interrupted => Ok(false),
                _ => Err(error),
            },
        }
    }

    // A wait that failed is over, and the try after it tells more.
    fn wait_for_room(&mut self) {
        let _ = wait_until_ready(&mut [readiness(self, POLLOUT)], ROOM_WAIT_MS);
    }
}

/// A socket that datagrams are sent through, and whether the next one that finds no room may wait for it.
#[derive(Debug, Drop)]
pub(crate) struct Outlet<S> {
    pub(crate) socket: S,
    pub(crate) may_wait: bool,
}

impl<S: Unwaiting> Outlet<S> {
    pub(crate) fn new(socket: S) -> Self
        ensures { result.may_wait ≡ true }
    {
        Outlet {
            socket,
            may_wait: true,
        }
    }

    // Whether a send that came to this is to wait for room.
    fn is_to_wait(&self, first: &io::Result<bool>) -> bool
        ensures waits { IsTrue result → (try_of first.now ≡ Full) × (self.now.may_wait ≡ true) }
        ensures not { IsFalse result → try_of first.now ≡ Full → self.now.may_wait ≡ false }
    {
        match first {
            Ok(false) => self.may_wait,
            _ => false,
        }
    }

    /// Sends the octets as one datagram, and answers whether there was room.
    pub(crate) fn send(&mut self, to: &Peer, bytes: &[u8]) -> io::Result<bool>
        ensures course { SendsSo (S.done self.old.socket) (S.done self.new.socket) to.now bytes.now
            self.old.may_wait self.new.may_wait result }
        ensures spent { self.new.may_wait ≡ true → self.old.may_wait ≡ true }
        ensures in_vain { result ≡ Ok false → self.new.may_wait ≡ false }
    {
        let first = self.socket.try_send(to, bytes);
        if !self.is_to_wait(&first) {
            return first;
        }
        self.may_wait = false;
        self.socket.wait_for_room();
        self.socket.try_send(to, bytes)
    }
    /// Sends a copy as `send` does. The next one may wait where this one was sent, and not where it found no
    /// room. What a failed send says of its peer says nothing of the room.
    pub(crate) fn send_copy(&mut self, to: &Peer, bytes: &[u8]) -> io::Result<bool>
        ensures course { TriesSo (S.done self.old.socket) (S.done self.new.socket) to.now bytes.now
            self.old.may_wait result }
        ensures again { result ≡ Ok true → self.new.may_wait ≡ true }
        ensures spent { result ≡ Ok false → self.new.may_wait ≡ false }
        ensures failed { OnErr result (self.new.may_wait ≡ self.old.may_wait) }
    {
        let may_wait = self.may_wait;
        let sent = self.send(to, bytes);
        match &sent {
            Ok(true) => self.may_wait = true,
            Ok(false) => self.may_wait = false,
            Err(_) => self.may_wait = may_wait,
        }
        sent
    }
}
