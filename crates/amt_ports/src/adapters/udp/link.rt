//! A UDP socket as a link.

ghost use Rattle.std.specs.Prelude.{◌≡◌, ◌≢◌, ◌≤◌, true, None, Ok, length, IfOk};
ghost use Rattle.amt_ports.specs.{Arrivals.{IsShortGot}, Causes.{HasCause}, RealDevices.{answers_may_wait, copies_may_wait, out_failed, receivings_failed, sends_failed}};

use super::out::UdpOut;
use super::outlet::Outlet;
use super::sources::source_peer;
use super::watch::WatchedSocket;
use crate::fault::count_fault;
use crate::{Failed, Got, Link};
use amt_values::Peer;
use std::io;
use std::net::UdpSocket;

/// The listening socket. A source that is an IPv4-mapped address is handed on as the IPv4 address. It is
/// never closed.
///
/// Its sends are answers to what was received, and have a send buffer of their own. One of them may wait
/// for room, and then none does until a receiving finds nothing: so that a relay's turn waits once, and a
/// gateway's, which sends at its moment too, at most twice.
#[derive(Debug, Drop)]
pub struct UdpLink {
    socket: WatchedSocket,
    // The same socket.
    answers: Outlet<UdpSocket>,
    // At the same address and port. Workers send through it, and what comes to it is never read: no
    // datagram to that address alone does, once the link's own socket is bound.
    copies: UdpSocket,
    receive_faults: u64,
    send_faults: u64,
}

impl UdpLink {
    pub(crate) fn new(
        own: UdpSocket,
        answers: UdpSocket,
        copies: UdpSocket,
        other: UdpSocket,
    ) -> Self
        ensures { (receivings_failed result ≡ 0) × (sends_failed result ≡ 0)
            × (answers_may_wait result ≡ true) }
    {
        UdpLink {
            socket: WatchedSocket::new(own, other),
            answers: Outlet::new(answers),
            copies,
            receive_faults: 0,
            send_faults: 0,
        }
    }

    /// An end for a worker, which sends from the same address and port.
    pub fn worker_end(&self) -> io::Result<UdpOut>
        ensures { IfOk result (λ out. (out_failed out ≡ 0) × (copies_may_wait out ≡ true)) }
    {
        Ok(UdpOut::new(self.copies.try_clone()?))
    }

    // The socket that it listens at, for another one's waits.
    pub(crate) fn beside(&self) -> io::Result<UdpSocket> {
        self.socket.own.try_clone()
    }

    /// The address and port that it listens at.
    pub fn local_peer(&self) -> io::Result<Peer> {
        Ok(source_peer(self.socket.own.local_addr()?))
    }

    /// How often a receiving has failed.
    pub fn receive_faults(&self) -> u64
        ensures { result ≡ receivings_failed self.now }
    {
        self.receive_faults
    }

    /// How often a send has failed.
    pub fn send_faults(&self) -> u64
        ensures { result ≡ sends_failed self.now }
    {
        self.send_faults
    }
}

impl Link for UdpLink {
    ghost coming = { λ _. None };

    ghost tried = { λ _. None };

    ghost receive_faults = { receivings_failed };

    ghost send_faults = { sends_failed };

    ghost longest_wait = { λ _. 0 };

    fn recv(&mut self, buf: &mut [u8], wait_ms: u32) -> Result<Got, Failed>
        requires room { 65536 ≤ length buf.old }
        ensures short { IfOk result IsShortGot }
        ensures buffer { length buf.new ≡ length buf.old }
        ensures cause { HasCause (receivings_failed self.old) (receivings_failed self.new) result }
        ensures apart { sends_failed self.new ≡ sends_failed self.old }

        ensures open { IfOk result (λ got. got ≢ Got.Closed) }
        ensures rested { result ≡ Ok Got.Nothing → answers_may_wait self.new ≡ true }
        ensures busy { result ≢ Ok Got.Nothing
            → answers_may_wait self.new ≡ answers_may_wait self.old }
    {
        match self.socket.recv(buf, wait_ms) {
            Ok(Some((count, source))) => Ok(Got::Datagram(source_peer(source), count)),
            Ok(None) => {
                self.answers.may_wait = true;
                Ok(Got::Nothing)
            }
            Err(_) => Err(count_fault(&mut self.receive_faults)),
        }
    }

    fn send(&mut self, to: &Peer, bytes: &[u8]) -> Result<(), Failed>
        ensures cause { HasCause (sends_failed self.old) (sends_failed self.new) result }
        ensures apart { receivings_failed self.new ≡ receivings_failed self.old }

        ensures spent { answers_may_wait self.new ≡ true → answers_may_wait self.old ≡ true }
    {
        match self.answers.send(to, bytes) {
            Ok(true) => Ok(()),
            _ => Err(count_fault(&mut self.send_faults)),
        }
    }
}
