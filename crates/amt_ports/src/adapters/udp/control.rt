//! A UDP socket as what control lines come to.

ghost use Rattle.std.specs.Prelude.{◌≡◌, ◌≢◌, ◌≤◌, None, length, IfOk};
ghost use Rattle.amt_ports.specs.{Arrivals.{IsShortGot}, Causes.{HasCause}, RealDevices.{lines_failed, replies_failed}};

use super::outlet::Unwaiting;
use super::sources::source_peer;
use super::watch::WatchedSocket;
use crate::fault::count_fault;
use crate::{Failed, Got, Link};
use amt_values::Peer;
use std::io;

/// The socket that control lines come to, each as a datagram, and by which they are answered. It is never closed,
/// and no answer waits for room: one that finds none is lost.
#[derive(Debug, Drop)]
pub struct UdpControl {
    socket: WatchedSocket,
    receive_faults: u64,
    send_faults: u64,
}

impl UdpControl {
    pub(crate) fn new(socket: WatchedSocket) -> Self
        ensures { (lines_failed result ≡ 0) × (replies_failed result ≡ 0) }
    {
        UdpControl {
            socket,
            receive_faults: 0,
            send_faults: 0,
        }
    }

    /// The address and port that it listens at.
    pub fn local_peer(&self) -> io::Result<Peer> {
        Ok(source_peer(self.socket.own.local_addr()?))
    }

    /// How often a receiving has failed.
    pub fn receive_faults(&self) -> u64
        ensures { result ≡ lines_failed self.now }
    {
        self.receive_faults
    }

    /// How often an answer has failed.
    pub fn send_faults(&self) -> u64
        ensures { result ≡ replies_failed self.now }
    {
        self.send_faults
    }
}

impl Link for UdpControl {
    ghost coming = { λ _. None };

    ghost tried = { λ _. None };

    ghost receive_faults = { lines_failed };

    ghost send_faults = { replies_failed };

    ghost longest_wait = { λ _. 0 };

    fn recv(&mut self, buf: &mut [u8], wait_ms: u32) -> Result<Got, Failed>
        requires room { 65536 ≤ length buf.old }
        ensures short { IfOk result IsShortGot }
        ensures buffer { length buf.new ≡ length buf.old }
        ensures cause { HasCause (lines_failed self.old) (lines_failed self.new) result }
        ensures apart { replies_failed self.new ≡ replies_failed self.old }

        ensures open { IfOk result (λ got. got ≢ Got.Closed) }
    {
        match self.socket.recv(buf, wait_ms) {
            Ok(Some((count, source))) => Ok(Got::Datagram(source_peer(source), count)),
            Ok(None) => Ok(Got::Nothing),
            Err(_) => Err(count_fault(&mut self.receive_faults)),
        }
    }

    fn send(&mut self, to: &Peer, bytes: &[u8]) -> Result<(), Failed>
        ensures cause { HasCause (replies_failed self.old) (replies_failed self.new) result }
        ensures apart { lines_failed self.new ≡ lines_failed self.old }
    {
        match self.socket.own.try_send(to, bytes) {
            Ok(true) => Ok(()),
            _ => Err(count_fault(&mut self.send_faults)),
        }
    }
}
