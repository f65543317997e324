//! A UDP socket as a feed.

ghost use Rattle.std.specs.Prelude.{◌≡◌, ◌≢◌, ◌≤◌, None, length, IfOk};
ghost use Rattle.amt_ports.specs.{Arrivals.{IsShortFeedGot}, Causes.{HasCause}, RealDevices.{feed_failed}};

use super::sources::source_peer;
use super::watch::WatchedSocket;
use crate::fault::count_fault;
use crate::{Failed, Feed, FeedGot};
use amt_values::Peer;
use std::io;

/// The socket that packets come to, each as a datagram from whomever. It is never closed.
#[derive(Debug, Drop)]
pub struct UdpFeed {
    socket: WatchedSocket,
    faults: u64,
}

impl UdpFeed {
    pub(crate) fn new(socket: WatchedSocket) -> Self
        ensures { feed_failed result ≡ 0 }
    {
        UdpFeed { socket, faults: 0 }
    }

    /// The address and port that it listens at.
    pub fn local_peer(&self) -> io::Result<Peer> {
        Ok(source_peer(self.socket.own.local_addr()?))
    }

    /// How often a receiving has failed.
    pub fn faults(&self) -> u64
        ensures { result ≡ feed_failed self.now }
    {
        self.faults
    }
}

impl Feed for UdpFeed {
    ghost coming = { λ _. None };

    ghost faults = { feed_failed };

    ghost longest_wait = { λ _. 0 };

    fn recv(&mut self, buf: &mut [u8], wait_ms: u32) -> Result<FeedGot, Failed>
        requires room { 65536 ≤ length buf.old }
        requires wait { 1 ≤ wait_ms }
        ensures short { IfOk result IsShortFeedGot }
        ensures buffer { length buf.new ≡ length buf.old }
        ensures cause { HasCause (feed_failed self.old) (feed_failed self.new) result }

        ensures open { IfOk result (λ got. got ≢ FeedGot.Closed) }
    {
        match self.socket.recv(buf, wait_ms) {
            Ok(Some((count, _))) => Ok(FeedGot::Packet(count)),
            Ok(None) => Ok(FeedGot::Nothing),
            Err(_) => Err(count_fault(&mut self.faults)),
        }
    }
}
