//! Receiving without leaving another socket's datagrams lying.

ghost use Rattle.std.specs.Prelude.{◌≡◌, ◌≤◌, length, IfOk, IfSome};

use libc::net::{POLLIN, poll};
use libc::types::pollfd;
use std::io;
use std::io::{Error, ErrorKind};
use std::net::{SocketAddr, UdpSocket};
use std::os::fd::AsRawFd;

/// The most octets that are taken of a datagram: as many as its length field can say.
pub(crate) const DATAGRAM_SIZE: usize = 65_535;

/// A socket that is received from, and the one beside it, whose datagrams end its waits. Both are
/// non-blocking. The other one is a clone, so its descriptor is open for as long as it is waited for.
#[derive(Debug, Drop)]
pub(crate) struct WatchedSocket {
    pub(crate) own: UdpSocket,
    other: UdpSocket,
}

impl WatchedSocket {
    pub(crate) fn new(own: UdpSocket, other: UdpSocket) -> Self {
        WatchedSocket { own, other }
    }

    /// The next datagram and its source. There is none where the wait, of 0 ms or more, ended without one, where
    /// the other socket has one, or where a signal came.
    pub(crate) fn recv(
        &self,
        buf: &mut [u8],
        wait_ms: u32,
    ) -> io::Result<Option<(usize, SocketAddr)>>
        requires { DATAGRAM_SIZE ≤ length buf.old }
        ensures short { IfOk result (λ got. IfSome got (λ datagram. datagram.0 ≤ DATAGRAM_SIZE)) }
        ensures buffer { length buf.new ≡ length buf.old }
    {
        // A datagram that is there costs one call of the system.
        if let Some(datagram) = ask(&self.own, buf, DATAGRAM_SIZE)? {
            return Ok(Some(datagram));
        }
        if wait_ms == 0 {
            return Ok(None);
        }
        if self.wait(wait_ms)? {
            return ask(&self.own, buf, DATAGRAM_SIZE);
        }
        Ok(None)
    }

    // Waits for either socket, and says whether the own one has something.
    fn wait(&self, wait_ms: u32) -> io::Result<bool> {
        let mut sockets = [readiness(&self.own, POLLIN), readiness(&self.other, POLLIN)];
        let most = i32::try_from(wait_ms).unwrap_or(i32::MAX);
        wait_until_ready(&mut sockets, most)?;
        Ok(sockets[0].revents != 0)
    }
}

// Takes at most so many octets of the next datagram, where one is there.
fn ask(socket: &UdpSocket, buf: &mut [u8], most: usize) -> io::Result<Option<(usize, SocketAddr)>>
    requires { most ≤ length buf.old }
    ensures short { IfOk result (λ got. IfSome got (λ datagram. datagram.0 ≤ most)) }
    ensures buffer { length buf.new ≡ length buf.old }
{
    let (taken, _) = buf.split_at_mut(most);
    match socket.recv_from(taken) {
        Ok(datagram) => Ok(Some(datagram)),
        Err(error) => match error.kind() {
            ErrorKind::WouldBlock | ErrorKind::Interrupted => Ok(None),
            _ => Err(error),
        },
    }
}

/// What is asked of the system about a socket.
pub(crate) fn readiness(socket: &UdpSocket, events: i16) -> pollfd {
    pollfd {
        fd: socket.as_raw_fd(),
        events,
        revents: 0,
    }
}

/// Waits at most so many milliseconds for any of the sockets. A signal ends the wait, and is no fault.
pub(crate) fn wait_until_ready(sockets: &mut [pollfd], most_ms: i32) -> io::Result<()>
    ensures { length sockets.new ≡ length sockets.old }
{
    if poll(sockets, most_ms) < 0 {
        let error = Error::from_raw_os_error(os::errno());
        if error.kind() != ErrorKind::Interrupted {
            return Err(error);
        }
    }
    Ok(())
}
