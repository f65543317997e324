//! What sockets are set to.

ghost use Rattle.std.specs.Prelude.{◌≤ℤ◌, pos, IfOk};

use libc::net::{SO_RCVBUF, SO_REUSEADDR, SO_SNDBUF, SOL_SOCKET, setsockopt};
use std::io;
use std::io::Error;
use std::net::UdpSocket;
use std::os::fd::AsRawFd;

// What a receive buffer is asked to hold, in octets. The usual one holds fewer than a hundred large
// packets, about a millisecond of a fast feed, and a thread that is put aside for longer loses the rest.
const RECEIVE_BUFFER: i32 = 4 << 20;

// The same of a send buffer. What waits for a neighbour that doesn't answer counts against it for some
// three seconds, and the usual one holds no more than what may wait for a single neighbour.
const SEND_BUFFER: i32 = 4 << 20;

/// Asks for large buffers, to receive and to send. The system may grant less, and says nothing of it: a
/// smaller buffer is no fault.
pub(crate) fn ask_for_buffers(socket: &UdpSocket) -> io::Result<()> {
    let value = value_of(RECEIVE_BUFFER);
    checked(unsafe { setsockopt(socket.as_raw_fd(), SOL_SOCKET, SO_RCVBUF, &value, 4) })?;
    ask_for_send_buffer(socket)
}

/// The same of a socket that is never read.
pub(crate) fn ask_for_send_buffer(socket: &UdpSocket) -> io::Result<()> {
    let value = value_of(SEND_BUFFER);
    checked(unsafe { setsockopt(socket.as_raw_fd(), SOL_SOCKET, SO_SNDBUF, &value, 4) })
}

/// Whether another socket that is set so may have the same address and port.
pub(crate) fn let_share(socket: &UdpSocket, may_share: bool) -> io::Result<()> {
    let value = value_of(i32::from(may_share));
    checked(unsafe { setsockopt(socket.as_raw_fd(), SOL_SOCKET, SO_REUSEADDR, &value, 4) })
}

/// The system's error, where a call of it answered that it failed.
pub(crate) fn checked(status: i32) -> io::Result<()>
    ensures { IfOk result (λ _. pos 0 ≤ℤ status) }
{
    if status < 0 {
        return Err(Error::from_raw_os_error(os::errno()));
    }
    Ok(())
}

// An option's value, in the first octets.
fn value_of(number: i32) -> [u8; 16] {
    let mut value = [0; 16];
    let (first, _) = value.split_at_mut(4);
    first.copy_from_slice(&number.to_ne_bytes());
    value
}
