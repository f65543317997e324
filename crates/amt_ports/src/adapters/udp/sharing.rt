//! Two sockets at one address and port.

use super::options::{checked, let_share};
use libc::net::{AF_INET, AF_INET6, SOCK_CLOEXEC, SOCK_DGRAM, bind, getsockname, socket};
use os::FromRawFd;
use std::io;
use std::net::{SocketAddr, UdpSocket};
use std::os::fd::AsRawFd;

/// One more socket at the address and port of this one. What comes there goes to the new one, which was
/// bound last (socket(7), `SO_REUSEADDR`); what came before stays in the first one. Both may share them
/// with others while this is done, and with nobody afterwards.
pub(crate) fn socket_beside(first: &UdpSocket) -> io::Result<UdpSocket> {
    let second = new_socket(first.local_addr()?)?;
    let_share(first, true)?;
    let_share(&second, true)?;
    bind_as(&second, first)?;
    let_share(first, false)?;
    let_share(&second, false)?;
    Ok(second)
}

// A socket of the address's family, at no address yet.
fn new_socket(address: SocketAddr) -> io::Result<UdpSocket> {
    let kind = SOCK_DGRAM | SOCK_CLOEXEC;
    let fd = match address {
        SocketAddr::V4(_) => unsafe { socket(AF_INET, kind, 0) },
        SocketAddr::V6(_) => unsafe { socket(AF_INET6, kind, 0) },
    };
    checked(fd)?;
    Ok(unsafe { UdpSocket::from_raw_fd(fd) })
}

// Gives a socket the address and port of another one.
fn bind_as(second: &UdpSocket, first: &UdpSocket) -> io::Result<()> {
    let mut address = [0; 128];
    let mut length = 128;
    checked(unsafe { getsockname(first.as_raw_fd(), &mut address, &mut length) })?;
    checked(unsafe { bind(second.as_raw_fd(), &address, length.min(128)) })
}
