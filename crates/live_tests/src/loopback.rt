//! A socket of the loopback that our sockets talk to.
ghost use Rattle.std.specs.Prelude.{◌≡◌, IfOk, vec_len};

use amt_values::{Ip, Peer};
use std::alloc::{AllocError, Global};
use std::io;
use std::net::{IpAddr, Ipv4Addr, Net, SocketAddr, UdpSocket};
use std::time::Duration;

/// 127.0.0.1.
pub const LOOPBACK: u32 = 0x7f00_0001;

/// A port of the system's choice.
pub const ANY: Peer = Peer {
    ip: Ip::V4(LOOPBACK),
    port: 0,
};

/// A loopback takes no time; so long a wait is for a machine that is busy.
pub const WAIT_MS: u32 = 5_000;

/// So many octets.
pub fn buffer(alloc: Global, size: usize) -> Result<Vec<u8>, AllocError>
    ensures { IfOk result (λ octets. vec_len octets ≡ size) }
{
    vec![in alloc; 0u8; size]
}

fn address_of(port: u16) -> SocketAddr {
    SocketAddr::new(IpAddr::V4(Ipv4Addr::from_bits(LOOPBACK)), port)
}

/// The other end, at 127.0.0.1.
#[derive(Drop)]
pub struct FarEnd {
    socket: UdpSocket,
    /// Where it is.
    pub peer: Peer,
}

impl FarEnd {
    pub fn new<N: Net>(net: &N) -> io::Result<FarEnd> {
        let socket = UdpSocket::bind(net, address_of(0))?;
        socket.set_read_timeout(Some(Duration::from_secs(5)))?;
        let port = socket.local_addr()?.port();
        Ok(FarEnd {
            socket,
            peer: Peer { port, ..ANY },
        })
    }

    /// Sends these octets to this port of 127.0.0.1.
    pub fn send(&self, port: u16, octets: &[u8]) -> bool {
        self.socket.send_to(octets, address_of(port)).is_ok()
    }

    /// Whether these octets come, and come from this port of 127.0.0.1.
    pub fn takes(&self, port: u16, octets: &[u8]) -> bool {
        let mut buf = [0; 64];
        match self.socket.recv_from(&mut buf) {
            Ok((count, source)) => {
                count == octets.len() && source == address_of(port) && buf.starts_with(octets)
            }
            Err(_) => false,
        }
    }
}
