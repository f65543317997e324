//! Peers from and to std's socket addresses.

ghost use Rattle.std.specs.{Prelude.{◌≡◌}, Net.Socket.{socket_ip, socket_port}};
ghost use Rattle.amt_ports.specs.Peers.{IsStdAddress, source_ip, unmapped};

use amt_values::{Ip, Peer};
use std::net::{IpAddr, Ipv4Addr, Ipv6Addr, SocketAddr};

// A socket of both families names an IPv4 peer by its IPv4-mapped address. The IPv4-compatible addresses
// stay as they are, ::1 among them: they are no IPv4 addresses of a datagram's source.
fn unmapped(number: u128) -> Ip
    ensures { result ≡ unmapped number }
{
    if number >> 32 == 0xffff {
        Ip::V4((number & 0xffff_ffff) as u32)
    } else {
        Ip::V6(number)
    }
}

fn source_ip(address: IpAddr) -> Ip
    ensures { result ≡ source_ip address }
{
    match address {
        IpAddr::V4(address) => Ip::V4(address.to_bits()),
        IpAddr::V6(address) => unmapped(address.to_bits()),
    }
}

/// The peer that a datagram came from.
pub(crate) fn source_peer(source: SocketAddr) -> Peer
    ensures ip { result.ip ≡ source_ip (socket_ip source) }
    ensures port { result.port ≡ socket_port source }
{
    Peer {
        ip: source_ip(source.ip()),
        port: source.port(),
    }
}

fn std_address(ip: Ip) -> IpAddr
    ensures { IsStdAddress ip result }
{
    match ip {
        Ip::V4(number) => IpAddr::V4(Ipv4Addr::from_bits(number)),
        Ip::V6(number) => IpAddr::V6(Ipv6Addr::from_bits(number)),
    }
}

/// Where a socket sends to this peer. A peer names no scope, so a link-local one is reached only where
/// the system finds its link.
pub(crate) fn std_peer(peer: &Peer) -> SocketAddr
    ensures ip { IsStdAddress peer.now.ip (socket_ip result) }
    ensures port { socket_port result ≡ peer.now.port }
{
    SocketAddr::new(std_address(peer.ip), peer.port)
}
