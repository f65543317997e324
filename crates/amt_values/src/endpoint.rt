//! Tunnel endpoints and their one form.

ghost use Rattle.std.specs.Prelude.{◌≡◌, ◌↔◌, Some, IsNone, IfSome, true, false};

use crate::address::{from_wire16, has_ipv4_prefix, wire16};
use crate::peer::Peer;
use std::marker::Model;

/// A tunnel endpoint (RFC 7450): the gateway's address and port as the relay sees them.
///
/// Each endpoint has one form: of the two that an IPv4 address has in 16 octets, the one after 96
/// zero bits. The order is that of the addresses, and for one address that of the ports.
#[derive(Clone, Copy, Debug, PartialEq, Eq, PartialOrd, Ord)]
pub struct Endpoint {
    address: u128,
    port: u16,
}

impl Model for Endpoint {
    ghost use Rattle.std.specs.Prelude.{◌≡◌, false};
    ghost use Rattle.amt_values.specs.{Address.{is_mapped}, EndpointValue.{EndpointValue}};

    ghost Value = { EndpointValue };

    ghost view = { λ e. record { address = e.address; port = e.port } };

    ghost invariant = { λ e. is_mapped e.address ≡ false };

    ghost inverse = { λ t. record { address = t.address; port = t.port } };
}

impl Endpoint {
    ghost use Rattle.amt_values.specs.{declared.peer.Peer.{Peer}, Address.{IsAddress, is_mapped, has_ipv4_prefix}, Endpoint.{endpoint_of, endpoint_named, peer_of}};

    /// The endpoint of a datagram's source.
    ///
    /// None for an IPv6 source in ::/96 or ::ffff:0:0/96: as an IPv4 address it would claim the
    /// tunnel of another host.
    pub fn of(peer: &Peer) -> Option<Endpoint>
        ensures value { result ≡ endpoint_of peer.now }
        ensures none { IsNone result ↔ (has_ipv4_prefix peer.now.ip ≡ true) }
        ensures back { IfSome result (λ tunnel. peer_of tunnel ≡ peer.now) }
        ensures one_peer { IfSome result
            (λ tunnel. (other : Peer) → IsAddress other.ip
            → endpoint_of other ≡ Some tunnel → other ≡ peer.now) }
    {
        if has_ipv4_prefix(&peer.ip) {
            return None;
        }
        Some(Endpoint {
            address: wire16(&peer.ip),
            port: peer.port,
        })
    }

    /// The endpoint that a message names by 16 octets and a port; the IPv4-mapped form names the
    /// IPv4 address.
    pub fn named(address: u128, port: u16) -> Endpoint
        ensures { result ≡ endpoint_named address port }
    {
        let address = if address >> 32 == 0xffff {
            address & 0xffff_ffff
        } else {
            address
        };
        Endpoint { address, port }
    }

    /// The peer to which datagrams for this endpoint go.
    pub fn peer(&self) -> Peer
        ensures value { result ≡ peer_of self.now }
        ensures back { endpoint_of result ≡ Some self.now }
    {
        Peer {
            ip: from_wire16(self.address),
            port: self.port,
        }
    }

    /// The address as 16 octets carry it.
    pub fn address(&self) -> u128
        ensures value { result ≡ self.now.address }
        ensures one_form { is_mapped result ≡ false }
    {
        self.address
    }

    pub fn port(&self) -> u16
        ensures { result ≡ self.now.port }
    {
        self.port
    }
}
