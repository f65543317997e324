//! IPv6 datagrams with ICMPv6 are written here.

ghost use Rattle.std.specs.Prelude.{◌≡◌, ◌≤◌, length, IfOk};
ghost use Rattle.amt_values.specs.declared.address.Ip.TheVariants.{V6};
ghost use Rattle.inner_datagrams.specs.{Inner.{IsInner}, Written.{headers6, written_inner6}};

use crate::writing::{PAYLOAD_LIMIT, written_after};
use amt_values::Bytes;
use byteorder::{BigEndian, ByteOrder};
use std::alloc::{AllocError, Global};

// ICMPv6 follows, after 8 octets with the option Router Alert and two octets of padding.
const HOP_BY_HOP: [u8; 8] = [58, 0, 5, 2, 0, 0, 1, 0];

// The IPv6 header, of version 6 and hop limit 1, and the hop-by-hop header that follows it.
fn headers6(payload_length: u16, source: u128, destination: u128) -> [u8; 48]
    ensures { result ≡ headers6 payload_length source destination }
{
    let mut headers = [0; 48];
    headers[0] = 0x60;
    headers[7] = 1;
    BigEndian::write_u16(&mut headers[4..], payload_length);
    BigEndian::write_u128(&mut headers[8..], source);
    BigEndian::write_u128(&mut headers[24..], destination);
    headers[40..].copy_from_slice(&HOP_BY_HOP);
    headers
}

/// Writes an IPv6 datagram that carries an MLD message, with the Router Alert option in a
/// hop-by-hop header and a hop limit of 1 (RFC 3810, section 5).
pub fn write_inner6(
    alloc: Global,
    source: u128,
    destination: u128,
    payload: &[u8],
) -> Result<Bytes, AllocError>
    requires { length payload.now ≤ PAYLOAD_LIMIT }
    ensures written { IfOk result (λ bytes. bytes ≡ written_inner6 source destination payload.now) }
    ensures read_back { IfOk result (IsInner (V6 source) (V6 destination) payload.now) }
{
    // The payload of the IPv6 header begins with the hop-by-hop header.
    let payload_length = HOP_BY_HOP.len() + payload.len();
    let headers = headers6(payload_length as u16, source, destination);
    written_after(alloc, &headers, payload)
}
