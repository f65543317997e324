//! IPv4 datagrams with IGMP are written here.

ghost use Rattle.std.specs.Prelude.{◌≡◌, ◌≤◌, length, IfOk};
ghost use Rattle.amt_values.specs.declared.address.Ip.TheVariants.{V4};
ghost use Rattle.inner_datagrams.specs.{Inner.{IsInner}, Written.{header4, written_inner4}};

use crate::checksum::internet_sum;
use crate::writing::{PAYLOAD_LIMIT, written_after};
use amt_values::Bytes;
use byteorder::{BigEndian, ByteOrder};
use std::alloc::{AllocError, Global};

// Version 4 and 6 words, type of service c0, no fragment, time to live 1, protocol 2 and Router
// Alert. The total length, the checksum and the addresses are filled in.
const HEADER: [u8; 24] = [
    0x46, 0xc0, 0, 0, 0, 0, 0, 0, 1, 2, 0, 0, 0, 0, 0, 0, 0, 0, 0, 0, 0x94, 4, 0, 0,
];

// The header with its own checksum.
fn header4(total_length: u16, source: u32, destination: u32) -> [u8; 24]
    ensures { result ≡ header4 total_length source destination }
{
    let mut header = HEADER;
    BigEndian::write_u16(&mut header[2..], total_length);
    BigEndian::write_u32(&mut header[12..], source);
    BigEndian::write_u32(&mut header[16..], destination);
    // The checksum is taken while its own place is still zero.
    let header_sum = internet_sum(&header);
    BigEndian::write_u16(&mut header[10..], header_sum);
    header
}

/// Writes an IPv4 datagram that carries an IGMP message, with the Router Alert option and a time
/// to live of 1 (RFC 3376, section 4).
pub fn write_inner4(
    alloc: Global,
    source: u32,
    destination: u32,
    payload: &[u8],
) -> Result<Bytes, AllocError>
    requires { length payload.now ≤ PAYLOAD_LIMIT }
    ensures written { IfOk result (λ bytes. bytes ≡ written_inner4 source destination payload.now) }
    ensures read_back { IfOk result (IsInner (V4 source) (V4 destination) payload.now) }
{
    let total_length = HEADER.len() + payload.len();
    let header = header4(total_length as u16, source, destination);
    written_after(alloc, &header, payload)
}
