//! The headers of an IPv6 datagram are read here.

ghost use Rattle.std.specs.Prelude.{◌≡◌, ◌≤◌, length, IfOk};
ghost use Rattle.amt_values.specs.Conditions.{first_holding, unless};
ghost use Rattle.inner_datagrams.specs.{Fault.{faults6, hop_by_hop_faults, length_faults6, next_header_faults}, Header6.{headers_end6, hop_by_hop_end, hop_by_hop_next, last_next_header}, Reading.{inner6_at}};

use crate::inner::{Inner, InnerFault, total_fault};
use amt_values::{INPUT_LIMIT, Ip, u16_at, u128_at};

// Where a hop-by-hop header ends and what it says to follow, if all of it is there.
fn hop_by_hop(bytes: &[u8]) -> Result<(usize, u8), InnerFault>
    requires { length bytes.now ≤ INPUT_LIMIT }
    ensures value { result ≡ unless (first_holding (hop_by_hop_faults bytes.now))
        (hop_by_hop_end bytes.now, hop_by_hop_next bytes.now) }
    ensures least { IfOk result (λ headers. 40 ≤ headers.0) }
    ensures within { IfOk result (λ headers. headers.0 ≤ length bytes.now) }
{
    // Its length is read only where its least 8 octets are there.
    let have = bytes.len() as u32;
    if have < 48 {
        return Err(InnerFault::ShortHeader(48, have));
    }
    let need = 40 + 8 * (bytes[41] as u32 + 1);
    if have < need {
        return Err(InnerFault::ShortHeader(need, have));
    }
    Ok((need as usize, bytes[40]))
}

// Where the headers end and what the last of them says to follow, if the lengths that they state
// are those of the bytes.
fn headers(bytes: &[u8]) -> Result<(usize, u8), InnerFault>
    requires { length bytes.now ≤ INPUT_LIMIT }
    ensures value { result ≡ unless (first_holding (length_faults6 bytes.now))
        (headers_end6 bytes.now, last_next_header bytes.now) }
    ensures least { IfOk result (λ headers. 40 ≤ headers.0) }
    ensures within { IfOk result (λ headers. headers.0 ≤ length bytes.now) }
{
    let have = bytes.len() as u32;
    if have < 40 {
        return Err(InnerFault::ShortHeader(40, have));
    }
    if let Some(fault) = total_fault(40 + u16_at(bytes, 4) as u32, bytes) {
        return Err(fault);
    }
    match bytes[6] {
        0 => hop_by_hop(bytes),
        kind => Ok((40, kind)),
    }
}

// The fault of what follows the headers, where it isn't ICMPv6.
fn next_header_fault(kind: u8) -> Option<InnerFault>
    ensures { result ≡ first_holding (next_header_faults kind) }
{
    match kind {
        58 => None,
        44 => Some(InnerFault::Fragment(0)),
        0 | 43 | 51 | 60 => Some(InnerFault::Extension(kind)),
        _ => Some(InnerFault::Protocol(kind)),
    }
}

// The IPv6 datagram that the bytes are, or their first fault.
pub fn read_inner6(bytes: &[u8]) -> Result<Inner, InnerFault>
    requires { length bytes.now ≤ INPUT_LIMIT }
    ensures { result ≡ unless (first_holding (faults6 bytes.now)) (inner6_at bytes.now) }
{
    let (start, kind) = headers(bytes)?;
    match next_header_fault(kind) {
        Some(fault) => Err(fault),
        None => Ok(Inner {
            source: Ip::V6(u128_at(bytes, 8)),
            destination: Ip::V6(u128_at(bytes, 24)),
            start,
            end: bytes.len(),
        }),
    }
}
