//! The header of an IPv4 datagram is read here.

ghost use Rattle.std.specs.Prelude.{◌≡◌, ◌≤◌, ◌∷◌, [], length, IfOk};
ghost use Rattle.amt_values.specs.Conditions.{first_holding, unless};
ghost use Rattle.inner_datagrams.specs.{Fault.{faults4, fragment, header_faults, header_length_faults, length_faults, other_protocol, wrong_header_sum}, Header.{header_octets}, Reading.{inner4_at}};

use crate::checksum::{expected_sum, has_right_sum};
use crate::inner::{Inner, InnerFault, total_fault};
use amt_values::{INPUT_LIMIT, Ip, u16_at, u32_at};

// The octets of the header, if as many as it states are there.
fn stated_header(bytes: &[u8]) -> Result<usize, InnerFault>
    requires { length bytes.now ≤ INPUT_LIMIT }
    ensures value { result
        ≡ unless (first_holding (header_length_faults bytes.now)) (header_octets bytes.now) }
    ensures least { IfOk result (λ end. 20 ≤ end) }
    ensures most { IfOk result (λ end. end ≤ 60) }
    ensures within { IfOk result (λ end. end ≤ length bytes.now) }
{
    let have = bytes.len() as u32;
    if have < 20 {
        return Err(InnerFault::ShortHeader(20, have));
    }
    let words = bytes[0] & 15;
    if words < 5 {
        return Err(InnerFault::HeaderLength(words));
    }
    let need = 4 * words as u32;
    if have < need {
        return Err(InnerFault::ShortHeader(need, have));
    }
    Ok(need as usize)
}

// Where the header ends, if the lengths that it states are those of the bytes.
fn header_end(bytes: &[u8]) -> Result<usize, InnerFault>
    requires { length bytes.now ≤ INPUT_LIMIT }
    ensures value { result
        ≡ unless (first_holding (length_faults bytes.now)) (header_octets bytes.now) }
    ensures least { IfOk result (λ end. 20 ≤ end) }
    ensures most { IfOk result (λ end. end ≤ 60) }
    ensures within { IfOk result (λ end. end ≤ length bytes.now) }
{
    let end = stated_header(bytes)?;
    match total_fault(u16_at(bytes, 2) as u32, bytes) {
        Some(fault) => Err(fault),
        None => Ok(end),
    }
}

// The fault that the words of the header, which ends there, don't add up.
fn sum_fault(bytes: &[u8], end: usize) -> Option<InnerFault>
    requires least { 20 ≤ end }
    requires most { end ≤ 60 }
    requires within { end ≤ length bytes.now }
    requires end { end ≡ header_octets bytes.now }
    ensures { result ≡ first_holding (wrong_header_sum bytes.now ∷ []) }
{
    let (header, _) = bytes.split_at(end);
    if has_right_sum(header) {
        return None;
    }
    let want = expected_sum(header);
    Some(InnerFault::HeaderSum(want, u16_at(bytes, 10)))
}

// The fault that more fragments follow or others come before.
fn fragment_fault(bytes: &[u8]) -> Option<InnerFault>
    requires { 20 ≤ length bytes.now }
    ensures { result ≡ first_holding (fragment bytes.now ∷ []) }
{
    match u16_at(bytes, 6) & 0x3fff {
        0 => None,
        bits => Some(InnerFault::Fragment(bits)),
    }
}

// The fault of another protocol than IGMP.
fn protocol_fault(protocol: u8) -> Option<InnerFault>
    ensures { result ≡ first_holding (other_protocol protocol ∷ []) }
{
    match protocol {
        2 => None,
        _ => Some(InnerFault::Protocol(protocol)),
    }
}

// The first fault of a header that ends there: a wrong checksum, a fragment, another protocol.
fn header_fault(bytes: &[u8], end: usize) -> Option<InnerFault>
    requires least { 20 ≤ end }
    requires most { end ≤ 60 }
    requires within { end ≤ length bytes.now }
    requires end { end ≡ header_octets bytes.now }
    ensures { result ≡ first_holding (header_faults bytes.now) }
{
    if let Some(fault) = sum_fault(bytes, end) {
        return Some(fault);
    }
    if let Some(fault) = fragment_fault(bytes) {
        return Some(fault);
    }
    protocol_fault(bytes[9])
}

// The IPv4 datagram that the bytes are, or their first fault.
pub fn read_inner4(bytes: &[u8]) -> Result<Inner, InnerFault>
    requires { length bytes.now ≤ INPUT_LIMIT }
    ensures { result
        ≡ unless (first_holding (faults4 bytes.now)) (inner4_at bytes.now) }
{
    let start = header_end(bytes)?;
    match header_fault(bytes, start) {
        Some(fault) => Err(fault),
        None => Ok(Inner {
            source: Ip::V4(u32_at(bytes, 12)),
            destination: Ip::V4(u32_at(bytes, 16)),
            start,
            end: bytes.len(),
        }),
    }
}
