//! The data of a record of relays.

ghost use Rattle.std.specs.Prelude.{◌≢◌, ◌+◌, ◌<◌, ◌≤◌, length, IfOk, IfErr, IfSome, IfNone};
ghost use Rattle.amt_dns.specs.{declared.fault.DnsFault.{DnsFault as DnsFaultValue}, Answer.{IsRelay, IsRelayData, relay_length, relay_type}, Fault.{IsDataFault}};

use crate::fault::DnsFault;
use crate::found::{Found, Relay};
use crate::question::name_at;
use amt_values::{Ip, u32_at, u128_at};
use std::alloc::Global;

// A relay of the types 0 to 2, if as many octets as it has stand from the place up to the end.
fn address_at(bytes: &[u8], kind: u8, at: usize, end: usize) -> Option<Relay>
    requires kind { kind ≤ 2 }
    requires order { at ≤ end }
    requires within { end ≤ length bytes.now }
    ensures some { IfSome result (IsRelay bytes.now kind at end) }
    ensures none { IfNone result (end ≢ at + relay_length kind) }
{
    match (kind, end - at) {
        (0, 0) => Some(Relay::None),
        (1, 4) => Some(Relay::At(Ip::V4(u32_at(bytes, at)))),
        (2, 16) => Some(Relay::At(Ip::V6(u128_at(bytes, at)))),
        _ => None,
    }
}

/// The relay in the data of a record, which begin and end at these places: nothing where the relay is of a type that
/// isn't known.
pub fn read_data(
    alloc: Global,
    bytes: &[u8],
    number: u32,
    begin: usize,
    end: usize,
) -> Result<Option<Found>, DnsFault>
    requires few { length bytes.now ≤ 65535 }
    requires order { begin ≤ end }
    requires within { end ≤ length bytes.now }
    ensures some { IfOk result (λ read. IfSome read (IsRelayData bytes.now begin end)) }
    ensures none { IfOk result (λ read. IfNone read
        ((begin + 2 ≤ end) × (3 < relay_type bytes.now begin))) }
    ensures refused { IfErr result (λ fault. fault ≢ DnsFaultValue.Memory
        → IsDataFault bytes.now number begin end fault) }
{
    if end - begin < 2 {
        return Err(DnsFault::Data(number));
    }
    let kind = bytes[begin + 1] % 128;
    let relay = match kind {
        0..=2 => {
            let Some(relay) = address_at(bytes, kind, begin + 2, end) else {
                return Err(DnsFault::Data(number));
            };
            relay
        }
        3 => {
            let read = name_at(alloc, bytes, begin + 2)?;
            if read.end as usize != end {
                return Err(DnsFault::Data(number));
            }
            Relay::Named(read.name)
        }
        _ => return Ok(None),
    };
    Ok(Some(Found {
        precedence: bytes[begin],
        direct: bytes[begin + 1] >= 128,
        relay,
    }))
}
