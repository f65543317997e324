//! A resource record.

ghost use Rattle.std.specs.Prelude.{◌≡◌, ◌≢◌, ◌+◌, ◌≤◌, ◌++◌, List, length, IfOk, IfErr, OnOk};
ghost use Rattle.amt_dns.specs.{declared.{fault.DnsFault.{DnsFault as DnsFaultValue}, found.Found.{Found as FoundValue}}, Answer.{IsRecord}, Fault.{IsRecordFault}};

use crate::fault::DnsFault;
use crate::found::FoundList;
use crate::head::{data_end, is_of_relays};
use crate::question::name_at;
use crate::relay::read_data;
use std::alloc::Global;

/// Reads the record that has this number and begins at this place, puts the relay that it names at the end of what
/// was found, and gives the place after it.
pub fn read_record(
    alloc: Global,
    bytes: &[u8],
    number: u32,
    at: usize,
    found: &mut FoundList,
) -> Result<usize, DnsFault>
    requires few { length bytes.now ≤ 65535 }
    requires within { at ≤ length bytes.now }
    ensures record { IfOk result (λ end. (last : List FoundValue)
        × (found.new ≡ found.old ++ last) × IsRecord bytes.now at last end) }
    ensures one { OnOk result (length found.new ≤ length found.old + 1) }
    ensures refused { IfErr result (λ fault. fault ≢ DnsFaultValue.Memory
        → IsRecordFault bytes.now number at fault) }
{
    let owner = name_at(alloc, bytes, at)?;
    let behind = owner.end as usize;
    let Some(end) = data_end(bytes, behind) else {
        return Err(DnsFault::Record(number));
    };
    if !is_of_relays(bytes, behind) {
        return Ok(end);
    }
    let Some(one) = read_data(alloc, bytes, number, behind + 10, end)? else {
        return Ok(end);
    };
    match found.push(one) {
        Ok(()) => Ok(end),
        Err(_) => Err(DnsFault::Memory),
    }
}
