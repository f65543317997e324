//! A whole answer is read here.

ghost use Rattle.std.specs.Prelude.{◌≡◌, ◌≢◌, ℕ, ◌≤◌, List, length, Ok, Err, IfOk, IfErr};
ghost use Rattle.amt_dns.specs.{declared.{fault.DnsFault.{DnsFault as DnsFaultValue}, found.Found.{Found as FoundValue}}, Answer.{AreRecords, IsAnswer, IsHead}, Fault.{IsFaultAmong, IsFirstFault}};

use crate::fault::DnsFault;
use crate::found::FoundList;
use crate::head::{answer_count, head_fault};
use crate::question::read_question;
use crate::record::read_record;
use amt_dns_names::Name;
use std::alloc::Global;

// What that many records say, from a place on.
fn read_records(
    alloc: Global,
    bytes: &[u8],
    start: usize,
    count: u16,
) -> Result<FoundList, DnsFault>
    requires few { length bytes.now ≤ 65535 }
    requires within { start ≤ length bytes.now }
    ensures found { IfOk result (λ found. (end : ℕ) × AreRecords bytes.now start count found end) }
    ensures refused { IfErr result (λ fault. fault ≢ DnsFaultValue.Memory
        → IsFaultAmong bytes.now start count fault) }
    ensures few { IfOk result (λ found. length found ≤ count) }
{
    let mut found = FoundList::new(alloc);
    let mut at = start;
    for number in 0..count {
        at = read_record(alloc, bytes, u32::from(number), at, &mut found)?;
    }
    Ok(found)
}

/// Reads an answer of at most 65,535 octets to the query with this id for the relays of this name (RFC 1035,
/// section 4.1; RFC 8777, section 4.2).
///
/// The list has the relays of all records of type AMTRELAY and class IN, in their order; other records are passed
/// over, and so are relays of another type than 0 to 3. Owners' names are read, and may be any, since a name of the
/// reverse tree may be reached through others. What follows the answers may be any. The faults come in the order of
/// `DnsFault` for the head, and then in the order of the octets. Memory is asked once the head is read; running out
/// may come before a later fault.
pub fn read_answer(alloc: Global, bytes: &[u8], id: u16, name: &Name) -> Result<FoundList, DnsFault>
    requires { length bytes.now ≤ 65535 }
    ensures found { IfOk result (λ found. IsAnswer id name.now found bytes.now) }
    ensures only { (found : List FoundValue) → IsAnswer id name.now found bytes.now
        → result ≢ Err DnsFaultValue.Memory → result ≡ Ok found }
    ensures refused { IfErr result (λ fault. fault ≢ DnsFaultValue.Memory
        → IsFirstFault id name.now bytes.now fault) }
    ensures fault { (fault : DnsFaultValue) → IsFirstFault id name.now bytes.now fault
        → result ≢ Err DnsFaultValue.Memory → result ≡ Err fault }
    ensures memory { result ≡ Err DnsFaultValue.Memory → IsHead id bytes.now }
    ensures few { IfOk result (λ found. length found ≤ 65535) }
{
    if let Some(fault) = head_fault(bytes, id) {
        return Err(fault);
    }
    let start = read_question(alloc, bytes, name)?;
    read_records(alloc, bytes, start, answer_count(bytes))
}
