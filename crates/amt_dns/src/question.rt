//! Names at their places, and the question of an answer.

ghost use Rattle.std.specs.{Prelude.{◌≡◌, ◌≢◌, ◌≤◌, ◌↔◌, length, map, IsTrue, IfOk, IfErr}, Str.{str_to_ascii_lowercase}};
ghost use Rattle.amt_dns_names.specs.NameAt.{HasNoNameAt, NameAt};
ghost use Rattle.amt_dns.specs.{declared.fault.DnsFault.{DnsFault as DnsFaultValue}, Answer.{IsQuestion}, Fault.{IsQuestionFault}};

use crate::fault::DnsFault;
use crate::head::is_of_relays;
use amt_dns_names::{Name, ReadName, read_name};
use amt_values::Bytes;
use std::alloc::Global;

/// Reads the name that has to begin at a place.
pub fn name_at(alloc: Global, bytes: &[u8], at: usize) -> Result<ReadName, DnsFault>
    requires few { length bytes.now ≤ 65535 }
    requires within { at ≤ length bytes.now }
    ensures named { IfOk result (λ read. NameAt bytes.now at read.name read.end) }
    ensures within { IfOk result (λ read. read.end ≤ length bytes.now) }
    ensures refused { IfErr result (λ fault. fault ≢ DnsFaultValue.Memory
        → (fault ≡ DnsFaultValue.Name at) × HasNoNameAt bytes.now at) }
{
    match read_name(alloc, bytes, at as u32) {
        Ok(Some(read)) => Ok(read),
        Ok(None) => Err(DnsFault::Name(at as u32)),
        Err(_) => Err(DnsFault::Memory),
    }
}

// Whether labels are the same but for the case of ASCII letters (RFC 1035, section 2.3.3).
fn are_alike(labels: &[Bytes], name: &[Bytes]) -> bool
    ensures { IsTrue result ↔ (map str_to_ascii_lowercase labels.now
        ≡ map str_to_ascii_lowercase name.now) }
{
    if labels.len() != name.len() {
        return false;
    }
    for (place, label) in labels.iter().enumerate() {
        let other = name[place].as_slice();
        if !label.as_slice().eq_ignore_ascii_case(other) {
            return false;
        }
    }
    true
}

/// Reads the question after the head, which asks for the relays of the name, and gives the place after it.
pub fn read_question(alloc: Global, bytes: &[u8], name: &Name) -> Result<usize, DnsFault>
    requires few { length bytes.now ≤ 65535 }
    requires head { 12 ≤ length bytes.now }
    ensures question { IfOk result (IsQuestion name.now bytes.now) }
    ensures within { IfOk result (λ end. end ≤ length bytes.now) }
    ensures refused { IfErr result (λ fault. fault ≢ DnsFaultValue.Memory
        → IsQuestionFault name.now bytes.now fault) }
{
    let read = name_at(alloc, bytes, 12)?;
    let behind = read.end as usize;
    if are_alike(read.name.labels(), name.labels()) && is_of_relays(bytes, behind) {
        Ok(behind + 4)
    } else {
        Err(DnsFault::Question)
    }
}
