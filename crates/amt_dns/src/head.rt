//! The head of an answer, and the fields after names.

ghost use Rattle.std.specs.Prelude.{◌≡◌, ◌+◌, ◌<◌, ◌≤◌, ◌↔◌, length, IsTrue, IfSome, IfNone};
ghost use Rattle.amt_values.specs.Conditions.{first_holding};
ghost use Rattle.amt_dns.specs.{Answer.{IsOfRelays, answer_count, data_end}, Fault.{head_faults}};

use crate::fault::DnsFault;
use amt_values::u16_at;

// The type AMTRELAY, 260 (RFC 8777, section 4.1), and the class IN, 1 (RFC 1035, section 3.2.4).
const RELAYS: [u8; 4] = [1, 4, 0, 1];

// The octets of a head (RFC 1035, section 4.1.1).
const HEAD: usize = 12;

/// What is wrong with the head, if anything.
pub fn head_fault(bytes: &[u8], id: u16) -> Option<DnsFault>
    requires { length bytes.now ≤ 65535 }
    ensures { result ≡ first_holding (head_faults id bytes.now) }
{
    if bytes.len() < HEAD {
        return Some(DnsFault::Short(HEAD as u32, bytes.len() as u32));
    }
    let have = u16_at(bytes, 0);
    if have != id {
        return Some(DnsFault::Id(id, have));
    }
    let flags = u16_at(bytes, 2);
    if flags >> 15 == 0 {
        return Some(DnsFault::NotAnswer);
    }
    if (flags >> 9) & 1 == 1 {
        return Some(DnsFault::Truncated);
    }
    let code = (flags & 15) as u8;
    if code != 0 {
        return Some(DnsFault::Code(code));
    }
    let questions = u16_at(bytes, 4);
    (questions != 1).then_some(DnsFault::Questions(questions))
}

/// How many answers the head counts.
pub fn answer_count(bytes: &[u8]) -> u16
    requires { 12 ≤ length bytes.now }
    ensures { result ≡ answer_count bytes.now }
{
    u16_at(bytes, 6)
}

/// Whether the type and the class at the place are those of relays.
pub fn is_of_relays(bytes: &[u8], at: usize) -> bool
    requires { at ≤ length bytes.now }
    ensures are { IsTrue result ↔ IsOfRelays bytes.now at }
    ensures within { IsTrue result → at + 4 ≤ length bytes.now }
{
    let (_, fields) = bytes.split_at(at);
    fields.starts_with(&RELAYS)
}

/// Where the data of the record end that has its fields from a place on, if all of it is there.
pub fn data_end(bytes: &[u8], behind: usize) -> Option<usize>
    requires { behind ≤ length bytes.now }
    ensures some { IfSome result (λ end. (end ≡ data_end bytes.now behind) × (end ≤ length bytes.now)) }
    ensures none { IfNone result (length bytes.now < data_end bytes.now behind) }
{
    if bytes.len() - behind < 10 {
        return None;
    }
    let end = behind + 10 + u16_at(bytes, behind + 8) as usize;
    (end <= bytes.len()).then_some(end)
}
