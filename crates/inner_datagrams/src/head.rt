//! The source and the group of a native packet.

ghost use Rattle.std.specs.Prelude.{◌≡◌, ◌≤◌, ◌∷◌, [], length, Err, IfNone, IfOk, MatchResult, None, Ok, Some};
ghost use Rattle.amt_values.specs.Conditions.{first_holding, unless};
ghost use Rattle.inner_datagrams.specs.{Head.{IsHead, first_head_fault, head4_at, head6_at, head_of, short_header}, declared.head.{Head.{Head as HeadValue}, HeadFault.{HeadFault as HeadFaultValue}}};

use amt_values::{INPUT_LIMIT, Ip, u32_at, u128_at};

/// The addresses of a native multicast packet, both of one family.
#[derive(Clone, Copy, Debug, PartialEq, Eq)]
pub struct Head {
    pub source: Ip,
    /// The destination of the packet.
    pub group: Ip,
}

/// Why octets have no head of a packet: the first of these that holds (RFC 791, section 3.1; RFC
/// 8200, section 3).
///
/// Where there is no octet, `ShortHeader` comes before `Version`; otherwise `Version`, and then
/// `ShortHeader` below 20 octets of IPv4 or 40 octets of IPv6.
#[derive(Clone, Copy, Debug, PartialEq, Eq)]
pub enum HeadFault {
    /// The version, the high half of the first octet, is none that is read.
    Version(u8),
    /// The octets end before the least header does. Both are lengths in octets: what is needed,
    /// and what is there.
    ShortHeader(u32, u32),
}

// The fault of fewer octets than a header needs.
fn short_header(need: u32, bytes: &[u8]) -> Option<HeadFault>
    requires { length bytes.now ≤ INPUT_LIMIT }
    ensures fault { result ≡ first_holding (short_header need bytes.now ∷ []) }
    ensures enough { IfNone result (need ≤ length bytes.now) }
{
    let have = bytes.len() as u32;
    if have < need {
        return Some(HeadFault::ShortHeader(need, have));
    }
    None
}

// The head of these addresses.
fn head_with(source: Ip, group: Ip) -> Head
    ensures source { result.source ≡ source }
    ensures group { result.group ≡ group }
{
    Head { source, group }
}

// The head of an IPv4 packet, if its least header is there.
fn head4(bytes: &[u8]) -> Result<Head, HeadFault>
    requires { length bytes.now ≤ INPUT_LIMIT }
    ensures { result
        ≡ unless (first_holding (short_header 20 bytes.now ∷ [])) (head4_at bytes.now) }
{
    match short_header(20, bytes) {
        Some(fault) => Err(fault),
        None => Ok(head_with(Ip::V4(u32_at(bytes, 12)), Ip::V4(u32_at(bytes, 16)))),
    }
}

// The head of an IPv6 packet, if its header is there.
fn head6(bytes: &[u8]) -> Result<Head, HeadFault>
    requires { length bytes.now ≤ INPUT_LIMIT }
    ensures { result
        ≡ unless (first_holding (short_header 40 bytes.now ∷ [])) (head6_at bytes.now) }
{
    match short_header(40, bytes) {
        Some(fault) => Err(fault),
        None => Ok(head_with(Ip::V6(u128_at(bytes, 8)), Ip::V6(u128_at(bytes, 24)))),
    }
}

// The head of a packet of either version.
#[tactic(auto, unfolding(crate::specs::Head::first_head_fault))]
fn read_head(bytes: &[u8]) -> Result<Head, HeadFault>
    requires { length bytes.now ≤ INPUT_LIMIT }
    ensures { result ≡ head_of bytes.now }
{
    let Some(first) = bytes.first() else {
        return Err(HeadFault::ShortHeader(20, 0));
    };
    match *first >> 4 {
        4 => head4(bytes),
        6 => head6(bytes),
        version => Err(HeadFault::Version(version)),
    }
}

/// Reads the source and the group of a native multicast packet.
///
/// Nothing else of it is checked: it is copied as it stands, so that a fragment's addresses are
/// read as those of any other packet, and a wrong length or checksum is left to its receiver (RFC
/// 791, section 3.1; RFC 8200, section 3). The faults are tried in the order of `HeadFault`.
pub fn packet_head(bytes: &[u8]) -> Result<Head, HeadFault>
    requires { length bytes.now ≤ INPUT_LIMIT }
    ensures found { IfOk result (λ head. IsHead head bytes.now) }
    ensures only { (head : HeadValue) → IsHead head bytes.now → result ≡ Ok head }

    ensures refused { MatchResult result (λ _. first_head_fault bytes.now ≡ None)
        (λ fault. first_head_fault bytes.now ≡ Some fault) }
    ensures fault { (fault : HeadFaultValue)
        → first_head_fault bytes.now ≡ Some fault → result ≡ Err fault }

    ensures value { result ≡ head_of bytes.now }
{
    read_head(bytes)
}
