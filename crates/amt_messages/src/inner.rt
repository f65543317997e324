//! The length that an IP datagram states in its header.

ghost use Rattle.std.specs.Prelude.{◌≡◌, ◌≤◌, IfSome};
ghost use Rattle.amt_messages.specs.StatedLength.{inner_length_of, ipv4_length, ipv6_length};

use amt_values::u16_at;

// A stated length below the least header is no length.
fn ipv4_length(octets: &[u8]) -> Option<u32>
    ensures value { result ≡ ipv4_length octets.now }
    ensures least { IfSome result (λ length. 20 ≤ length) }
    ensures most { IfSome result (λ length. length ≤ 65535) }
{
    if octets.len() < 4 {
        return None;
    }
    let length = u16_at(octets, 2);
    if length < 20 {
        None
    } else {
        Some(length as u32)
    }
}

fn ipv6_length(octets: &[u8]) -> Option<u32>
    ensures value { result ≡ ipv6_length octets.now }
    ensures least { IfSome result (λ length. 40 ≤ length) }
    ensures most { IfSome result (λ length. length ≤ 65575) }
{
    if octets.len() < 6 {
        return None;
    }
    Some(40 + u16_at(octets, 4) as u32)
}

/// The length of the IP datagram at the head of the octets, as its own header states it.
///
/// None where the octets end before the length field, or begin no IP datagram. The octets may be
/// fewer or more than the length says.
#[tactic(auto, unfolding(crate::specs::StatedLength::inner_length_of))]
pub fn inner_length(octets: &[u8]) -> Option<u32>
    ensures value { result ≡ inner_length_of octets.now }
    ensures least { IfSome result (λ length. 20 ≤ length) }
    ensures most { IfSome result (λ length. length ≤ 65575) }
{
    let Some(first) = octets.first() else {
        return None;
    };
    match *first >> 4 {
        4 => ipv4_length(octets),
        6 => ipv6_length(octets),
        _ => None,
    }
}
