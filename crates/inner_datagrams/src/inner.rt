//! What is read of an inner datagram, and its faults.

ghost use Rattle.std.specs.Prelude.{◌≡◌, ◌≤◌, ◌∷◌, [], length};
ghost use Rattle.amt_values.specs.Conditions.{first_holding};
ghost use Rattle.inner_datagrams.specs.Fault.{wrong_total};

use amt_values::{INPUT_LIMIT, Ip};

/// An IP datagram that carries membership messages, read in place.
#[derive(Clone, Copy, Debug, PartialEq, Eq)]
pub struct Inner {
    pub source: Ip,
    pub destination: Ip,
    /// The place of the payload's first octet, after the headers and their options.
    pub start: usize,
    /// The place after the payload's last octet.
    pub end: usize,
}

/// Why octets are no inner datagram: the first of these that holds (RFC 791, section 3.1; RFC 8200,
/// sections 3 and 4).
///
/// Where there is no octet, `ShortHeader` comes before `Version`; otherwise the version, 4 or 6,
/// decides what is tried then. IPv4: `ShortHeader` below 20 octets, `HeaderLength`, `ShortHeader`
/// below the header's own length, `TotalLength`, `HeaderSum`, `Fragment`, `Protocol`. IPv6:
/// `ShortHeader` below 40 octets, `TotalLength`, `ShortHeader` below 48 octets and then below the
/// end of a hop-by-hop header, where there is one, and what follows the headers: `Fragment`,
/// `Extension`, `Protocol`. Of two numbers the first is wanted and the second is there.
#[derive(Clone, Copy, Debug, PartialEq, Eq)]
pub enum InnerFault {
    /// The version, the high half of the first octet, is none that is read.
    Version(u8),
    /// The octets end before the headers do. Both are lengths in octets.
    ShortHeader(u32, u32),
    /// The IPv4 header's length in words of 32 bits is below the least, 5.
    HeaderLength(u8),
    /// The length of the whole that the header states isn't the number of octets.
    TotalLength(u32, u32),
    /// The header's words don't add up: its checksum, taken with a zero in the field, and the field.
    HeaderSum(u16, u16),
    /// The datagram is a fragment: the flag "more fragments" and the offset, as the low 14 bits of
    /// their word; 0 of IPv6, where a fragment header follows.
    Fragment(u16),
    /// The protocol isn't IGMP, or what follows the headers of IPv6 isn't ICMPv6.
    Protocol(u8),
    /// Another extension header of IPv6 follows: a second one of hop-by-hop options, or one of the
    /// kinds 43, 51 and 60.
    Extension(u8),
}

// The fault that the length of the whole which a header states isn't that of the bytes.
pub fn total_fault(stated: u32, bytes: &[u8]) -> Option<InnerFault>
    requires { length bytes.now ≤ INPUT_LIMIT }
    ensures { result ≡ first_holding (wrong_total stated bytes.now ∷ []) }
{
    let have = bytes.len() as u32;
    if stated != have {
        return Some(InnerFault::TotalLength(stated, have));
    }
    None
}
