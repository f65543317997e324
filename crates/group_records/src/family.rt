//! What the two address families differ in.

ghost use Rattle.std.specs.Prelude.{◌≡◌, ◌≤◌, length};
ghost use Rattle.byteorder.specs.Endian.{big_number};
ghost use Rattle.group_records.specs.Family.{address_in, group_end, group_offset, older_kind, report_type, width};

use amt_values::Ip;
use byteorder::{BigEndian, ByteOrder};
use source_filter::RecordKind;

/// The address family of a report: its protocol, and the octets of an address in it.
#[derive(Clone, Copy, Debug, PartialEq, Eq)]
pub enum Family {
    /// IGMP, with addresses of 4 octets (RFC 3376).
    V4,
    /// MLD, with addresses of 16 octets (RFC 3810).
    V6,
}

// The octets of an address.
pub fn width(family: Family) -> usize
    ensures value { result ≡ width family }
    ensures most { result ≤ 16 }
{
    match family {
        Family::V4 => 4,
        Family::V6 => 16,
    }
}

// The address in the first octets.
pub fn first_address(family: Family, octets: &[u8]) -> Ip
    requires { width family ≤ length octets.now }
    ensures { result ≡ address_in family (big_number (width family) octets.now) }
{
    match family {
        Family::V4 => Ip::V4(BigEndian::read_u32(octets)),
        Family::V6 => Ip::V6(BigEndian::read_u128(octets)),
    }
}

// The type of a membership report of IGMPv3 or MLDv2.
pub fn report_type(family: Family) -> u8
    ensures { result ≡ report_type family }
{
    match family {
        Family::V4 => 0x22,
        Family::V6 => 0x8f,
    }
}

// What a message of this type says of its group, where it is one of IGMPv1, IGMPv2 or MLDv1.
pub fn older_kind(family: Family, kind: u8) -> Option<RecordKind>
    ensures { result ≡ older_kind family kind }
{
    match (family, kind) {
        (Family::V4, 0x12 | 0x16) | (Family::V6, 0x83) => Some(RecordKind::IsEx),
        (Family::V4, 0x17) | (Family::V6, 0x84) => Some(RecordKind::ToIn),
        _ => None,
    }
}

// The octets before the group, in a query and in such a message.
pub fn group_offset(family: Family) -> usize
    ensures value { result ≡ group_offset family }
    ensures most { result ≤ 8 }
{
    match family {
        Family::V4 => 4,
        Family::V6 => 8,
    }
}

// The octets up to the end of the group.
pub fn group_end(family: Family) -> usize
    ensures value { result ≡ group_end family }
    ensures most { result ≤ 24 }
{
    group_offset(family) + width(family)
}
