//! Numbers in network byte order at a place of some octets.

ghost use Rattle.std.specs.Prelude.{◌≡◌, ◌+◌, ◌≤◌, drop, length};
ghost use Rattle.byteorder.specs.Endian.{big_number};

use byteorder::{BigEndian, ByteOrder};

/// The number in the two octets from a place on.
pub fn u16_at(octets: &[u8], place: usize) -> u16
    requires { place + 2 ≤ length octets.now }
    ensures { result ≡ big_number 2 (drop place octets.now) }
{
    let (_, field) = octets.split_at(place);
    BigEndian::read_u16(field)
}

/// The number in the four octets from a place on.
pub fn u32_at(octets: &[u8], place: usize) -> u32
    requires { place + 4 ≤ length octets.now }
    ensures { result ≡ big_number 4 (drop place octets.now) }
{
    let (_, field) = octets.split_at(place);
    BigEndian::read_u32(field)
}

/// The number in the sixteen octets from a place on.
pub fn u128_at(octets: &[u8], place: usize) -> u128
    requires { place + 16 ≤ length octets.now }
    ensures { result ≡ big_number 16 (drop place octets.now) }
{
    let (_, field) = octets.split_at(place);
    BigEndian::read_u128(field)
}
