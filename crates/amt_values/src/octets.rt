//! Addresses in 16 octets, in network order.

ghost use Rattle.std.specs.Prelude.{◌≡◌};
ghost use Rattle.byteorder.specs.Endian.{big_number, big_bytes};

use byteorder::{BigEndian, ByteOrder};

/// The number that 16 octets carry in network byte order.
pub fn address_of_octets(octets: &[u8; 16]) -> u128
    ensures number { result ≡ big_number 16 octets.now }
    ensures octets { octets.now ≡ big_bytes 16 result }
{
    BigEndian::read_u128(octets)
}

/// The 16 octets that carry a number in network byte order.
pub fn octets_of_address(address: u128) -> [u8; 16]
    ensures octets { result ≡ big_bytes 16 address }
    ensures number { big_number 16 result ≡ address }
{
    address.to_be_bytes()
}
