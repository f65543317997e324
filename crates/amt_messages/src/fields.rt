//! Fields by their places.

ghost use Rattle.std.specs.Prelude.{◌≡◌, ◌+◌, ◌<◌, ◌≤◌, ◌⊎◌, drop, take, length};
ghost use Rattle.amt_messages.specs.{Layout.{gateway_at, has_flag}, Refusal.{relay_at}};

use amt_values::{Endpoint, Ip, Mac48, u16_at, u32_at, u128_at};

// Whether a flag is set, by its bit in the second octet.
fn has_flag(bytes: &[u8], bit: u32) -> bool
    requires octet { 2 ≤ length bytes.now }
    requires bit { bit < 8 }
    ensures { result ≡ has_flag bit bytes.now }
{
    bytes[1] >> bit & 1 == 1
}

// The P flag of a Request.
pub fn asks_for_ipv6(bytes: &[u8]) -> bool
    requires { 2 ≤ length bytes.now }
    ensures { result ≡ has_flag 0 bytes.now }
{
    has_flag(bytes, 0)
}

// The L flag of a Query.
pub fn is_limited(bytes: &[u8]) -> bool
    requires { 2 ≤ length bytes.now }
    ensures { result ≡ has_flag 1 bytes.now }
{
    has_flag(bytes, 1)
}

// The G flag of a Query.
pub fn names_gateway(bytes: &[u8]) -> bool
    requires { 2 ≤ length bytes.now }
    ensures { result ≡ has_flag 0 bytes.now }
{
    has_flag(bytes, 0)
}

pub fn relay_at(bytes: &[u8]) -> Ip
    requires { (length bytes.now ≡ 12) ⊎ (length bytes.now ≡ 24) }
    ensures { result ≡ relay_at bytes.now }
{
    if bytes.len() == 12 {
        Ip::V4(u32_at(bytes, 8))
    } else {
        Ip::V6(u128_at(bytes, 8))
    }
}

pub fn mac_at(bytes: &[u8], place: usize) -> Mac48
    requires { place + 6 ≤ length bytes.now }
    ensures { result.0 ≡ take 6 (drop place bytes.now) }
{
    let (_, rest) = bytes.split_at(place);
    let (field, _) = rest.split_at(6);
    let mut octets = [0; 6];
    octets.copy_from_slice(field);
    Mac48(octets)
}

// The endpoint that the port and the address after an inner datagram name.
pub fn gateway_at(bytes: &[u8], inner: usize) -> Endpoint
    requires { 12 + inner + 18 ≤ length bytes.now }
    ensures { result ≡ gateway_at inner bytes.now }
{
    Endpoint::named(u128_at(bytes, 14 + inner), u16_at(bytes, 12 + inner))
}
