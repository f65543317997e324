//! The Internet checksum of octets, and whether it is right.

ghost use Rattle.std.specs.Prelude.{◌≡◌, ◌≤◌, ◌%◌, ◌↔◌, length};
ghost use Rattle.inner_datagrams.specs.{Checksum.{internet_sum_of, has_right_sum}, Header.{with_zero_sum}};

use crate::around::internet_sum_around;
use amt_values::INPUT_LIMIT;

// Adds what a sum carries beyond 16 bits in at its low end, until nothing is carried. This keeps
// the remainder by ffff, but ffff and 0 share one: only a sum of 0 may become 0.
fn carried_around(mut sum: u64) -> u16
    ensures same_remainder { result % 65535 ≡ sum % 65535 }
    ensures zero { (result ≡ 0) ↔ (sum ≡ 0) }
{
    while sum > 0xffff {
        sum = (sum & 0xffff) + (sum >> 16);
    }
    sum as u16
}

/// The Internet checksum of RFC 1071: the one's complement of the one's complement sum of the
/// words of 16 bits, where a zero follows an odd last octet.
pub fn internet_sum(bytes: &[u8]) -> u16
    requires { length bytes.now ≤ INPUT_LIMIT }
    ensures { result ≡ internet_sum_of bytes.now }
{
    let (pairs, odd) = bytes.as_chunks::<2>();
    let mut sum = 0u64;
    for pair in pairs {
        sum += u64::from(u16::from_be_bytes(*pair));
    }
    let last = odd.first().copied().unwrap_or(0);
    !carried_around(sum + (u64::from(last) << 8))
}

// All words, the checksum among them, add up to ffff.
pub fn has_right_sum(bytes: &[u8]) -> bool
    requires { length bytes.now ≤ INPUT_LIMIT }
    ensures { result ≡ has_right_sum bytes.now }
{
    internet_sum(bytes) == 0
}

// The checksum that a header is meant to have: that of its octets with a zero in its place.
pub fn expected_sum(header: &[u8]) -> u16
    requires least { 12 ≤ length header.now }
    requires most { length header.now ≤ INPUT_LIMIT }
    ensures { result ≡ internet_sum_of (with_zero_sum header.now) }
{
    let (prefix, _) = header.split_at(10);
    let (_, suffix) = header.split_at(12);
    internet_sum_around(&[], prefix, suffix)
}
