//! The checksum of a message around its own field.

ghost use Rattle.std.specs.Prelude.{◌≡◌, ◌≤◌, ◌%◌, ◌∷◌, ◌++◌, length};
ghost use Rattle.inner_datagrams.specs.Checksum.{ones_add, internet_sum_of};

use crate::checksum::internet_sum;
use amt_values::INPUT_LIMIT;

// One's complement addition of two words.
fn ones_add(one: u16, other: u16) -> u16
    ensures { result ≡ ones_add one other }
{
    let sum = u32::from(one) + u32::from(other);
    (sum % 0x10000 + sum / 0x10000) as u16
}

/// The checksum that belongs into a field of two octets between `prefix` and `suffix`, after a
/// pseudo-header that is summed and not sent (RFC 1071, section 1; RFC 8200, section 8.1).
///
/// The field stands at an even place, so the parts are summed where they stand.
pub fn internet_sum_around(pseudo_header: &[u8], prefix: &[u8], suffix: &[u8]) -> u16
    requires pseudo_header_even { length pseudo_header.now % 2 ≡ 0 }
    requires pseudo_header_limit { length pseudo_header.now ≤ INPUT_LIMIT }
    requires prefix_even { length prefix.now % 2 ≡ 0 }
    requires prefix_limit { length prefix.now ≤ INPUT_LIMIT }
    requires suffix_limit { length suffix.now ≤ INPUT_LIMIT }
    ensures { result ≡ internet_sum_of (pseudo_header.now ++ prefix.now ++ 0 ∷ 0 ∷ suffix.now) }
{
    let before = ones_add(!internet_sum(pseudo_header), !internet_sum(prefix));
    !ones_add(before, !internet_sum(suffix))
}
