//! Which multicast groups are forwarded.

ghost use Rattle.std.specs.Prelude.{◌≡◌};
ghost use Rattle.amt_values.specs.Group.{is_forwardable};

use crate::address::Ip;

/// Whether packets to this address are copied: a multicast group that may leave its link.
///
/// False for every unicast address, for 224.0.0.0/24 (RFC 5771, section 4), and for IPv6 groups of
/// the scopes 0, 1 and 2 (RFC 4291, section 2.7).
pub fn forwardable(group: &Ip) -> bool
    ensures { result ≡ is_forwardable group.now }
{
    match *group {
        Ip::V4(number) => number >> 28 == 0xe && number >> 8 != 0xe0_0000,
        Ip::V6(number) => number >> 120 == 0xff && number >> 112 & 0xf > 2,
    }
}
