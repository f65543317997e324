//! The orders of addresses and endpoints, for those who keep them in order.

ghost use Rattle.std.specs.{Prelude.{◌≡◌}, Cmp.{IsTotalOrder}, declared.cmp.Ordering.TheVariants.{Equal}};
ghost use Rattle.amt_values.specs.Order.{ip_order, endpoint_order};

use crate::address::Ip;
use crate::endpoint::Endpoint;
use std::cmp::Ordering;

/// The order of addresses, which is that of `<`: IPv4 before IPv6, then by number.
pub fn order_of_ips(one: &Ip, other: &Ip) -> Ordering
    ensures value { result ≡ ip_order one.now other.now }
    ensures total { IsTotalOrder ip_order }
    ensures exact { result ≡ Equal → one.now ≡ other.now }
{
    one.cmp(other)
}

/// The order of endpoints, which is that of `<`: by address, then port.
pub fn order_of_endpoints(one: &Endpoint, other: &Endpoint) -> Ordering
    ensures value { result ≡ endpoint_order one.now other.now }
    ensures total { IsTotalOrder endpoint_order }
    ensures exact { result ≡ Equal → one.now ≡ other.now }
{
    one.cmp(other)
}
