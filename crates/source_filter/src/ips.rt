//! Addresses that own their memory, and their ascending order.

ghost use Rattle.std.specs.Prelude.{◌≡◌, IfOk};
ghost use Rattle.amt_values.specs.{Order.{ip_order}, Ascending.{IsAscending, difference, has, intersection}};
ghost use Rattle.source_filter.specs.Filter.{ascending_sources};

use amt_values::{Ip, Items};
use std::alloc::{AllocError, Global};

/// Addresses, in order.
pub type Ips = Items<Ip>;

/// The different addresses, ascending.
pub fn ascending_ips(mut addresses: Vec<Ip>) -> Ips
    ensures value { result ≡ ascending_sources addresses.items }
    ensures ascending { IsAscending ip_order result }
{
    addresses.sort_unstable();
    addresses.dedup();
    Ips::from(addresses)
}

/// Whether the address is one of these.
pub fn is_among(ascending: &[Ip], address: &Ip) -> bool
    requires { IsAscending ip_order ascending.now }
    ensures { result ≡ has ip_order ascending.now address.now }
{
    ascending.binary_search(address).is_ok()
}

/// The addresses of the first list that the second one has too.
pub fn intersection(alloc: Global, some: &[Ip], others: &[Ip]) -> Result<Ips, AllocError>
    requires ascending { IsAscending ip_order some.now }
    requires others { IsAscending ip_order others.now }
    ensures value { IfOk result (λ both. both ≡ intersection ip_order some.now others.now) }
    ensures ascending { IfOk result (IsAscending ip_order) }
{
    let mut both = Vec::from_slice(alloc, some)?;
    both.retain(|address| is_among(others, address));
    Ok(Ips::from(both))
}

/// The addresses of the first list that the second one lacks.
pub fn difference(alloc: Global, some: &[Ip], others: &[Ip]) -> Result<Ips, AllocError>
    requires ascending { IsAscending ip_order some.now }
    requires others { IsAscending ip_order others.now }
    ensures value { IfOk result (λ left. left ≡ difference ip_order some.now others.now) }
    ensures ascending { IfOk result (IsAscending ip_order) }
{
    let mut left = Vec::from_slice(alloc, some)?;
    left.retain(|address| !is_among(others, address));
    Ok(Ips::from(left))
}
