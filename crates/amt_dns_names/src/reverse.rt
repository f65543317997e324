//! The name of an address in the reverse tree.

ghost use Rattle.std.specs.Prelude.{◌≡◌, ◌<◌, ◌≤◌, IfOk, length};
ghost use Rattle.amt_dns_names.specs.Name.{name_wire};
ghost use Rattle.amt_dns_names.specs.Reverse.{digit_above, digit_labels, digit_octet, octet_above, octet_labels, reverse_labels};

use crate::name::Name;
use amt_values::{Ip, print_numeral};
use std::alloc::{AllocError, Global};

// The octet that has so many below it.
fn octet_above(number: u32, below: u32) -> u8
    requires { below < 4 }
    ensures { result ≡ octet_above number below }
{
    ((number >> (8 * below)) & 255) as u8
}

// The hexadecimal digit that has so many below it.
fn digit_above(number: u128, below: u32) -> u8
    requires { below < 32 }
    ensures { result ≡ digit_above number below }
{
    ((number >> (4 * below)) & 15) as u8
}

// A hexadecimal digit, in lower case.
fn digit_octet(digit: u8) -> u8
    requires { digit < 16 }
    ensures { result ≡ digit_octet digit }
{
    if digit < 10 {
        b'0' + digit
    } else {
        b'a' - 10 + digit
    }
}

// The four octets in decimal, the last first.
#[tactic(auto, using(crate::proofs::Reverses::octet_steps))]
fn octet_name(alloc: Global, number: u32) -> Result<Name, AllocError>
    ensures labels { IfOk result (λ name. name ≡ octet_labels number 4) }
    ensures octets { IfOk result (λ name. length (name_wire name) ≤ 17) }
{
    let mut name = Name::root(alloc);
    for below in 0..4 {
        let label = print_numeral(alloc, u64::from(octet_above(number, below)))?;
        name.push(alloc, label.as_slice())?;
    }
    Ok(name)
}

// The 32 digits, the last first.
#[tactic(auto, using(crate::proofs::Reverses::digit_steps))]
fn digit_name(alloc: Global, number: u128) -> Result<Name, AllocError>
    ensures labels { IfOk result (λ name. name ≡ digit_labels number 32) }
    ensures octets { IfOk result (λ name. length (name_wire name) ≡ 65) }
{
    let mut name = Name::root(alloc);
    for below in 0..32 {
        let digit = digit_octet(digit_above(number, below));
        name.push(alloc, &[digit])?;
    }
    Ok(name)
}

/// The name under which a source's relays are asked for (RFC 8777, section 2): of IPv4 the four
/// decimal numbers, last first, before `in-addr.arpa` (RFC 1035, section 3.5); of IPv6 the 32
/// hexadecimal digits in lower case, last first, before `ip6.arpa` (RFC 3596, section 2.5).
pub fn reverse_name(alloc: Global, source: &Ip) -> Result<Name, AllocError>
    ensures { IfOk result (λ name. name ≡ reverse_labels source.now) }
{
    let (mut name, tree) = match *source {
        Ip::V4(number) => (octet_name(alloc, number)?, b"in-addr".as_slice()),
        Ip::V6(number) => (digit_name(alloc, number)?, b"ip6".as_slice()),
    };
    name.push(alloc, tree)?;
    name.push(alloc, b"arpa")?;
    Ok(name)
}
