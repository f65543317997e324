//! IP addresses, and the one number that stands for each in 16 octets.

ghost use Rattle.std.specs.Prelude.{◌≡◌, false};
ghost use Rattle.amt_values.specs.Address.{IsAddress, is_mapped, number_of, address_of, has_ipv4_prefix};

/// An IP address: its 32 or 128 bits as a number, the first octet highest.
///
/// Addresses are ordered with IPv4 before IPv6, and then by number.
#[derive(Clone, Copy, Debug, PartialEq, Eq, PartialOrd, Ord)]
pub enum Ip {
    V4(u32),
    V6(u128),
}

/// The address as 16 octets carry it: IPv4 stands after 96 zero bits.
pub fn wire16(ip: &Ip) -> u128
    ensures address { IsAddress ip.now }
    ensures value { result ≡ number_of ip.now }
    ensures one_form { has_ipv4_prefix ip.now ≡ false → is_mapped result ≡ false }
{
    match *ip {
        Ip::V4(number) => number as u128,
        Ip::V6(number) => number,
    }
}

/// The address that 16 octets carry.
///
/// The IPv4-compatible and the IPv4-mapped form (RFC 4291, section 2.5.5) both name an IPv4
/// address, so a peer may send either.
pub fn from_wire16(number: u128) -> Ip
    ensures { result ≡ address_of number }
{
    match number >> 32 {
        0 | 0xffff => Ip::V4((number & 0xffff_ffff) as u32),
        _ => Ip::V6(number),
    }
}

// An IPv6 address in one of the two prefixes that stand for IPv4 addresses.
pub fn has_ipv4_prefix(ip: &Ip) -> bool
    ensures { result ≡ has_ipv4_prefix ip.now }
{
    match *ip {
        Ip::V4(_) => false,
        Ip::V6(number) => number >> 32 == 0 || number >> 32 == 0xffff,
    }
}
