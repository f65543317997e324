//! Addresses and peers as text.

ghost use Rattle.std.specs.{Prelude.{◌≡◌, ◌<◌, ◌^◌, ◌↔◌, ◌≢◌, ◌++◌, ℕ, List, All, IsFalse, IfOk, IfSome, Some, codes, decimal}, Fmt.{DisplaysOnOk}};
ghost use Rattle.amt_values.specs.{declared.{address.Ip.{Ip as IpValue, TheVariants.{V4, V6}}, peer.Peer.{Peer as PeerValue}}, Text.{v4_text, v6_text, ip_text, peer_text, IsPrintedIp, IsPrintedPeer, IsIpText, IsPeerText}};

use crate::address::Ip;
use crate::bytes::Bytes;
use crate::cut::{after_octet, cut_at};
use crate::numeral::parse_numeral;
use crate::peer::Peer;
use std::alloc::{AllocError, Global};
use std::fmt::{self, Display};
use std::net::{Ipv4Addr, Ipv6Addr};

#[tactic(auto, unfolding(std::specs::Net::Addr::IsIpv4OfBits))]
fn write_v4<W: fmt::Write>(number: u32, f: &mut fmt::Formatter<W>) -> fmt::Result
    ensures { DisplaysOnOk W.write_str_gives f.old result (Some (v4_text number)) f.new }
{
    Display::fmt(&Ipv4Addr::from_bits(number), f)
}

// The groups alone: the text of std's `Ipv6Addr` has a dotted tail for mapped addresses.
#[tactic(auto, unfolding(std::specs::Net::Addr::IsIpv6OfBits, crate::specs::Segments::address_segments))]
fn write_v6<W: fmt::Write>(number: u128, f: &mut fmt::Formatter<W>) -> fmt::Result
    ensures { DisplaysOnOk W.write_str_gives f.old result (Some (v6_text number)) f.new }
{
    Display::fmt(&Ipv6Addr::from_bits(number).hex_groups(), f)
}

/// Four decimal numbers for IPv4, groups of hexadecimal digits for IPv6.
///
/// An IPv6 address is printed as RFC 5952, section 4, recommends, and without a dotted tail also in
/// ::ffff:0:0/96. `parse_ip` reads the text as the address again.
impl Display for Ip {
    ghost use Rattle.std.specs.Prelude.{Some};
    ghost use Rattle.amt_values.specs.Text.{ip_text};

    ghost output = { λ ip. Some (ip_text ip) };

    fn fmt<W: fmt::Write>(&self, f: &mut fmt::Formatter<W>) -> fmt::Result {
        match *self {
            Ip::V4(number) => write_v4(number, f),
            Ip::V6(number) => write_v6(number, f),
        }
    }
}

/// `ADDRESS:PORT`, or `[ADDRESS]:PORT` for IPv6 (RFC 5952, section 6).
///
/// The address is as `Ip` prints it. `parse_peer` reads the text as the peer again.
impl Display for Peer {
    ghost use Rattle.std.specs.Prelude.{Some};
    ghost use Rattle.amt_values.specs.Text.{peer_text};

    ghost output = { λ peer. Some (peer_text peer) };

    fn fmt<W: fmt::Write>(&self, f: &mut fmt::Formatter<W>) -> fmt::Result {
        let address = self.ip;
        let port = self.port;
        match address {
            Ip::V4(_) => write!(f, "{address}:{port}"),
            Ip::V6(_) => write!(f, "[{address}]:{port}"),
        }
    }
}

// What is printed of an IPv4 address names it.
fn v4_text_names(number: u32)
    ensures { IsIpText (V4 number) (v4_text number) }
{}

// What is printed of an IPv6 address names it.
#[tactic(auto, using(crate::proofs::V6Texts::v6_printed))]
fn v6_text_names(number: u128)
    ensures { IsIpText (V6 number) (v6_text number) }
{}

/// What is printed of an address names it: `parse_ip` reads it as the address again. It does nothing when it runs.
pub fn ip_text_names(ip: &Ip)
    ensures { IsIpText ip.now (ip_text ip.now) }
{
    match *ip {
        Ip::V4(number) => v4_text_names(number),
        Ip::V6(number) => v6_text_names(number),
    }
}

/// The text of an address: four decimal numbers for IPv4, groups of hexadecimal digits for IPv6.
///
/// `parse_ip` reads it as the address again.
#[tactic(auto, using(crate::proofs::PrintedTexts::printed_ip))]
pub fn print_ip(alloc: Global, ip: &Ip) -> Result<Bytes, AllocError>
    ensures text { IfOk result (λ text. text ≡ ip_text ip.now) }
    ensures rule { (text : List ℕ) → IsPrintedIp ip.now text ↔ (text ≡ ip_text ip.now) }
    ensures back { IfOk result (IsIpText ip.now) }
{
    ip_text_names(ip);
    let mut text = Bytes::new(alloc);
    write!(text, "{ip}")?;
    Ok(text)
}

/// The text of a peer: `ADDRESS:PORT`, or `[ADDRESS]:PORT` for IPv6 (RFC 5952, section 6).
///
/// `parse_peer` reads it as the peer again.
pub fn print_peer(alloc: Global, peer: &Peer) -> Result<Bytes, AllocError>
    ensures text { IfOk result (λ text. text ≡ peer_text peer.now) }
    ensures rule { (text : List ℕ) → IsPrintedPeer peer.now text ↔ (text ≡ peer_text peer.now) }
    ensures back { IfOk result (IsPeerText peer.now) }
{
    let Peer { ip, port: _port } = *peer;
    ip_text_names(&ip);
    let mut text = Bytes::new(alloc);
    write!(text, "{peer}")?;
    Ok(text)
}

fn parse_v4(text: &[u8]) -> Option<u32>
    ensures found { IfSome result (λ number. IsIpText (V4 number) text.now) }
    ensures only { (number : ℕ) → IsIpText (V4 number) text.now → result ≡ Some number }
{
    match Ipv4Addr::parse_ascii(text) {
        Ok(address) => Some(address.to_bits()),
        Err(_) => None,
    }
}

fn has_dot(text: &[u8]) -> bool
    ensures { IsFalse result ↔ All (λ octet. octet ≢ 46) text.now }
{
    text.contains(&b'.')
}

fn parse_v6(text: &[u8]) -> Option<u128>
    ensures found { IfSome result (λ number. IsIpText (V6 number) text.now) }
    ensures only { (number : ℕ) → IsIpText (V6 number) text.now → result ≡ Some number }
{
    // std would read an IPv4 address as the last two groups
    if has_dot(text) {
        return None;
    }
    match Ipv6Addr::parse_ascii(text) {
        Ok(address) => Some(address.to_bits()),
        Err(_) => None,
    }
}

/// Reads an address.
///
/// IPv4 is four decimal numbers up to 255 without leading zeros, joined by dots. IPv6 is eight
/// groups of one to four hexadecimal digits of either case, joined by colons, or fewer with one
/// `::` in the place of at least one zero group (RFC 4291, section 2.2). No part of it is dotted
/// decimal, and no zone or bracket stands in it.
pub fn parse_ip(text: &[u8]) -> Option<Ip>
    ensures found { IfSome result (λ ip. IsIpText ip text.now) }
    ensures only { (ip : IpValue) → IsIpText ip text.now → result ≡ Some ip }
{
    if let Some(number) = parse_v4(text) {
        return Some(Ip::V4(number));
    }
    match parse_v6(text) {
        Some(number) => Some(Ip::V6(number)),
        None => None,
    }
}

fn parse_port(text: &[u8]) -> Option<u16>
    ensures found { IfSome result (λ port. text.now ≡ decimal port) }
    ensures only { (port : ℕ) → port < 2 ^ 16 → text.now ≡ decimal port → result ≡ Some port }
{
    match parse_numeral(text) {
        Ok(number) if number <= 65535 => Some(number as u16),
        _ => None,
    }
}

// Reads `ADDRESS:PORT`, which no bracket begins.
fn parse_plain_peer(text: &[u8]) -> Option<Peer>
    requires { (rest : List ℕ) → text.now ≢ codes "[" ++ rest }
    ensures found { IfSome result (λ peer. IsPeerText peer text.now) }
    ensures only { (peer : PeerValue) → IsPeerText peer text.now → result ≡ Some peer }
{
    let Some((address, port)) = cut_at(text, b':') else {
        return None;
    };
    let Some(number) = parse_v4(address) else {
        return None;
    };
    let Some(port) = parse_port(port) else {
        return None;
    };
    Some(Peer {
        ip: Ip::V4(number),
        port,
    })
}

// Reads what follows the bracket that opens `[ADDRESS]:PORT`.
fn parse_bracketed_peer(text: &[u8]) -> Option<Peer>
    ensures found { IfSome result (λ peer. IsPeerText peer (codes "[" ++ text.now)) }
    ensures only { (peer : PeerValue) → IsPeerText peer (codes "[" ++ text.now)
        → result ≡ Some peer }
{
    let Some((address, rest)) = cut_at(text, b']') else {
        return None;
    };
    let Some(port) = after_octet(rest, b':') else {
        return None;
    };
    let Some(number) = parse_v6(address) else {
        return None;
    };
    let Some(port) = parse_port(port) else {
        return None;
    };
    Some(Peer {
        ip: Ip::V6(number),
        port,
    })
}

/// Reads a peer as `ADDRESS:PORT` with an IPv4 address, or as `[ADDRESS]:PORT` with an IPv6 address
/// (RFC 5952, section 6).
///
/// The addresses are those that `parse_ip` reads, and the port is a decimal number up to 65535
/// without leading zeros.
pub fn parse_peer(text: &[u8]) -> Option<Peer>
    ensures found { IfSome result (λ peer. IsPeerText peer text.now) }
    ensures only { (peer : PeerValue) → IsPeerText peer text.now → result ≡ Some peer }
{
    match after_octet(text, b'[') {
        Some(rest) => parse_bracketed_peer(rest),
        None => parse_plain_peer(text),
    }
}
