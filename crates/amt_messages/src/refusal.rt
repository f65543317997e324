//! Why octets are no message.

ghost use Rattle.std.specs.Prelude.{◌≡◌, ◌≤◌, ◌/◌, length, IfSome};
ghost use Rattle.amt_values.specs.Conditions.{first_holding};
ghost use Rattle.amt_messages.specs.{Layout.{query_length}, Refusal.{advertisement_length, first_refusal, is_open, is_unknown, lacks_inner, length_refusals, needed_length, query_need, stated_inner}};

use crate::fields::names_gateway;
use crate::inner::inner_length;

/// Why octets are no message: the first of these that holds, in this order.
///
/// Numbers are lengths in octets, needed and then found.
#[derive(Clone, Copy, Debug, PartialEq, Eq)]
pub enum Refused {
    /// There is no octet.
    Empty,
    /// The version, the high half of the first octet, isn't 0.
    Version(u8),
    /// The type, the low half of the first octet, is none of the standard's.
    Kind(u8),
    /// After the 12 octets of a Query's head no IP datagram states its length. A shorter head is
    /// `Short`.
    NoInner,
    Short(u32, u32),
    Long(u32, u32),
}

/// Why no message came of octets.
#[derive(Clone, Copy, Debug, PartialEq, Eq)]
pub enum DecodeFault {
    Refused(Refused),
    /// Nothing is refused, and there is no memory for the inner datagram or the packet.
    Memory,
}

fn version_of(first: u8) -> u8
    ensures { result ≡ first / 16 }
{
    first >> 4
}

fn is_unknown(kind: u8) -> bool
    ensures { result ≡ is_unknown kind }
{
    kind == 0 || kind > 7
}

fn is_open(kind: u8) -> bool
    ensures { result ≡ is_open kind }
{
    kind == 5 || kind == 6
}

// An Advertisement of more than 12 octets is meant to have an IPv6 address.
fn advertisement_length(have: u32) -> u32
    ensures { result ≡ advertisement_length have }
{
    if have <= 12 { 12 } else { 24 }
}

// The octets that a Query takes with an inner datagram of so many.
fn query_length(named: bool, inner: u32) -> u32
    requires { inner ≤ 65575 }
    ensures { result ≡ query_length named inner }
{
    if named { 12 + inner + 18 } else { 12 + inner }
}

// The length that the datagram after the head of a Query states.
#[tactic(auto, using(crate::proofs::InnerLength::short_states_none))]
pub fn stated_inner(bytes: &[u8]) -> Option<u32>
    ensures value { result ≡ stated_inner bytes.now }
    ensures head { IfSome result (λ _. 12 ≤ length bytes.now) }
    ensures most { IfSome result (λ length. length ≤ 65575) }
{
    if bytes.len() < 12 {
        return None;
    }
    let (_, rest) = bytes.split_at(12);
    inner_length(rest)
}

fn query_need(bytes: &[u8]) -> u32
    ensures { result ≡ query_need (stated_inner bytes.now) bytes.now }
{
    match stated_inner(bytes) {
        Some(inner) => query_length(names_gateway(bytes), inner),
        None => 12,
    }
}

fn needed_length(kind: u8, bytes: &[u8]) -> u32
    requires { length bytes.now ≤ 65535 }
    ensures { result ≡ needed_length kind bytes.now }
{
    match kind {
        1 => 8,
        2 => advertisement_length(bytes.len() as u32),
        3 => 8,
        4 => query_need(bytes),
        5 => 12,
        6 => 2,
        7 => 30,
        _ => 0,
    }
}

fn lacks_inner(kind: u8, bytes: &[u8]) -> bool
    ensures { result ≡ lacks_inner kind bytes.now }
{
    if kind != 4 {
        return false;
    }
    if bytes.len() < 12 {
        return false;
    }
    stated_inner(bytes).is_none()
}

// Of octets of a known type.
fn length_refusal(kind: u8, bytes: &[u8]) -> Option<Refused>
    requires { length bytes.now ≤ 65535 }
    ensures { result ≡ first_holding (length_refusals kind bytes.now) }
{
    if lacks_inner(kind, bytes) {
        return Some(Refused::NoInner);
    }
    let need = needed_length(kind, bytes);
    let have = bytes.len() as u32;
    if have < need {
        return Some(Refused::Short(need, have));
    }
    if is_open(kind) {
        return None;
    }
    if need < have {
        Some(Refused::Long(need, have))
    } else {
        None
    }
}

#[tactic(auto, unfolding(crate::specs::Refusal::first_refusal))]
pub fn first_refusal(bytes: &[u8]) -> Option<Refused>
    requires { length bytes.now ≤ 65535 }
    ensures { result ≡ first_refusal bytes.now }
{
    let Some(first) = bytes.first() else {
        return Some(Refused::Empty);
    };
    let version = version_of(*first);
    if version != 0 {
        return Some(Refused::Version(version));
    }
    let kind = *first % 16;
    if is_unknown(kind) {
        return Some(Refused::Kind(kind));
    }
    length_refusal(kind, bytes)
}
