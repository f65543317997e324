//! Messages written as octets.

ghost use Rattle.std.specs.Prelude.{◌≡◌, ◌≤◌, ℕ, List, length, IfOk};
ghost use Rattle.amt_values.specs.Octets.{AreOctets};
ghost use Rattle.amt_messages.specs.{declared.message.Message.TheVariants.{Discovery, Advertisement, Request}, Messages.{IsSendable}, Layout.{IsCanonical, request_flags, spelling_of}};

use crate::message::Message;
use crate::multicast::write_multicast;
use crate::query::write_query;
use crate::teardown::write_teardown;
use crate::update::write_update;
use amt_values::{Bytes, Ip, octets_of_address};
use std::alloc::{AllocError, Global};

fn request_flags(v6: bool) -> u8
    ensures { result ≡ request_flags v6 }
{
    if v6 { 1 } else { 0 }
}

fn write_discovery(alloc: Global, nonce: u32) -> Result<Bytes, AllocError>
    ensures written { IfOk result (λ bytes. bytes ≡ spelling_of (Discovery nonce)) }
    ensures canonical { IfOk result (λ bytes. IsCanonical (Discovery nonce) bytes) }
{
    let mut bytes = Bytes::with_room(alloc, 8)?;
    bytes.append(&[1, 0, 0, 0])?;
    bytes.append(&nonce.to_be_bytes())?;
    Ok(bytes)
}

fn write_advertisement(alloc: Global, nonce: u32, relay: Ip) -> Result<Bytes, AllocError>
    ensures written { IfOk result (λ bytes. bytes ≡ spelling_of (Advertisement nonce relay)) }
    ensures canonical { IfOk result (λ bytes. IsCanonical (Advertisement nonce relay) bytes) }
{
    let mut bytes = Bytes::with_room(alloc, 24)?;
    bytes.append(&[2, 0, 0, 0])?;
    bytes.append(&nonce.to_be_bytes())?;
    match relay {
        Ip::V4(address) => bytes.append(&address.to_be_bytes())?,
        Ip::V6(address) => bytes.append(&octets_of_address(address))?,
    }
    Ok(bytes)
}

fn write_request(alloc: Global, v6: bool, nonce: u32) -> Result<Bytes, AllocError>
    ensures written { IfOk result (λ bytes. bytes ≡ spelling_of (Request v6 nonce)) }
    ensures canonical { IfOk result (λ bytes. IsCanonical (Request v6 nonce) bytes) }
{
    let mut bytes = Bytes::with_room(alloc, 8)?;
    bytes.append(&[3, request_flags(v6), 0, 0])?;
    bytes.append(&nonce.to_be_bytes())?;
    Ok(bytes)
}

/// Writes a message as its one canonical spelling, with reserved bits zero.
#[tactic(auto, using(crate::proofs::Canonical::canonical_once))]
pub fn encode(alloc: Global, message: &Message) -> Result<Bytes, AllocError>
    requires { IsSendable message.now }
    ensures written { IfOk result (λ bytes. bytes ≡ spelling_of message.now) }
    ensures canonical { IfOk result (λ bytes. IsCanonical message.now bytes) }
    ensures one { (bytes : List ℕ) → AreOctets bytes → IsCanonical message.now bytes
        → bytes ≡ spelling_of message.now }
    ensures most { IfOk result (λ bytes. length bytes ≤ 65535) }
{
    match message {
        Message::Discovery { nonce } => write_discovery(alloc, *nonce),
        Message::Advertisement { nonce, relay } => write_advertisement(alloc, *nonce, *relay),
        Message::Request { v6, nonce } => write_request(alloc, *v6, *nonce),
        Message::Query {
            limited,
            mac,
            nonce,
            inner,
            seen,
        } => write_query(alloc, *limited, mac, *nonce, inner, seen),
        Message::Update { mac, nonce, inner } => write_update(alloc, mac, *nonce, inner),
        Message::Multicast { packet } => write_multicast(alloc, packet),
        Message::Teardown {
            mac,
            nonce,
            gateway,
        } => write_teardown(alloc, mac, *nonce, gateway),
    }
}
