//! A Query of octets, and the octets of a Query.

ghost use Rattle.std.specs.Prelude.{◌≡◌, ◌+◌, ◌≤◌, ◌++◌, length, Some, Ok, unwrap_or, IfOk, OnOk};
ghost use Rattle.amt_values.specs.Answer.{Gives};
ghost use Rattle.amt_messages.specs.{Messages.{IsNamedGateway}, StatedLength.{inner_length_of}, Layout.{IsCanonical, has_flag, query_flags, query_length, named_gateway_octets, spelling_of}, Refusal.{TakesMemory, query_at, query_with, refusal_in, named_gateway_at, stated_inner}, declared.message.Message.TheVariants.{Query}};

use crate::fields::{gateway_at, is_limited, mac_at, names_gateway};
use crate::head::{append_gateway, write_head};
use crate::message::Message;
use crate::refusal::{DecodeFault, stated_inner};
use amt_values::{Bytes, Endpoint, Mac48, u32_at};
use std::alloc::{AllocError, Global};

// The gateway as the relay saw it, where the G flag says that it is named.
fn named_gateway_at(bytes: &[u8], inner: usize) -> Option<Endpoint>
    requires head { 12 ≤ length bytes.now }
    requires whole { query_length (has_flag 0 bytes.now) inner ≤ length bytes.now }
    ensures { result ≡ named_gateway_at inner bytes.now }
{
    if names_gateway(bytes) {
        Some(gateway_at(bytes, inner))
    } else {
        None
    }
}

// The message, with an inner datagram of so many octets.
fn query_with(alloc: Global, bytes: &[u8], inner: usize) -> Result<Message, DecodeFault>
    requires head { 12 + inner ≤ length bytes.now }
    requires whole { query_length (has_flag 0 bytes.now) inner ≤ length bytes.now }
    ensures { Gives refusal_in TakesMemory result (Ok (query_with inner bytes.now)) }
{
    let (_, rest) = bytes.split_at(12);
    let (datagram, _) = rest.split_at(inner);
    let Ok(datagram) = Bytes::copied(alloc, datagram) else {
        return Err(DecodeFault::Memory);
    };
    Ok(Message::Query {
        limited: is_limited(bytes),
        mac: mac_at(bytes, 2),
        nonce: u32_at(bytes, 8),
        inner: datagram,
        seen: named_gateway_at(bytes, inner),
    })
}

pub fn read_query(alloc: Global, bytes: &[u8]) -> Result<Message, DecodeFault>
    requires head { 12 + unwrap_or (stated_inner bytes.now) 0 ≤ length bytes.now }
    requires whole { query_length (has_flag 0 bytes.now) (unwrap_or (stated_inner bytes.now) 0)
        ≤ length bytes.now }
    ensures { Gives refusal_in TakesMemory result (Ok (query_at bytes.now)) }
{
    let inner = stated_inner(bytes).unwrap_or(0);
    query_with(alloc, bytes, inner as usize)
}

fn query_flags(limited: bool, named: bool) -> u8
    ensures { result ≡ query_flags limited named }
{
    match (limited, named) {
        (false, false) => 0,
        (false, true) => 1,
        (true, false) => 2,
        (true, true) => 3,
    }
}

fn append_named_gateway(bytes: &mut Bytes, seen: &Option<Endpoint>) -> Result<(), AllocError>
    ensures appended { OnOk result (bytes.new ≡ bytes.old ++ named_gateway_octets seen.now) }
    ensures form { OnOk result (IsNamedGateway seen.now) }
{
    match seen {
        None => Ok(()),
        Some(endpoint) => append_gateway(bytes, endpoint),
    }
}

pub fn write_query(
    alloc: Global,
    limited: bool,
    mac: &Mac48,
    nonce: u32,
    inner: &Bytes,
    seen: &Option<Endpoint>,
) -> Result<Bytes, AllocError>
    requires { inner_length_of inner.now ≡ Some (length inner.now) }
    ensures written { IfOk result (λ bytes. bytes ≡ spelling_of
        (Query limited mac.now nonce inner.now seen.now)) }
    ensures canonical { IfOk result (λ bytes. IsCanonical
        (Query limited mac.now nonce inner.now seen.now) bytes) }
{
    let mut bytes = write_head(alloc, 4, query_flags(limited, seen.is_some()), mac, nonce)?;
    bytes.append(inner.as_slice())?;
    append_named_gateway(&mut bytes, seen)?;
    Ok(bytes)
}
