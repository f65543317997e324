//! The lines that give gateways. It knows no other line.

ghost use Rattle.std.specs.Prelude.{◌≡◌, ◌≢◌, ◌↔◌, ◌∷◌, [], IsTrue, Some, length, codes, IfOk, IfErr, IfSome, IfNone};
ghost use Rattle.script_lines.specs.{Lines.{fields}, Reading.{FailsFirst}};
ghost use Rattle.pair_script.specs.{Fault.{FailsAsGateway, FailsToAdd, HasNoFamily, IsGivenTwice, RepeatsPeer, order_of_reasons, order_of_values}, Says.{SaysGateway}, Script.{MayAdd}};

use crate::given::{gateway_named, is_peer_given};
use crate::opening::is_gateway_name;
use crate::script::{PairGateway, PairItem};
use amt_values::{Bytes, Ip, parse_peer};
use group_records::Family;
use script_lines::{LineError, Reason, next_field, read_address, read_family, two_fields};
use std::alloc::Global;

// The fields of a line that gives a gateway.
#[derive(Clone, Copy)]
struct GatewayTexts<'a> {
    name: &'a [u8],
    peer: &'a [u8],
    family: &'a [u8],
    source: &'a [u8],
}

// There is a third field, and it is no family.
fn has_no_family(values: &[u8]) -> bool
    ensures { IsTrue result ↔ HasNoFamily (fields values.now) }
{
    let Some((_, rest)) = next_field(values) else {
        return false;
    };
    let Some((_, rest)) = next_field(rest) else {
        return false;
    };
    match next_field(rest) {
        Some((family, _)) => read_family(family).is_none(),
        None => false,
    }
}

// The first field is the text of a gateway's peer.
fn repeats_peer(gateways: &[PairGateway], values: &[u8]) -> bool
    ensures { IsTrue result ↔ RepeatsPeer gateways.now (fields values.now) }
{
    let Some((text, _)) = next_field(values) else {
        return false;
    };
    match parse_peer(text) {
        Some(peer) => is_peer_given(gateways, &peer),
        None => false,
    }
}

// The name or the peer was given before.
fn is_given_twice(gateways: &[PairGateway], values: &[u8]) -> bool
    ensures { IsTrue result ↔ IsGivenTwice gateways.now (fields values.now) }
{
    let Some((name, rest)) = next_field(values) else {
        return false;
    };
    if gateway_named(gateways, name).is_some() {
        return true;
    }
    repeats_peer(gateways, rest)
}

fn texts_of(values: &[u8]) -> Option<GatewayTexts<'_>>
    ensures found { IfSome result (λ texts. fields values.now
        ≡ texts.name.now ∷ texts.peer.now ∷ texts.family.now ∷ texts.source.now ∷ []) }
    ensures none { IfNone result (length (fields values.now) ≢ 4) }
{
    let Some((name, rest)) = next_field(values) else {
        return None;
    };
    let Some((peer, rest)) = next_field(rest) else {
        return None;
    };
    match two_fields(rest) {
        Some((family, source)) => Some(GatewayTexts {
            name,
            peer,
            family,
            source,
        }),
        None => None,
    }
}

// The gateway of these fields, of which the third is a family where it is there.
fn read_gateway(alloc: Global, values: &[u8]) -> Result<PairGateway, LineError>
    requires { HasNoFamily (fields values.now) → ⊥ }
    ensures found { IfOk result (λ gateway. SaysGateway gateway (codes "gateway" ∷ fields values.now)) }
    ensures reason { IfErr result (FailsFirst (FailsAsGateway (fields values.now)) order_of_values) }
{
    let Some(texts) = texts_of(values) else {
        return Err(LineError::Bad(Reason::Count));
    };
    let Some(family) = read_family(texts.family) else {
        unreachable!()
    };
    let Some(source) = read_address(Some(family), texts.source) else {
        return Err(LineError::Bad(Reason::Address));
    };
    let Some(peer) = parse_peer(texts.peer) else {
        return Err(LineError::Bad(Reason::Peer));
    };
    if !is_gateway_name(texts.name) {
        return Err(LineError::Bad(Reason::Name));
    }
    match Bytes::copied(alloc, texts.name) {
        Ok(name) => Ok(PairGateway {
            name,
            peer,
            v6: family == Family::V6,
            source,
        }),
        Err(_) => Err(LineError::Memory),
    }
}

/// The gateway of a line `gateway NAME PEER FAMILY SOURCE`, by what follows its first word, after lines
/// that said these gateways and items.
pub fn read_gateway_line(
    alloc: Global,
    gateways: &[PairGateway],
    items: &[PairItem],
    values: &[u8],
) -> Result<PairGateway, LineError>
    ensures may { IfOk result (MayAdd gateways.now items.now) }
    ensures found { IfOk result (λ gateway. SaysGateway gateway (codes "gateway" ∷ fields values.now)) }
    ensures reason { IfErr result (FailsFirst (FailsToAdd gateways.now items.now (fields values.now)) order_of_reasons) }
{
    if has_no_family(values) {
        return Err(LineError::Bad(Reason::Word));
    }
    if !items.is_empty() {
        return Err(LineError::Bad(Reason::Late));
    }
    if is_given_twice(gateways, values) {
        return Err(LineError::Bad(Reason::Twice));
    }
    match read_gateway(alloc, values) {
        Ok(gateway) => Ok(gateway),
        Err(error) => Err(error),
    }
}
