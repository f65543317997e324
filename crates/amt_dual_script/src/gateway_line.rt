//! The lines that give gateways of both families. It knows no other line.

ghost use Rattle.std.specs.Prelude.{◌≢◌, ◌↔◌, ◌≡◌, ◌⊎◌, ◌∷◌, [], IsTrue, length, codes, IfOk, IfErr, IfSome, IfNone};
ghost use Rattle.amt_values.specs.{Text.{IsIpText}, declared.address.Ip.TheVariants.{V4, V6}};
ghost use Rattle.script_lines.specs.{Form.{Fails, an_address4, an_address6}, Lines.{fields}, Reading.{FailsFirst}};
ghost use Rattle.pair_script.specs.Fault.{order_of_reasons, order_of_values};
ghost use Rattle.amt_dual_script.specs.{Fault.{FailsAsGateway, FailsToAdd, IsGivenTwice, RepeatsPeer}, Says.{SaysGateway}, Script.{MayAdd}};

use crate::given::{is_name_given, is_peer_given};
use crate::script::{DualGateway, DualItem};
use amt_values::{Bytes, parse_peer};
use pair_script::is_gateway_name;
use script_lines::{LineError, Reason, next_field, read_address4, read_address6, two_fields};
use std::alloc::Global;

// The fields of a line that gives a gateway.
#[derive(Clone, Copy)]
struct GatewayTexts<'a> {
    name: &'a [u8],
    peer: &'a [u8],
    source4: &'a [u8],
    source6: &'a [u8],
}

// The first field is the text of a gateway's peer.
fn repeats_peer(gateways: &[DualGateway], values: &[u8]) -> bool
    ensures { IsTrue result ↔ RepeatsPeer gateways.now (fields values.now) }
{
    let Some((text, _)) = next_field(values) else {
        return false;
    };
    match parse_peer(text) {
        Some(peer) => is_peer_given(gateways, &peer),
        None => false,
    }
}

// The name or the peer was given before.
fn is_given_twice(gateways: &[DualGateway], values: &[u8]) -> bool
    ensures { IsTrue result ↔ IsGivenTwice gateways.now (fields values.now) }
{
    let Some((name, rest)) = next_field(values) else {
        return false;
    };
    if is_name_given(gateways, name) {
        return true;
    }
    repeats_peer(gateways, rest)
}

fn texts_of(values: &[u8]) -> Option<GatewayTexts<'_>>
    ensures found { IfSome result (λ texts. fields values.now
        ≡ texts.name.now ∷ texts.peer.now ∷ texts.source4.now ∷ texts.source6.now ∷ []) }
    ensures none { IfNone result (length (fields values.now) ≢ 4) }
{
    let Some((name, rest)) = next_field(values) else {
        return None;
    };
    let Some((peer, rest)) = next_field(rest) else {
        return None;
    };
    match two_fields(rest) {
        Some((source4, source6)) => Some(GatewayTexts {
            name,
            peer,
            source4,
            source6,
        }),
        None => None,
    }
}

// The source of MLDv2 reports.
fn read_source6(text: &[u8]) -> Option<u128>
    ensures found { IfSome result (λ source. IsIpText (V6 source) text.now) }
    ensures none { IfNone result (Fails an_address6 text.now Reason.Address) }
{
    read_address6(text)
}

// The source of IGMPv3 reports, and that of MLDv2 reports: an address of either family.
fn read_sources(text4: &[u8], text6: &[u8]) -> Option<(u32, u128)>
    ensures found4 { IfSome result (λ sources. IsIpText (V4 sources.0) text4.now) }
    ensures found6 { IfSome result (λ sources. IsIpText (V6 sources.1) text6.now) }
    ensures none { IfNone result (Fails an_address4 text4.now Reason.Address ⊎ Fails an_address6 text6.now Reason.Address) }
{
    let Some(source4) = read_address4(text4) else {
        return None;
    };
    let Some(source6) = read_source6(text6) else {
        return None;
    };
    Some((source4, source6))
}

// The gateway of these fields.
fn read_gateway(alloc: Global, values: &[u8]) -> Result<DualGateway, LineError>
    ensures found { IfOk result (λ gateway. SaysGateway gateway (codes "gateway" ∷ fields values.now)) }
    ensures reason { IfErr result (FailsFirst (FailsAsGateway (fields values.now)) order_of_values) }
{
    let Some(texts) = texts_of(values) else {
        return Err(LineError::Bad(Reason::Count));
    };
    let Some((source4, source6)) = read_sources(texts.source4, texts.source6) else {
        return Err(LineError::Bad(Reason::Address));
    };
    let Some(peer) = parse_peer(texts.peer) else {
        return Err(LineError::Bad(Reason::Peer));
    };
    if !is_gateway_name(texts.name) {
        return Err(LineError::Bad(Reason::Name));
    }
    match Bytes::copied(alloc, texts.name) {
        Ok(name) => Ok(DualGateway {
            name,
            peer,
            source4,
            source6,
        }),
        Err(_) => Err(LineError::Memory),
    }
}

/// The gateway of a line `gateway NAME PEER SOURCE4 SOURCE6`, by what follows its first word, after lines
/// that said these gateways and items.
pub fn read_gateway_line(
    alloc: Global,
    gateways: &[DualGateway],
    items: &[DualItem],
    values: &[u8],
) -> Result<DualGateway, LineError>
    ensures may { IfOk result (MayAdd gateways.now items.now) }
    ensures found { IfOk result (λ gateway. SaysGateway gateway (codes "gateway" ∷ fields values.now)) }
    ensures reason { IfErr result (FailsFirst (FailsToAdd gateways.now items.now (fields values.now)) order_of_reasons) }
{
    if !items.is_empty() {
        return Err(LineError::Bad(Reason::Late));
    }
    if is_given_twice(gateways, values) {
        return Err(LineError::Bad(Reason::Twice));
    }
    match read_gateway(alloc, values) {
        Ok(gateway) => Ok(gateway),
        Err(error) => Err(error),
    }
}
