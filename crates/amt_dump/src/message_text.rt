//! The line of a message.

ghost use Rattle.std.specs.Prelude.{◌≡◌, ◌≤◌, ◌++◌, length, Err, Ok, OnOk};
ghost use Rattle.amt_messages.specs.{Messages.{IsSendable}, declared.message.Message.TheVariants.{Advertisement, Discovery, Multicast, Query, Request, Teardown, Update}};
ghost use Rattle.amt_dump.specs.Texts.{head_words, limited_words, line_of, mac_words, message_words, packet_words, request_words, seen_words};

use crate::line::begin_line;
use amt_messages::Message;
use amt_values::{Bytes, Endpoint, Ip, Mac48, append_numeral};
use inner_datagrams::{Head, HeadFault, packet_head};
use script_lines::{append_head_fault, append_hex, append_ip, append_nonce, append_peer};
use std::alloc::AllocError;

fn append_mac(text: &mut Bytes, mac: &Mac48, nonce: u32) -> Result<(), AllocError>
    ensures { OnOk result (text.new ≡ text.old ++ mac_words mac.now nonce) }
{
    text.append(b" mac=")?;
    append_hex(text, &mac.0)?;
    text.append(b" nonce=")?;
    append_nonce(text, nonce)
}

fn append_seen(text: &mut Bytes, seen: &Option<Endpoint>) -> Result<(), AllocError>
    ensures { OnOk result (text.new ≡ text.old ++ seen_words seen.now) }
{
    match seen {
        None => text.append(b"none"),
        Some(gateway) => append_peer(text, &gateway.peer()),
    }
}

fn append_limited(text: &mut Bytes, limited: bool) -> Result<(), AllocError>
    ensures { OnOk result (text.new ≡ text.old ++ limited_words limited) }
{
    if limited {
        text.append(b"query limited=1")
    } else {
        text.append(b"query limited=0")
    }
}

fn append_query(
    text: &mut Bytes,
    limited: bool,
    mac: &Mac48,
    nonce: u32,
    inner: &Bytes,
    seen: &Option<Endpoint>,
) -> Result<(), AllocError>
    ensures { OnOk result (text.new
        ≡ text.old ++ message_words (Query limited mac.now nonce inner.now seen.now)) }
{
    append_limited(text, limited)?;
    append_mac(text, mac, nonce)?;
    text.append(b" seen=")?;
    append_seen(text, seen)?;
    text.append(b" inner=")?;
    append_numeral(text, inner.len() as u64)
}

fn append_advertisement(text: &mut Bytes, nonce: u32, relay: &Ip) -> Result<(), AllocError>
    ensures { OnOk result (text.new ≡ text.old ++ message_words (Advertisement nonce relay.now)) }
{
    text.append(b"advertisement nonce=")?;
    append_nonce(text, nonce)?;
    text.append(b" relay=")?;
    append_ip(text, relay)
}

fn append_asked(text: &mut Bytes, v6: bool) -> Result<(), AllocError>
    ensures { OnOk result (text.new ≡ text.old ++ request_words v6) }
{
    if v6 {
        text.append(b"request v6")
    } else {
        text.append(b"request v4")
    }
}

fn append_request(text: &mut Bytes, v6: bool, nonce: u32) -> Result<(), AllocError>
    ensures { OnOk result (text.new ≡ text.old ++ message_words (Request v6 nonce)) }
{
    append_asked(text, v6)?;
    text.append(b" nonce=")?;
    append_nonce(text, nonce)
}

fn append_addresses(text: &mut Bytes, head: &Head) -> Result<(), AllocError>
    ensures { OnOk result (text.new ≡ text.old ++ head_words (Ok head.now)) }
{
    text.append(b" source=")?;
    append_ip(text, &head.source)?;
    text.append(b" group=")?;
    append_ip(text, &head.group)
}

fn append_bad_head(text: &mut Bytes, fault: &HeadFault) -> Result<(), AllocError>
    ensures { OnOk result (text.new ≡ text.old ++ head_words (Err fault.now)) }
{
    text.append(b" head ")?;
    append_head_fault(text, fault)
}

#[tactic(auto, unfolding(crate::specs::Texts::packet_words))]
fn append_head(text: &mut Bytes, packet: &[u8]) -> Result<(), AllocError>
    requires { length packet.now ≤ 65535 }
    ensures { OnOk result (text.new ≡ text.old ++ packet_words packet.now) }
{
    match packet_head(packet) {
        Ok(head) => append_addresses(text, &head),
        Err(fault) => append_bad_head(text, &fault),
    }
}

fn append_discovery(text: &mut Bytes, nonce: u32) -> Result<(), AllocError>
    ensures { OnOk result (text.new ≡ text.old ++ message_words (Discovery nonce)) }
{
    text.append(b"discovery nonce=")?;
    append_nonce(text, nonce)
}

fn append_update(text: &mut Bytes, mac: &Mac48, nonce: u32, inner: &Bytes) -> Result<(), AllocError>
    ensures { OnOk result (text.new ≡ text.old ++ message_words (Update mac.now nonce inner.now)) }
{
    text.append(b"update")?;
    append_mac(text, mac, nonce)?;
    text.append(b" inner=")?;
    append_numeral(text, inner.len() as u64)
}

fn append_data(text: &mut Bytes, packet: &Bytes) -> Result<(), AllocError>
    requires { length packet.now ≤ 65535 }
    ensures { OnOk result (text.new ≡ text.old ++ message_words (Multicast packet.now)) }
{
    text.append(b"data length=")?;
    append_numeral(text, packet.len() as u64)?;
    append_head(text, packet.as_slice())
}

fn append_teardown(
    text: &mut Bytes,
    mac: &Mac48,
    nonce: u32,
    gateway: &Endpoint,
) -> Result<(), AllocError>
    ensures { OnOk result (text.new
        ≡ text.old ++ message_words (Teardown mac.now nonce gateway.now)) }
{
    text.append(b"teardown")?;
    append_mac(text, mac, nonce)?;
    text.append(b" gateway=")?;
    append_peer(text, &gateway.peer())
}

fn append_message_words(text: &mut Bytes, message: &Message) -> Result<(), AllocError>
    requires { IsSendable message.now }
    ensures { OnOk result (text.new ≡ text.old ++ message_words message.now) }
{
    match message {
        Message::Discovery { nonce } => append_discovery(text, *nonce),
        Message::Advertisement { nonce, relay } => append_advertisement(text, *nonce, relay),
        Message::Request { v6, nonce } => append_request(text, *v6, *nonce),
        Message::Query {
            limited,
            mac,
            nonce,
            inner,
            seen,
        } => append_query(text, *limited, mac, *nonce, inner, seen),
        Message::Update { mac, nonce, inner } => append_update(text, mac, *nonce, inner),
        Message::Multicast { packet } => append_data(text, packet),
        Message::Teardown {
            mac,
            nonce,
            gateway,
        } => append_teardown(text, mac, *nonce, gateway),
    }
}

/// Puts the line of a message at the end.
pub fn append_message(text: &mut Bytes, number: u32, message: &Message) -> Result<(), AllocError>
    requires { IsSendable message.now }
    ensures { OnOk result (text.new ≡ text.old ++ line_of number (message_words message.now)) }
{
    begin_line(text, number)?;
    append_message_words(text, message)?;
    text.append(b"\n")
}
