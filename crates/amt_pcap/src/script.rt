//! The relay script of a capture.

ghost use Rattle.std.specs.Prelude.{◌≡◌, ◌≤◌, ◌++◌, length, option_map, IfOk, IfSome, OnOk, Ok};
ghost use Rattle.amt_values.specs.Text.{IsIpText, ip_text};
ghost use Rattle.amt_script.specs.{Printed.{IsLineOf}, Script.{IsRelayScript}, Texts.{event_text}};
ghost use Rattle.amt_pcap.specs.Texts.{HasShortPackets, IsReadBack, IsShortPacket, capture_script_text, captured_script, event_from, event_in, is_to, item_lines, reason_line, reason_of, relay_line, tail_line};

use crate::capture::{Capture, Item, Skip};
use crate::udp::{Ends, datagram_of};
use amt_script::{append_datagram_event, append_moment_event, append_packet_event};
use amt_values::{AMT_PORT, Bytes, Ip, Peer, append_numeral, forwardable, ip_text_names};
use inner_datagrams::packet_head;
use script_lines::append_ip;
use std::alloc::{AllocError, Global};

// Whether a relay at this address gets what has these ends.
fn is_to(relay: &Ip, ends: &Ends) -> bool
    ensures { result ≡ is_to relay.now ends.now }
{
    ends.destination.ip == *relay && ends.destination.port == AMT_PORT
}

// What a packet is to a relay at this address, if anything: a datagram's source and data, or a packet without a source.
fn event_of<'a>(relay: &Ip, packet: &'a [u8]) -> Option<(Option<Peer>, &'a [u8])>
    requires { length packet.now ≤ 65535 }
    ensures found { option_map (λ event. event_from event.0 event.1.now) result ≡ event_in relay.now (Ok packet.now) }
    ensures short { IfSome result (λ event. length event.1.now ≤ 65535) }
{
    if let Some((ends, payload)) = datagram_of(packet) {
        if is_to(relay, &ends) {
            return Some((Some(ends.source), payload));
        }
    }
    let Ok(head) = packet_head(packet) else {
        return None;
    };
    if !forwardable(&head.group) {
        return None;
    }
    Some((None, packet))
}

// What a captured item is to it, if anything.
fn event_in<'a>(relay: &Ip, packet: &'a Result<Bytes, Skip>) -> Option<(Option<Peer>, &'a [u8])>
    requires { IsShortPacket packet.now }
    ensures found { option_map (λ event. event_from event.0 event.1.now) result ≡ event_in relay.now packet.now }
    ensures short { IfSome result (λ event. length event.1.now ≤ 65535) }
{
    match packet {
        Ok(packet) => event_of(relay, packet.as_slice()),
        Err(_) => None,
    }
}

// Puts the line of an event at the end, which is read back as the event.
fn append_event(text: &mut Bytes, from: Option<Peer>, bytes: &[u8]) -> Result<(), AllocError>
    requires { length bytes.now ≤ 65535 }
    ensures text { OnOk result (text.new ≡ text.old ++ event_text (event_from from bytes.now)) }
    ensures back { OnOk result (IsLineOf (event_from from bytes.now) (event_text (event_from from bytes.now))) }
{
    match from {
        Some(from) => append_datagram_event(text, &from, bytes),
        None => append_packet_event(text, bytes),
    }
}

// Why an item is no event.
fn reason_of(packet: &Result<Bytes, Skip>) -> &'static str
    ensures { result.now ≡ reason_of packet.now }
{
    match packet {
        Err(Skip::Cut) => "cut",
        Err(Skip::Frame) => "frame",
        Err(Skip::Ip) => "ip",
        Ok(_) => "other",
    }
}

// `# I REASON`.
fn append_reason(
    text: &mut Bytes,
    number: u64,
    packet: &Result<Bytes, Skip>,
) -> Result<(), AllocError>
    ensures { OnOk result (text.new ≡ text.old ++ reason_line number packet.now) }
{
    text.append(b"# ")?;
    append_numeral(text, number)?;
    text.append(b" ")?;
    text.append(reason_of(packet).as_bytes())?;
    text.append(b"\n")
}

// `# tail N`, unless there is none.
fn append_tail(text: &mut Bytes, tail: u32) -> Result<(), AllocError>
    ensures { OnOk result (text.new ≡ text.old ++ tail_line tail) }
{
    if tail == 0 {
        return Ok(());
    }
    text.append(b"# tail ")?;
    append_numeral(text, u64::from(tail))?;
    text.append(b"\n")
}

// `set relay ADDRESS`.
fn print_relay_line(alloc: Global, relay: &Ip) -> Result<Bytes, AllocError>
    ensures text { IfOk result (λ text. text ≡ relay_line relay.now) }
    ensures names { IsIpText relay.now (ip_text relay.now) }
{
    ip_text_names(relay);
    let mut text = Bytes::copied(alloc, b"set relay ")?;
    append_ip(&mut text, relay)?;
    text.append(b"\n")?;
    Ok(text)
}

// Puts the lines of an item at the end: its moment and its event, which are read back, or why it is none.
fn append_item(text: &mut Bytes, relay: &Ip, number: u64, item: &Item) -> Result<(), AllocError>
    requires { IsShortPacket item.now.packet }
    ensures text { OnOk result (text.new
        ≡ text.old ++ item_lines number item.now (event_in relay.now item.now.packet)) }
    ensures back { OnOk result (IsReadBack relay.now item.now) }
{
    match event_in(relay, &item.packet) {
        Some((from, bytes)) => {
            append_moment_event(text, item.at)?;
            append_event(text, from, bytes)
        }
        None => append_reason(text, number, &item.packet),
    }
}

/// The script of a relay at this address, with all defaults, to which what was captured happens: each UDP datagram to
/// its port 2268, and each packet to a group that is forwarded, at its moment. What is neither is a comment, and so is
/// a tail.
#[tactic(auto, unfolding(crate::specs::Texts::lines_of_items))]
pub fn capture_script(alloc: Global, capture: &Capture, relay: &Ip) -> Result<Bytes, AllocError>
    requires { HasShortPackets capture.now }
    ensures text { IfOk result (λ text. text ≡ capture_script_text relay.now capture.now) }
    ensures spelled { IfOk result (λ text. IsRelayScript (captured_script relay.now capture.now) text) }
{
    let mut text = print_relay_line(alloc, relay)?;
    for (index, item) in capture.items.as_slice().iter().enumerate() {
        append_item(&mut text, relay, index as u64 + 1, item)?;
    }
    append_tail(&mut text, capture.tail)?;
    Ok(text)
}
