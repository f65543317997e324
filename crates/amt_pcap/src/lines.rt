//! The tunnel's datagrams of a capture, as lines of a dump.

ghost use Rattle.std.specs.Prelude.{◌≡◌, ◌≤◌, ◌++◌, length, All, flat_map, IfOk, OnOk, Ok};
ghost use Rattle.amt_dump.specs.Lines.{dump_kind};
ghost use Rattle.script_lines.specs.Script.{Spells};
ghost use Rattle.amt_pcap.specs.Texts.{HasDumpLine, HasShortPackets, IsShortPacket, capture_lines_text, is_of_tunnel, payload_line, tunnel_payloads, tunnel_payloads_in};

use crate::capture::{Capture, Item};
use crate::udp::{Ends, datagram_of};
use amt_values::{AMT_PORT, Bytes};
use script_lines::append_hex;
use std::alloc::{AllocError, Global};

// Whether one end has AMT's port.
fn is_of_tunnel(ends: &Ends) -> bool
    ensures { result ≡ is_of_tunnel ends.now }
{
    ends.source.port == AMT_PORT || ends.destination.port == AMT_PORT
}

// Puts the line of the tunnel's datagram in a packet at the end, if there is one.
fn append_packet(text: &mut Bytes, packet: &[u8]) -> Result<(), AllocError>
    requires { length packet.now ≤ 65535 }
    ensures text { OnOk result (text.new ≡ text.old ++ flat_map payload_line (tunnel_payloads_in (Ok packet.now))) }
    ensures said { OnOk result (All HasDumpLine (tunnel_payloads_in (Ok packet.now))) }
{
    let Some((ends, payload)) = datagram_of(packet) else {
        return Ok(());
    };
    if !is_of_tunnel(&ends) {
        return Ok(());
    }
    append_hex(text, payload)?;
    text.append(b"\n")
}

// The same of an item.
fn append_item(text: &mut Bytes, item: &Item) -> Result<(), AllocError>
    requires { IsShortPacket item.now.packet }
    ensures text { OnOk result (text.new ≡ text.old ++ flat_map payload_line (tunnel_payloads_in item.now.packet)) }
    ensures said { OnOk result (All HasDumpLine (tunnel_payloads_in item.now.packet)) }
{
    match &item.packet {
        Ok(packet) => append_packet(text, packet.as_slice()),
        Err(_) => Ok(()),
    }
}

/// A line of hexadecimal digits for the data of each UDP datagram from or to port 2268. `amt dump` reads them.
pub fn capture_lines(alloc: Global, capture: &Capture) -> Result<Bytes, AllocError>
    requires { HasShortPackets capture.now }
    ensures text { IfOk result (λ text. text ≡ capture_lines_text capture.now) }
    ensures spelled { IfOk result (λ text. Spells dump_kind (tunnel_payloads capture.now) text) }
{
    let mut text = Bytes::new(alloc);
    for item in capture.items.as_slice() {
        append_item(&mut text, item)?;
    }
    Ok(text)
}
