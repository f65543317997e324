//! The text of a step of a pair. It knows no script and no sink.

ghost use Rattle.std.specs.Prelude.{◌≡◌, ◌+◌, ◌<◌, ◌^◌, ◌++◌, codes, decimal, length, sum_by, OnOk};
ghost use Rattle.amt_pair.specs.declared.step.Part.TheVariants.{Absent as AbsentPart, Gateway as GatewayPart, Relay as RelayPart};
ghost use Rattle.pair_script.specs.Texts.{datagram_line, down_line, downs_in, part_text, parts_text, sends_text, up_line, ups_in};

use amt_pair::Part;
use amt_script::append_relay_outcome;
use amt_values::{Bytes, Peer, append_numeral};
use gateway_machine::{GatewayStep, PeerSend};
use gateway_script::{append_delivery, append_gateway_outcome};
use relay_machine::{OneSend, Step};
use script_lines::{append_hex, append_numbered, append_peer};
use std::alloc::{AllocError, Global};

// `= N WHO `, with the space.
fn append_who(text: &mut Bytes, number: u64, who: &[u8]) -> Result<(), AllocError>
    ensures { OnOk result (text.new ≡ text.old ++ (codes "= " ++ (decimal number ++ (codes " " ++ (who.now ++ codes " "))))) }
{
    append_numbered(text, b"= ", number)?;
    text.append(b" ")?;
    text.append(who)?;
    text.append(b" ")
}

// `> DIRECTION K PEER HEX`.
fn append_datagram(
    text: &mut Bytes,
    direction: &[u8],
    number: u64,
    peer: &Peer,
    bytes: &[u8],
) -> Result<(), AllocError>
    ensures { OnOk result (text.new ≡ text.old ++ datagram_line direction.now number peer.now bytes.now) }
{
    text.append(b"> ")?;
    text.append(direction)?;
    append_numbered(text, b" ", number)?;
    text.append(b" ")?;
    append_peer(text, peer)?;
    text.append(b" ")?;
    append_hex(text, bytes)?;
    text.append(b"\n")
}

// The relay's sends, of which the first has the number after this one.
fn append_downs(text: &mut Bytes, sent: u64, sends: &[OneSend]) -> Result<(), AllocError>
    requires { sent + length sends.now < 2 ^ 64 }
    ensures { OnOk result (text.new ≡ text.old ++ sends_text down_line sent sends.now) }
{
    for (index, send) in sends.iter().enumerate() {
        let number = sent + index as u64 + 1;
        append_datagram(
            text,
            b"down",
            number,
            &send.to.peer(),
            send.bytes.as_slice(),
        )?;
    }
    Ok(())
}

// A gateway's sends, in the same way.
fn append_ups(text: &mut Bytes, sent: u64, sends: &[PeerSend]) -> Result<(), AllocError>
    requires { sent + length sends.now < 2 ^ 64 }
    ensures { OnOk result (text.new ≡ text.old ++ sends_text up_line sent sends.now) }
{
    for (index, send) in sends.iter().enumerate() {
        let number = sent + index as u64 + 1;
        append_datagram(text, b"up", number, &send.to, send.bytes.as_slice())?;
    }
    Ok(())
}

fn append_relay_part(
    text: &mut Bytes,
    number: u64,
    down: u64,
    step: &Step,
) -> Result<(), AllocError>
    requires { down + length step.now.sends < 2 ^ 64 }
    ensures { OnOk result (text.new ≡ text.old ++ part_text number 0 down (RelayPart step.now)) }
{
    append_who(text, number, b"relay")?;
    append_relay_outcome(text, &step.outcome)?;
    text.append(b"\n")?;
    append_downs(text, down, step.sends.as_slice())
}

fn append_gateway_part(
    alloc: Global,
    text: &mut Bytes,
    number: u64,
    up: u64,
    name: &[u8],
    step: &GatewayStep,
) -> Result<(), AllocError>
    requires { up + length step.now.sends < 2 ^ 64 }
    ensures { OnOk result (text.new ≡ text.old ++ part_text number up 0 (GatewayPart name.now step.now)) }
{
    append_who(text, number, name)?;
    append_gateway_outcome(alloc, text, &step.outcome)?;
    text.append(b"\n")?;
    append_ups(text, up, step.sends.as_slice())?;
    append_delivery(alloc, text, &step.deliver)
}

fn append_absent(text: &mut Bytes, number: u64, datagram: u64) -> Result<(), AllocError>
    ensures { OnOk result (text.new ≡ text.old ++ part_text number 0 0 (AbsentPart datagram)) }
{
    append_who(text, number, b"absent")?;
    append_numeral(text, datagram)?;
    text.append(b"\n")
}

// How many datagrams are sent to the relay in a part.
fn ups_in(part: &Part) -> u64
    ensures { result ≡ ups_in part.now }
{
    match part {
        Part::Gateway { step, .. } => step.sends.len() as u64,
        Part::Relay(_) | Part::Absent(_) => 0,
    }
}

// How many datagrams the relay sends in a part.
fn downs_in(part: &Part) -> u64
    ensures { result ≡ downs_in part.now }
{
    match part {
        Part::Relay(step) => step.sends.len() as u64,
        Part::Gateway { .. } | Part::Absent(_) => 0,
    }
}

fn append_part(
    alloc: Global,
    text: &mut Bytes,
    number: u64,
    up: u64,
    down: u64,
    part: &Part,
) -> Result<(), AllocError>
    requires up { up + ups_in part.now < 2 ^ 64 }
    requires down { down + downs_in part.now < 2 ^ 64 }
    ensures { OnOk result (text.new ≡ text.old ++ part_text number up down part.now) }
{
    match part {
        Part::Relay(step) => append_relay_part(text, number, down, step),
        Part::Gateway { name, step } => {
            append_gateway_part(alloc, text, number, up, name.as_slice(), step)
        }
        Part::Absent(datagram) => append_absent(text, number, *datagram),
    }
}

/// Puts the lines of the parts of an event of this number at the end, where `up` datagrams were sent to the
/// relay before and `down` by it.
pub fn append_parts(
    alloc: Global,
    text: &mut Bytes,
    number: u64,
    up: u64,
    down: u64,
    parts: &[Part],
) -> Result<(), AllocError>
    requires up { up + sum_by ups_in parts.now < 2 ^ 64 }
    requires down { down + sum_by downs_in parts.now < 2 ^ 64 }
    ensures { OnOk result (text.new ≡ text.old ++ parts_text number up down parts.now) }
{
    let mut sent_up = up;
    let mut sent_down = down;
    for part in parts {
        append_part(alloc, text, number, sent_up, sent_down, part)?;
        sent_up += ups_in(part);
        sent_down += downs_in(part);
    }
    Ok(())
}
