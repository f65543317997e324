//! The text of a gateway's step. It knows no script and no sink.

ghost use Rattle.std.specs.Prelude.{◌≡◌, ◌++◌, flat_map, Some, OnOk, OnErr};
ghost use Rattle.gateway_script.specs.Texts.{answer_line, delivery_text, send_text, step_text};

use crate::outcome_text::append_gateway_outcome;
use amt_values::{Bytes, append_numeral};
use gateway_machine::{GatewayOutcome, GatewayStep, PeerSend};
use script_lines::{append_hex, append_send};
use std::alloc::{AllocError, Global};

// The line of a packet.
fn append_packet(text: &mut Bytes, packet: &[u8]) -> Result<(), AllocError>
    ensures { OnOk result (text.new ≡ text.old ++ delivery_text (Some packet.now)) }
{
    text.append(b"^ ")?;
    append_hex(text, packet)?;
    text.append(b"\n")
}

/// Puts the line of a packet at the end, where one was handed on. It is made apart, so that no part of it
/// stands there where memory runs out.
pub fn append_delivery(
    alloc: Global,
    text: &mut Bytes,
    deliver: &Option<Bytes>,
) -> Result<(), AllocError>
    ensures ok { OnOk result (text.new ≡ text.old ++ delivery_text deliver.now) }
    ensures err { OnErr result (text.new ≡ text.old) }
{
    let Some(packet) = deliver else {
        return Ok(());
    };
    let mut line = Bytes::new(alloc);
    append_packet(&mut line, packet.as_slice())?;
    text.append(line.as_slice())
}

// `= N OUTCOME`.
fn append_answer(
    alloc: Global,
    text: &mut Bytes,
    number: u64,
    outcome: &GatewayOutcome,
) -> Result<(), AllocError>
    ensures { OnOk result (text.new ≡ text.old ++ answer_line number outcome.now) }
{
    text.append(b"= ")?;
    append_numeral(text, number)?;
    text.append(b" ")?;
    append_gateway_outcome(alloc, text, outcome)?;
    text.append(b"\n")
}

fn append_sends(text: &mut Bytes, sends: &[PeerSend]) -> Result<(), AllocError>
    ensures { OnOk result (text.new ≡ text.old ++ flat_map send_text sends.now) }
{
    for send in sends {
        append_send(text, &send.to, send.bytes.as_slice())?;
    }
    Ok(())
}

/// Puts the lines of one step at the end: its number and outcome, a line for each send, and one for the
/// packet that was handed on.
#[tactic(auto, unfolding(crate::specs::Texts::step_text))]
pub fn append_gateway_step(
    alloc: Global,
    text: &mut Bytes,
    number: u64,
    step: &GatewayStep,
) -> Result<(), AllocError>
    ensures { OnOk result (text.new
        ≡ text.old ++ step_text number step.now.outcome step.now.sends step.now.deliver) }
{
    append_answer(alloc, text, number, &step.outcome)?;
    append_sends(text, step.sends.as_slice())?;
    append_delivery(alloc, text, &step.deliver)
}
