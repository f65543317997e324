//! The lines of a datagram.

ghost use Rattle.std.specs.Prelude.{◌≡◌, ◌≤◌, ◌++◌, codes, length, Ok, OnOk};
ghost use Rattle.amt_messages.specs.Messages.{IsSendable};
ghost use Rattle.script_lines.specs.FaultTexts.{refusal_text};
ghost use Rattle.amt_dump.specs.Texts.{carried_lines, datagram_lines, line_of, reading_lines};

use crate::line::begin_line;
use crate::message_text::append_message;
use crate::query_text::append_carried_query;
use crate::report_text::append_carried_report;
use amt_messages::{DecodeFault, Message, Refused, decode};
use amt_values::Bytes;
use script_lines::append_refusal;
use std::alloc::{AllocError, Global};

fn append_refused(text: &mut Bytes, number: u32, refusal: &Refused) -> Result<(), AllocError>
    ensures { OnOk result (text.new
        ≡ text.old ++ line_of number (codes "refused " ++ refusal_text refusal.now)) }
{
    begin_line(text, number)?;
    text.append(b"refused ")?;
    append_refusal(text, refusal)?;
    text.append(b"\n")
}

fn append_carried(
    alloc: Global,
    text: &mut Bytes,
    number: u32,
    message: &Message,
) -> Result<(), AllocError>
    requires { IsSendable message.now }
    ensures { OnOk result (text.new ≡ text.old ++ carried_lines number message.now) }
{
    match message {
        Message::Query { inner, .. } => append_carried_query(text, number, inner.as_slice()),
        Message::Update { inner, .. } => {
            append_carried_report(alloc, text, number, inner.as_slice())
        }
        _ => Ok(()),
    }
}

fn append_reading(
    alloc: Global,
    text: &mut Bytes,
    number: u32,
    message: &Message,
) -> Result<(), AllocError>
    requires { IsSendable message.now }
    ensures { OnOk result (text.new ≡ text.old ++ reading_lines number (Ok message.now)) }
{
    append_message(text, number, message)?;
    append_carried(alloc, text, number, message)
}

/// Puts the lines of a datagram at the end that stands in the line of this number.
#[tactic(auto, unfolding(crate::specs::Texts::datagram_lines))]
pub fn append_datagram(
    alloc: Global,
    text: &mut Bytes,
    number: u32,
    bytes: &[u8],
) -> Result<(), AllocError>
    requires { length bytes.now ≤ 65535 }
    ensures { OnOk result (text.new ≡ text.old ++ datagram_lines number bytes.now) }
{
    match decode(alloc, bytes) {
        Ok(message) => append_reading(alloc, text, number, &message),
        Err(DecodeFault::Refused(refusal)) => append_refused(text, number, &refusal),
        Err(DecodeFault::Memory) => Err(AllocError),
    }
}
