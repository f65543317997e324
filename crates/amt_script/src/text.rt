//! The texts of a relay's events and steps. It knows no script and no sink.

ghost use Rattle.std.specs.Prelude.{◌≡◌, ◌++◌, ◌≤◌, length, OnOk, IfOk};
ghost use Rattle.relay_machine.specs.declared.outcome.Outcome.TheVariants.{Queried, NotForwarded as NotForwardedFor};
ghost use Rattle.relay_machine.specs.declared.event.Event.TheVariants as events;
ghost use Rattle.amt_script.specs.{Printed.{HasLine, IsLineOf}, Texts.{answer_line, event_text, outcome_text, send_text, step_text}};

use crate::fault_text::{append_limit, append_not_forwarded, append_unlawful};
use amt_values::{Bytes, Moment, Peer, append_numeral, ip_text_names};
use endpoint_membership::Limits;
use relay_machine::{Event, NotForwarded, Outcome, Step};
use response_mac::Secret;
use script_lines::{append_hex, append_numbered, append_peer, append_refusal, append_send};
use std::alloc::{AllocError, Global};

fn append_queried(text: &mut Bytes, v6: bool, limited: bool) -> Result<(), AllocError>
    ensures { OnOk result (text.new ≡ text.old ++ outcome_text (Queried v6 limited)) }
{
    match (v6, limited) {
        (false, false) => text.append(b"queried v4"),
        (false, true) => text.append(b"queried v4 limited"),
        (true, false) => text.append(b"queried v6"),
        (true, true) => text.append(b"queried v6 limited"),
    }
}

fn append_unforwarded(text: &mut Bytes, cause: &NotForwarded) -> Result<(), AllocError>
    ensures { OnOk result (text.new ≡ text.old ++ outcome_text (NotForwardedFor cause.now)) }
{
    text.append(b"notforwarded ")?;
    append_not_forwarded(text, cause)
}

/// Puts what an event came to at the end.
pub fn append_relay_outcome(text: &mut Bytes, outcome: &Outcome) -> Result<(), AllocError>
    ensures { OnOk result (text.new ≡ text.old ++ outcome_text outcome.now) }
{
    match *outcome {
        Outcome::Moved(moment) => append_numbered(text, b"moved ", moment.ms()),
        Outcome::Rotated => text.append(b"rotated"),
        Outcome::Resized => text.append(b"resized"),
        Outcome::BadSource => text.append(b"badsource"),
        Outcome::Undecoded(refusal) => {
            text.append(b"refused ")?;
            append_refusal(text, &refusal)
        }
        Outcome::WrongKind(kind) => append_numbered(text, b"wrongkind ", u64::from(kind)),
        Outcome::Advertised => text.append(b"advertised"),
        Outcome::Queried { v6, limited } => append_queried(text, v6, limited),
        Outcome::BadMac => text.append(b"badmac"),
        Outcome::Unlawful(fault) => {
            text.append(b"unlawful ")?;
            append_unlawful(text, &fault)
        }
        Outcome::Over(fault) => {
            text.append(b"limit ")?;
            append_limit(text, &fault)
        }
        Outcome::Updated => text.append(b"updated"),
        Outcome::NoTunnel => text.append(b"notunnel"),
        Outcome::TornDown => text.append(b"torndown"),
        Outcome::TooBig(size) => append_numbered(text, b"toobig ", u64::from(size)),
        Outcome::NotForwarded(cause) => append_unforwarded(text, &cause),
        Outcome::Copied(count) => append_numbered(text, b"copied ", u64::from(count)),
    }
}

/// Puts the line of a moment at the end, which is read back as that moment.
#[tactic(auto, unfolding(crate::specs::Texts::event_text))]
pub fn append_moment_event(text: &mut Bytes, moment: Moment) -> Result<(), AllocError>
    ensures text { OnOk result (text.new ≡ text.old ++ event_text (events.Moment moment)) }
    ensures back { OnOk result (IsLineOf (events.Moment moment) (event_text (events.Moment moment))) }
{
    append_numbered(text, b"at ", moment.ms())?;
    text.append(b"\n")
}

/// Puts the line of a datagram at the end, which is read back as that datagram.
#[tactic(auto, unfolding(crate::specs::Texts::event_text))]
pub fn append_datagram_event(text: &mut Bytes, from: &Peer, bytes: &[u8]) -> Result<(), AllocError>
    requires { length bytes.now ≤ 65535 }
    ensures text { OnOk result (text.new ≡ text.old ++ event_text (events.Datagram bytes.now from.now)) }
    ensures back { OnOk result
        (IsLineOf (events.Datagram bytes.now from.now) (event_text (events.Datagram bytes.now from.now))) }
{
    let Peer { ip, port: _port } = *from;
    ip_text_names(&ip);
    text.append(b"dg ")?;
    append_peer(text, from)?;
    text.append(b" ")?;
    append_hex(text, bytes)?;
    text.append(b"\n")
}

/// Puts the line of a multicast packet at the end, which is read back as that packet.
#[tactic(auto, unfolding(crate::specs::Texts::event_text))]
pub fn append_packet_event(text: &mut Bytes, bytes: &[u8]) -> Result<(), AllocError>
    requires { length bytes.now ≤ 65535 }
    ensures text { OnOk result (text.new ≡ text.old ++ event_text (events.Packet bytes.now)) }
    ensures back { OnOk result (IsLineOf (events.Packet bytes.now) (event_text (events.Packet bytes.now))) }
{
    text.append(b"mc ")?;
    append_hex(text, bytes)?;
    text.append(b"\n")
}

#[tactic(auto, unfolding(crate::specs::Texts::event_text))]
fn append_secret_event(text: &mut Bytes, secret: &Secret) -> Result<(), AllocError>
    ensures text { OnOk result (text.new ≡ text.old ++ event_text (events.Rotate secret.now)) }
    ensures back { OnOk result (IsLineOf (events.Rotate secret.now) (event_text (events.Rotate secret.now))) }
{
    text.append(b"secret ")?;
    append_hex(text, &secret.0)?;
    text.append(b"\n")
}

#[tactic(auto, unfolding(crate::specs::Texts::event_text))]
fn append_limits_event(text: &mut Bytes, limits: &Limits) -> Result<(), AllocError>
    requires { HasLine (events.Limits limits.now) }
    ensures text { OnOk result (text.new ≡ text.old ++ event_text (events.Limits limits.now)) }
    ensures back { OnOk result (IsLineOf (events.Limits limits.now) (event_text (events.Limits limits.now))) }
{
    let Limits {
        endpoints,
        groups,
        sources,
    } = *limits;
    append_numbered(text, b"limits ", u64::from(endpoints))?;
    append_numbered(text, b" ", u64::from(groups))?;
    append_numbered(text, b" ", u64::from(sources))?;
    text.append(b"\n")
}

fn append_relay_event(text: &mut Bytes, event: &Event) -> Result<(), AllocError>
    requires { HasLine event.now }
    ensures text { OnOk result (text.new ≡ text.old ++ event_text event.now) }
    ensures back { OnOk result (IsLineOf event.now (event_text event.now)) }
{
    match event {
        Event::Moment(moment) => append_moment_event(text, *moment),
        Event::Datagram { from, bytes } => append_datagram_event(text, from, bytes.as_slice()),
        Event::Packet { bytes } => append_packet_event(text, bytes.as_slice()),
        Event::Rotate(secret) => append_secret_event(text, secret),
        Event::Limits(limits) => append_limits_event(text, limits),
    }
}

/// A script's line that says the event, with its line feed. It is read back as the event, new limits after
/// settings that allow them.
pub fn print_relay_event(alloc: Global, event: &Event) -> Result<Bytes, AllocError>
    requires { HasLine event.now }
    ensures text { IfOk result (λ text. text ≡ event_text event.now) }
    ensures back { IfOk result (IsLineOf event.now) }
{
    let mut text = Bytes::new(alloc);
    append_relay_event(&mut text, event)?;
    Ok(text)
}

// `= N OUTCOME`.
fn append_answer(text: &mut Bytes, number: u64, outcome: &Outcome) -> Result<(), AllocError>
    ensures { OnOk result (text.new ≡ text.old ++ answer_line number outcome.now) }
{
    text.append(b"= ")?;
    append_numeral(text, number)?;
    text.append(b" ")?;
    append_relay_outcome(text, outcome)?;
    text.append(b"\n")
}

/// Puts the lines of one step at the end: its number and outcome, and a line for each send.
#[tactic(auto, unfolding(crate::specs::Texts::step_text))]
pub fn append_relay_step(text: &mut Bytes, number: u64, step: &Step) -> Result<(), AllocError>
    ensures { OnOk result (text.new ≡ text.old ++ step_text number step.now.outcome step.now.sends) }
{
    append_answer(text, number, &step.outcome)?;
    for send in step.sends.as_slice() {
        append_send(text, &send.to.peer(), send.bytes.as_slice())?;
    }
    Ok(())
}

/// The lines of one step: its number and outcome, and a line for each send.
pub fn print_relay_step(alloc: Global, number: u64, step: &Step) -> Result<Bytes, AllocError>
    ensures { IfOk result (λ text. text ≡ step_text number step.now.outcome step.now.sends) }
{
    let mut text = Bytes::new(alloc);
    append_relay_step(&mut text, number, step)?;
    Ok(text)
}
