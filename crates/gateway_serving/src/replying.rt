//! The texts by which a running gateway answers lines. It knows no device.
ghost use Rattle.std.specs.Prelude.{◌≡◌, ◌<◌, ◌^◌, [], ◌∷◌, ◌++◌, flat_map, IfOk, IfSome, OnOk};
ghost use Rattle.control_lines.specs.Tally.{tally_text};
ghost use Rattle.gateway_machine.specs.Runs.{After};
ghost use Rattle.script_lines.specs.Texts.{mode_text};
ghost use Rattle.gateway_serving.specs.{OutcomeWords.{IsTallied, outcome_words}, Replies.{Standing, due_text, numbers_at, numbers_text, relay_text, reply_text, show_text, socket_text, sources_text, state_text, state_word}};

use crate::numbers::Numbers;
use crate::outcomes::Outcomes;
use amt_values::{Bytes, Ip, Moment, Peer};
use control_lines::{GatewayAsking, bad_text};
use gateway_machine::{Gateway, GatewayState};
use script_lines::{Reason, append_ip, append_numbered, append_peer, mode_word};
use socket_merge::Socket;
use source_filter::Filter;
use std::alloc::{AllocError, Global};

fn state_word(state: GatewayState) -> &'static str
    ensures { result.now ≡ state_word state }
{
    match state {
        GatewayState::Idle => "idle",
        GatewayState::Discovering => "discovering",
        GatewayState::Requesting => "requesting",
        GatewayState::Active => "active",
    }
}

fn append_state(text: &mut Bytes, state: GatewayState) -> Result<(), AllocError>
    ensures { OnOk result (text.new ≡ text.old ++ state_text state) }
{
    text.append(b"state ")?;
    text.append(state_word(state).as_bytes())?;
    text.append(b"\n")
}

fn append_relay(text: &mut Bytes, relay: &Option<Peer>) -> Result<(), AllocError>
    ensures { OnOk result (text.new ≡ text.old ++ relay_text relay.now) }
{
    let Some(relay) = relay else {
        return text.append(b"relay none\n");
    };
    text.append(b"relay ")?;
    append_peer(text, relay)?;
    text.append(b"\n")
}

fn append_due(text: &mut Bytes, due: Option<Moment>) -> Result<(), AllocError>
    ensures text { OnOk result (text.new ≡ text.old ++ due_text due) }
    ensures small { IfSome due (λ moment. moment < 2 ^ 62) }
{
    let Some(due) = due else {
        return text.append(b"due none\n");
    };
    append_numbered(text, b"due ", due.ms())?;
    text.append(b"\n")
}

// Each source after a space.
fn append_sources(text: &mut Bytes, sources: &[Ip]) -> Result<(), AllocError>
    ensures { OnOk result (text.new ≡ text.old ++ sources_text sources.now) }
{
    for source in sources {
        text.append(b" ")?;
        append_ip(text, source)?;
    }
    Ok(())
}

// The mode and the sources, which end a socket's line.
fn append_filter(text: &mut Bytes, filter: &Filter) -> Result<(), AllocError>
    ensures { OnOk result (text.new ≡ text.old
        ++ (mode_text filter.now.mode ++ (sources_text filter.now.sources ++ 10 ∷ []))) }
{
    text.append(mode_word(filter.mode()).as_bytes())?;
    append_sources(text, filter.sources())?;
    text.append(b"\n")
}

// The line of a socket.
#[tactic(auto, unfolding(crate::specs::Replies::socket_text))]
fn append_socket(text: &mut Bytes, socket: &Socket) -> Result<(), AllocError>
    ensures { OnOk result (text.new ≡ text.old ++ socket_text socket.now) }
{
    text.append(b"* ")?;
    text.append(socket.name.as_slice())?;
    text.append(b" ")?;
    append_ip(text, &socket.group)?;
    text.append(b" ")?;
    append_filter(text, &socket.filter)
}

fn append_sockets(text: &mut Bytes, sockets: &[Socket]) -> Result<(), AllocError>
    ensures { OnOk result (text.new ≡ text.old ++ flat_map socket_text sockets.now) }
{
    for socket in sockets {
        append_socket(text, socket)?;
    }
    Ok(())
}

/// The answer to `counts`.
pub(crate) fn counts_text(
    alloc: Global,
    numbers: &Numbers,
    outcomes: &Outcomes,
) -> Result<Bytes, AllocError>
    ensures { IfOk result (λ text. text
        ≡ numbers_text numbers.now ++ tally_text outcome_words outcomes.now.tally) }
{
    let mut text = Bytes::new(alloc);
    numbers.append(&mut text)?;
    outcomes.append(&mut text)?;
    Ok(text)
}

/// The answer to `show`.
pub(crate) fn show_text(alloc: Global, gateway: &Gateway) -> Result<Bytes, AllocError>
    ensures { After gateway.now (λ settings first events.
        IfOk result (λ text. text ≡ show_text settings first events)) }
{
    let mut text = Bytes::new(alloc);
    append_state(&mut text, gateway.state())?;
    append_relay(&mut text, &gateway.relay())?;
    append_due(&mut text, gateway.due())?;
    append_sockets(&mut text, gateway.open_sockets())?;
    Ok(text)
}

/// What answers a line that was read so.
pub(crate) fn reply(
    alloc: Global,
    gateway: &Gateway,
    numbers: &Numbers,
    outcomes: &Outcomes,
    reading: &Result<GatewayAsking, Reason>,
) -> Result<Bytes, AllocError>
    ensures { (standing : Standing) → numbers.now ≡ numbers_at standing
        → After gateway.now (λ settings first events. standing.events ≡ events
        → IsTallied settings first events outcomes.now
        → IfOk result (λ text. text ≡ reply_text settings first standing reading.now)) }
{
    match reading {
        Ok(GatewayAsking::Counts) => counts_text(alloc, numbers, outcomes),
        Ok(GatewayAsking::Show) => show_text(alloc, gateway),
        Ok(GatewayAsking::Stop | GatewayAsking::StopLeave) => Ok(Bytes::new(alloc)),
        Err(reason) => bad_text(alloc, *reason),
    }
}
