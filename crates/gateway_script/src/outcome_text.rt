//! The texts of what an event came to. It knows no step.

ghost use Rattle.std.specs.Prelude.{◌≡◌, ◌++◌, OnOk, OnErr};
ghost use Rattle.gateway_machine.specs.declared.outcome.Ignored.TheVariants.{Nonce as NonceCause};
ghost use Rattle.gateway_script.specs.Texts.{ignored_text, outcome_text, socket_refusal_text};

use amt_values::Bytes;
use gateway_machine::{GatewayOutcome, Ignored, SocketRefusal};
use script_lines::{
    append_head_fault, append_inner_fault, append_nonce, append_numbered, append_refusal,
    append_report_fault,
};
use std::alloc::{AllocError, Global};

fn append_socket_refusal(text: &mut Bytes, refusal: SocketRefusal) -> Result<(), AllocError>
    ensures { OnOk result (text.new ≡ text.old ++ socket_refusal_text refusal) }
{
    match refusal {
        SocketRefusal::Taken => text.append(b"taken"),
        SocketRefusal::NoSocket => text.append(b"nosocket"),
        SocketRefusal::SourcesFull(sources) => append_numbered(
            text,
            b"sources ",
            u64::from(sources),
        ),
        SocketRefusal::ReportFull(octets) => append_numbered(text, b"report ", u64::from(octets)),
    }
}

// The nonce that is wanted, and the one that is there.
fn append_nonces(text: &mut Bytes, want: u32, have: u32) -> Result<(), AllocError>
    ensures { OnOk result (text.new ≡ text.old ++ ignored_text (NonceCause want have)) }
{
    text.append(b"nonce ")?;
    append_nonce(text, want)?;
    text.append(b" ")?;
    append_nonce(text, have)
}

fn append_ignored(text: &mut Bytes, cause: &Ignored) -> Result<(), AllocError>
    ensures { OnOk result (text.new ≡ text.old ++ ignored_text cause.now) }
{
    match *cause {
        Ignored::Undecoded(refusal) => {
            text.append(b"refused ")?;
            append_refusal(text, &refusal)
        }
        Ignored::Kind(kind) => append_numbered(text, b"kind ", u64::from(kind)),
        Ignored::State(kind) => append_numbered(text, b"state ", u64::from(kind)),
        Ignored::Sender(relay, from) => write!(text, "sender {relay} {from}"),
        Ignored::Nonce(want, have) => append_nonces(text, want, have),
        Ignored::Inner(fault) => {
            text.append(b"inner ")?;
            append_inner_fault(text, &fault)
        }
        Ignored::Family => text.append(b"family"),
        Ignored::Body(fault) => {
            text.append(b"body ")?;
            append_report_fault(text, &fault)
        }
        Ignored::NotGeneral(group) => write!(text, "notgeneral {group}"),
        Ignored::Head(fault) => {
            text.append(b"head ")?;
            append_head_fault(text, &fault)
        }
        Ignored::Scope(group) => write!(text, "scope {group}"),
        Ignored::NotWanted(group, source) => write!(text, "notwanted {group} {source}"),
    }
}

fn append_outcome(text: &mut Bytes, outcome: &GatewayOutcome) -> Result<(), AllocError>
    ensures { OnOk result (text.new ≡ text.old ++ outcome_text outcome.now) }
{
    match *outcome {
        GatewayOutcome::Quiet => text.append(b"quiet"),
        GatewayOutcome::Drawn => text.append(b"drawn"),
        GatewayOutcome::Discovering(tries) => {
            append_numbered(text, b"discovering ", u64::from(tries))
        }
        GatewayOutcome::Requesting(tries) => append_numbered(
            text,
            b"requesting ",
            u64::from(tries),
        ),
        GatewayOutcome::Active => text.append(b"active"),
        GatewayOutcome::Idle => text.append(b"idle"),
        GatewayOutcome::Changed => text.append(b"changed"),
        GatewayOutcome::Kept => text.append(b"kept"),
        GatewayOutcome::Delivered => text.append(b"delivered"),
        GatewayOutcome::SocketRefused(refusal) => {
            text.append(b"refused ")?;
            append_socket_refusal(text, refusal)
        }
        GatewayOutcome::Ignored(cause) => {
            text.append(b"ignored ")?;
            append_ignored(text, &cause)
        }
    }
}

/// Puts what an event came to at the end. The words are made apart, so that no part of them stands there
/// where memory runs out: a printer that fails doesn't say what it has put.
pub fn append_gateway_outcome(
    alloc: Global,
    text: &mut Bytes,
    outcome: &GatewayOutcome,
) -> Result<(), AllocError>
    ensures ok { OnOk result (text.new ≡ text.old ++ outcome_text outcome.now) }
    ensures err { OnErr result (text.new ≡ text.old) }
{
    let mut words = Bytes::new(alloc);
    append_outcome(&mut words, outcome)?;
    text.append(words.as_slice())
}
