//! What an event comes to before it is taken: the reply, and the sockets after it, where they are others.

ghost use Rattle.std.specs.Prelude.{◌≡◌, IfOk, IfSome, IsOk, unwrap_or};
ghost use Rattle.socket_merge.specs.Sockets.{ForHistory};
ghost use Rattle.gateway_machine.specs.{Answers.{call_in, event_answer, is_opening}, Events.{IsDraw, IsEventOf}, Outcomes.{NeedsNoMemory}, Refusals.{refusal_in}, Taken.{IsTaken, IsTakenCall}};

use crate::calls::{answer_accepted, make_call};
use crate::datagram::take_datagram;
use crate::event::GatewayEvent;
use crate::moment::answer_at;
use crate::outcome::{GatewayOutcome, SocketRefusal};
use crate::reply::Reply;
use crate::situation::Situation;
use socket_merge::{SocketFault, Sockets};
use std::alloc::{AllocError, Global};

/// The others take the place of the sockets, if there are others.
pub fn replace_sockets(sockets: &mut Sockets, others: Option<Sockets>)
    ensures { sockets.new ≡ unwrap_or others sockets.old }
{
    if let Some(others) = others {
        *sockets = others;
    }
}

// The refusal in a fault of the sockets. Out of memory is none.
fn refusal_in(fault: SocketFault) -> Option<SocketRefusal>
    ensures { result ≡ refusal_in fault }
{
    match fault {
        SocketFault::Taken => Some(SocketRefusal::Taken),
        SocketFault::NoSocket => Some(SocketRefusal::NoSocket),
        SocketFault::SourcesFull(sources) => Some(SocketRefusal::SourcesFull(sources)),
        SocketFault::ReportFull(octets) => Some(SocketRefusal::ReportFull(octets)),
        SocketFault::Memory => None,
    }
}

// Whether the event opens a socket.
fn is_opening(event: &GatewayEvent) -> bool
    ensures { IfSome (call_in event.now) (λ call. result ≡ is_opening call) }
{
    match event {
        GatewayEvent::Open { .. } => true,
        _ => false,
    }
}

// What the socket call of an event comes to.
fn take_call(
    alloc: Global,
    here: &Situation<'_>,
    event: &GatewayEvent,
) -> Result<(Reply, Option<Sockets>), AllocError>
    requires { IsEventOf here.now.settings event.now }
    ensures { ForHistory here.now.sockets.now (λ history. IfSome (call_in event.now) (λ call.
        IfOk result (IsTakenCall here.now.settings here.now.exchange here.now.sockets.now history call))) }
{
    let after = match make_call(alloc, here, event) {
        Ok(after) => after,
        Err(fault) => {
            let Some(refusal) = refusal_in(fault) else {
                return Err(AllocError);
            };
            let outcome = GatewayOutcome::SocketRefused(refusal);
            return Ok((Reply::quiet(alloc, outcome, here.exchange), None));
        }
    };
    let reply = answer_accepted(alloc, here, is_opening(event), &after)?;
    Ok((reply, Some(after)))
}

/// What an event comes to.
pub fn answer_event(
    alloc: Global,
    here: &Situation<'_>,
    event: &GatewayEvent,
) -> Result<(Reply, Option<Sockets>), AllocError>
    requires { IsEventOf here.now.settings event.now }
    ensures taken { ForHistory here.now.sockets.now (λ history. IfOk result
        (IsTaken here.now.settings here.now.exchange here.now.sockets.now history event.now)) }

    // A nonce takes no memory.
    ensures sure { IsDraw event.now → IsOk result }
    ensures needs_none { ForHistory here.now.sockets.now (λ history. NeedsNoMemory event.now
        (event_answer here.now.settings here.now.exchange history event.now).outcome → IsOk result) }
{
    match event {
        GatewayEvent::Moment(at) => {
            let moved = Situation {
                settings: here.settings,
                exchange: here.exchange.moved(at),
                sockets: here.sockets,
            };
            let reply = answer_at(alloc, &moved)?;
            Ok((reply, None))
        }
        GatewayEvent::Nonce(nonce) => {
            let next = here.exchange.with_next_nonce(*nonce);
            Ok((Reply::quiet(alloc, GatewayOutcome::Drawn, next), None))
        }
        GatewayEvent::Datagram { from, bytes } => {
            let reply = take_datagram(alloc, here, from, bytes.as_slice())?;
            Ok((reply, None))
        }
        GatewayEvent::Open { .. }
        | GatewayEvent::Change { .. }
        | GatewayEvent::Close { .. }
        | GatewayEvent::LeaveAll => take_call(alloc, here, event),
    }
}
