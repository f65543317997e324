//! What socket calls come to. A call is made on a copy of the sockets, which takes their place where the reply is
//! whole.

ghost use Rattle.std.specs.Prelude.{◌≡◌, ℕ, ◌≤◌, All, IfOk, IfSome};
ghost use Rattle.group_records.specs.Written.{IsOfFamily, report_length};
ghost use Rattle.socket_merge.specs.{History.{SocketCall, with_call}, Sockets.{ForHistory, SocketsHold}, Changes.{IsOneCallAfter, change_records}, FullReport.{family_by}};
ghost use Rattle.gateway_machine.specs.{Answers.{accepted_answer, call_in, changed_answer}, Events.{IsEventOf}, Taken.{AnswersCall, IsReply}};

use crate::asking::begin;
use crate::event::GatewayEvent;
use crate::exchange::GatewayState;
use crate::outcome::GatewayOutcome;
use crate::reply::Reply;
use crate::report::{push_full_report, push_update};
use crate::short_sends::ShortSends;
use crate::situation::Situation;
use group_records::REPORT_LIMIT;
use socket_merge::{SocketFault, Sockets};
use source_filter::Records;
use std::alloc::{AllocError, Global};

/// The sockets after the event's call, or why it isn't made. An event without a call is answered as if
/// memory were refused, and no caller hands one in.
pub fn make_call(
    alloc: Global,
    here: &Situation<'_>,
    event: &GatewayEvent,
) -> Result<Sockets, SocketFault>
    requires { IsEventOf here.now.settings event.now }
    ensures answers { ForHistory here.now.sockets.now (λ history. IfSome (call_in event.now) (λ call.
        AnswersCall here.now.exchange history call result)) }
    ensures one_call { IfOk result (λ after.
        IsOneCallAfter here.now.sockets.now.sockets after.sockets) }
{
    let Ok(mut after) = here.sockets.copy_all(alloc) else {
        return Err(SocketFault::Memory);
    };
    let at = &here.exchange.moment;
    match event {
        GatewayEvent::Open {
            name,
            group,
            filter,
        } => match after.open(alloc, name.as_slice(), group, filter, at) {
            Ok(()) => Ok(after),
            Err(fault) => Err(fault),
        },
        GatewayEvent::Change { name, filter } => {
            match after.change(alloc, name.as_slice(), filter, at) {
                Ok(()) => Ok(after),
                Err(fault) => Err(fault),
            }
        }
        GatewayEvent::Close { name } => match after.close(name.as_slice(), at) {
            Ok(()) => Ok(after),
            Err(_) => Err(SocketFault::NoSocket),
        },
        GatewayEvent::LeaveAll => {
            after.leave_all(at);
            Ok(after)
        }
        _ => Err(SocketFault::Memory),
    }
}

// The records of what a call changed, from the sockets before it to those after it.
fn call_changes(alloc: Global, here: &Situation<'_>, after: &Sockets) -> Result<Records, AllocError>
    requires { IsOneCallAfter here.now.sockets.now.sockets after.now.sockets }
    ensures records { ForHistory here.now.sockets.now (λ history. (at : ℕ) (call : SocketCall)
        → SocketsHold after.now (with_call at call history) → IfOk result (λ records. records
        ≡ change_records (family_by here.now.settings.v6) history (with_call at call history))) }
    ensures family { IfOk result (All (IsOfFamily (family_by here.now.settings.v6))) }
    ensures most { IfOk result (λ records.
        report_length (family_by here.now.settings.v6) records ≤ REPORT_LIMIT) }
{
    after.changes_since(alloc, here.sockets, here.settings.v6)
}

// What a call comes to in state Active: what it changed is reported.
fn report_changes(alloc: Global, here: &Situation<'_>, after: &Sockets) -> Result<Reply, AllocError>
    requires { IsOneCallAfter here.now.sockets.now.sockets after.now.sockets }
    ensures { ForHistory here.now.sockets.now (λ history. (call : SocketCall)
        → SocketsHold after.now (with_call here.now.exchange.moment call history)
        → IfOk result (IsReply (changed_answer here.now.settings here.now.exchange
        (with_call here.now.exchange.moment call history)
        (change_records (family_by here.now.settings.v6) history
        (with_call here.now.exchange.moment call history))))) }
{
    let exchange = &here.exchange;
    let changes = call_changes(alloc, here, after)?;
    if changes.len() == 0 {
        return Ok(Reply::quiet(alloc, GatewayOutcome::Kept, *exchange));
    }
    let mut sends = ShortSends::new(alloc);
    push_update(&mut sends, alloc, &here.settings, exchange, &changes)?;
    push_full_report(&mut sends, alloc, &here.settings, exchange, after)?;
    Ok(Reply::sending(GatewayOutcome::Changed, sends, *exchange))
}

/// What a call comes to that is accepted, by the sockets after it.
pub fn answer_accepted(
    alloc: Global,
    here: &Situation<'_>,
    opening: bool,
    after: &Sockets,
) -> Result<Reply, AllocError>
    requires { IsOneCallAfter here.now.sockets.now.sockets after.now.sockets }
    ensures { ForHistory here.now.sockets.now (λ history. (call : SocketCall)
        → SocketsHold after.now (with_call here.now.exchange.moment call history)
        → IfOk result (IsReply (accepted_answer here.now.exchange.state opening here.now.settings
        here.now.exchange history (with_call here.now.exchange.moment call history)))) }
{
    let exchange = &here.exchange;
    match exchange.state {
        GatewayState::Active => report_changes(alloc, here, after),
        GatewayState::Idle if opening => begin(alloc, &here.settings, exchange, exchange.relay),
        _ => Ok(Reply::quiet(alloc, GatewayOutcome::Kept, *exchange)),
    }
}
