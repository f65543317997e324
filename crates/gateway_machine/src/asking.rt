//! Discoveries and Requests.

ghost use Rattle.std.specs.Prelude.{IfOk, IsOk};
ghost use Rattle.gateway_machine.specs.{Answers.{ask, begin_with, discover, due_answer}, Outcomes.{IsAtRest}, Taken.{IsReply}};

use crate::exchange::{Exchange, GatewayState};
use crate::outcome::GatewayOutcome;
use crate::reply::Reply;
use crate::settings::GatewaySettings;
use crate::short_sends::ShortSends;
use amt_messages::Message;
use amt_values::Peer;
use std::alloc::{AllocError, Global};

// How many Requests are sent with one nonce.
const MOST_REQUESTS: u8 = 5;

// The answer where a Discovery is sent, with the exchange after it.
fn discover(alloc: Global, settings: &GatewaySettings, next: Exchange) -> Result<Reply, AllocError>
    ensures { IfOk result (IsReply (discover settings.now next)) }
{
    let message = Message::Discovery { nonce: next.nonce };
    let mut sends = ShortSends::new(alloc);
    sends.push(alloc, Some(settings.discovery), &message)?;
    let outcome = GatewayOutcome::Discovering(next.tries);
    Ok(Reply::sending(outcome, sends, next))
}

/// The answer where a Request is sent, with the exchange after it.
pub fn ask(alloc: Global, settings: &GatewaySettings, next: Exchange) -> Result<Reply, AllocError>
    ensures { IfOk result (IsReply (ask settings.now next)) }
{
    let mut sends = ShortSends::new(alloc);
    sends.push_request(alloc, next.relay, settings, next.nonce)?;
    let outcome = GatewayOutcome::Requesting(next.tries);
    Ok(Reply::sending(outcome, sends, next))
}

/// The answer that begins an exchange: a Request is sent where a relay is known, else a Discovery.
pub fn begin(
    alloc: Global,
    settings: &GatewaySettings,
    exchange: &Exchange,
    known: Option<Peer>,
) -> Result<Reply, AllocError>
    ensures answers { IfOk result (IsReply (begin_with known settings.now exchange.now)) }
    ensures rests { IsAtRest (begin_with known settings.now exchange.now).outcome → IsOk result }
{
    match known {
        Some(_) => ask(alloc, settings, exchange.requesting()),
        None => discover(alloc, settings, exchange.discovering()),
    }
}

/// The answer where something is due.
pub fn answer_due(
    alloc: Global,
    settings: &GatewaySettings,
    exchange: &Exchange,
) -> Result<Reply, AllocError>
    ensures answers { IfOk result (IsReply (due_answer exchange.now.state settings.now exchange.now)) }
    ensures rests { IsAtRest (due_answer exchange.now.state settings.now exchange.now).outcome → IsOk result }
{
    match exchange.state {
        // No moment comes to this: an idle gateway rests.
        GatewayState::Idle => Ok(Reply::quiet(alloc, GatewayOutcome::Quiet, *exchange)),
        GatewayState::Discovering => discover(alloc, settings, exchange.retried()),
        GatewayState::Requesting => {
            if exchange.tries < MOST_REQUESTS {
                ask(alloc, settings, exchange.retried())
            } else {
                begin(alloc, settings, exchange, settings.relay)
            }
        }
        GatewayState::Active => ask(alloc, settings, exchange.requesting()),
    }
}
