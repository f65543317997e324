//! What an Advertisement comes to.

ghost use Rattle.std.specs.Prelude.{IfOk, IsOk};
ghost use Rattle.gateway_machine.specs.{Answers.{advertisement_answer}, Outcomes.{IsRefused}, Taken.{IsReply}};

use crate::asking::ask;
use crate::exchange::{Exchange, GatewayState};
use crate::outcome::Ignored;
use crate::reply::Reply;
use crate::settings::GatewaySettings;
use amt_values::Ip;
use std::alloc::{AllocError, Global};

/// What an Advertisement comes to: the relay that it names is asked. Its source isn't checked: whoever
/// answers by the nonce saw the Discovery, or guessed 32 bits.
pub fn take_advertisement(
    alloc: Global,
    settings: &GatewaySettings,
    exchange: &Exchange,
    nonce: u32,
    relay: Ip,
) -> Result<Reply, AllocError>
    ensures answers { IfOk result (IsReply
        (advertisement_answer exchange.now.state settings.now exchange.now nonce relay)) }
    ensures ignored { IsRefused
        (advertisement_answer exchange.now.state settings.now exchange.now nonce relay).outcome → IsOk result }
{
    if exchange.state != GatewayState::Discovering {
        return Ok(Reply::ignored(alloc, exchange, Ignored::State(2)));
    }
    if exchange.nonce != nonce {
        let cause = Ignored::Nonce(exchange.nonce, nonce);
        return Ok(Reply::ignored(alloc, exchange, cause));
    }
    let named = exchange.relay_named(relay, settings.port);
    ask(alloc, settings, named.requesting())
}
