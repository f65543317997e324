//! What a moment comes to.

ghost use Rattle.std.specs.Prelude.{◌≡◌, ◌||◌, ◌≤◌, ◌<◌, ◌^◌, ◌↔◌, ℕ, List, max, nat_lt, IfSome, IsOk};
ghost use Rattle.socket_merge.specs.{Sockets.{ForHistory}, History.{AcceptedCall}};
ghost use Rattle.gateway_machine.specs.{Answers.{answer_at, is_idle}, Due.{IsBefore}, Exchange.{moved}, declared.{outcome.GatewayOutcome.TheVariants.{Quiet}, settings.GatewaySettings.{GatewaySettings}}, Outcomes.{IsAtRest}, Taken.{Replies}};

use crate::asking::answer_due;
use crate::exchange::{Exchange, GatewayState};
use crate::outcome::GatewayOutcome;
use crate::reply::Reply;
use crate::situation::Situation;
use crate::timing::farewell_ms;
use amt_values::Moment;
use std::alloc::{AllocError, Global};

fn is_idle(exchange: &Exchange) -> bool
    ensures { result ≡ is_idle exchange.now.state }
{
    exchange.state == GatewayState::Idle
}

/// The earliest moment at which something is due, if there is one: never one before the exchange's own.
pub fn due_at(exchange: &Exchange) -> Option<Moment>
    ensures due { (settings : GatewaySettings) (history : List AcceptedCall) (at : ℕ) → at < 2 ^ 62
        → ((answer_at settings (moved at exchange.now) history).outcome ≡ Quiet
        ↔ IsBefore (max exchange.now.moment at) result) }
    ensures onward { IfSome result (λ due. exchange.now.moment ≤ due) }
{
    if is_idle(exchange) {
        return None;
    }
    let now = exchange.moment.ms();
    Moment::new(exchange.due_ms.max(now))
}

// Nothing is due yet, or nothing is wanted.
fn rests(exchange: &Exchange) -> bool
    ensures { result ≡ (nat_lt exchange.now.moment exchange.now.due_ms || is_idle exchange.now.state) }
{
    exchange.moment.ms() < exchange.due_ms || is_idle(exchange)
}

/// What the exchange's moment comes to.
pub fn answer_at(alloc: Global, here: &Situation<'_>) -> Result<Reply, AllocError>
    ensures answers { Replies here.now.sockets.now result
        (answer_at here.now.settings here.now.exchange) }
    ensures rests { ForHistory here.now.sockets.now (λ history.
        IsAtRest (answer_at here.now.settings here.now.exchange history).outcome → IsOk result) }
{
    let exchange = &here.exchange;
    if rests(exchange) {
        return Ok(Reply::quiet(alloc, GatewayOutcome::Quiet, *exchange));
    }
    let keep_ms = farewell_ms(exchange.query);
    if here.sockets.quiet(&exchange.moment, keep_ms) {
        return Ok(Reply::quiet(alloc, GatewayOutcome::Idle, exchange.idle()));
    }
    answer_due(alloc, &here.settings, exchange)
}
