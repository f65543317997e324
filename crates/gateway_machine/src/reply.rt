//! What an event comes to before it is taken.
//!
//! Nothing is changed while a reply is made, so a gateway is as before where memory runs out.

ghost use Rattle.std.specs.Prelude.{◌≡◌, None};

use crate::exchange::Exchange;
use crate::outcome::{GatewayOutcome, Ignored};
use crate::short_sends::ShortSends;
use amt_values::Bytes;
use std::alloc::Global;

/// What an event comes to: the parts of a step, and the exchange after it.
#[derive(Debug, Drop)]
pub struct Reply {
    pub outcome: GatewayOutcome,
    pub sends: ShortSends,
    pub deliver: Option<Bytes>,
    pub next: Exchange,
}

impl Reply {
    ghost use Rattle.gateway_machine.specs.{Answers.{ignored, quiet}, Taken.{IsReply}};

    /// Nothing is sent or handed on.
    pub fn quiet(alloc: Global, outcome: GatewayOutcome, next: Exchange) -> Reply
        ensures { IsReply (quiet outcome next) result }
    {
        Reply::sending(outcome, ShortSends::new(alloc), next)
    }

    /// A datagram is ignored.
    pub fn ignored(alloc: Global, exchange: &Exchange, cause: Ignored) -> Reply
        ensures { IsReply (ignored exchange.now cause) result }
    {
        Reply::quiet(alloc, GatewayOutcome::Ignored(cause), *exchange)
    }

    /// This is sent, and nothing handed on.
    pub fn sending(outcome: GatewayOutcome, sends: ShortSends, next: Exchange) -> Reply
        ensures outcome { result.outcome ≡ outcome }
        ensures sends { result.sends ≡ sends }
        ensures deliver { result.deliver ≡ None }
        ensures next { result.next ≡ next }
    {
        Reply {
            outcome,
            sends,
            deliver: None,
            next,
        }
    }
}
