//! What a Query comes to.

ghost use Rattle.std.specs.Prelude.{◌≡◌, ◌≤◌, ◌<◌, false, length, IfOk};
ghost use Rattle.gateway_machine.specs.{Answers.{asked_relay, fields_heard, query_accepted, query_answer}, Taken.{Replies}};

use crate::exchange::{Exchange, GatewayState, LastQuery};
use crate::general::read_general;
use crate::outcome::{GatewayOutcome, Ignored};
use crate::reply::Reply;
use crate::report::{push_full_report, push_teardown};
use crate::short_sends::ShortSends;
use crate::situation::Situation;
use crate::timing::{interval_seconds, lifetime_ms};
use amt_values::{Endpoint, Mac48, Peer};
use source_filter::QueryFields;
use std::alloc::{AllocError, Global};

// The relay that a Query is awaited from.
fn asked_relay(exchange: &Exchange) -> Option<Peer>
    ensures { result ≡ asked_relay exchange.now.state exchange.now.relay }
{
    match exchange.state {
        GatewayState::Requesting => exchange.relay,
        _ => None,
    }
}

// The fields of the General Query in a Query, or why it is ignored. The law states_have_relays excludes
// that a Query is awaited from no relay.
fn read_fields(
    here: &Situation<'_>,
    from: &Peer,
    nonce: u32,
    inner: &[u8],
) -> Result<QueryFields, Ignored>
    requires { length inner.now ≤ 65535 }
    ensures value { result ≡ fields_heard
        (asked_relay here.now.exchange.state here.now.exchange.relay)
        here.now.settings.v6 here.now.exchange from.now nonce inner.now }
    ensures code { here.now.settings.v6 ≡ false → IfOk result (λ fields. fields.max_code < 256) }
{
    let exchange = &here.exchange;
    let Some(relay) = asked_relay(exchange) else {
        return Err(Ignored::State(4));
    };
    if relay != *from {
        return Err(Ignored::Sender(relay, *from));
    }
    if exchange.nonce != nonce {
        return Err(Ignored::Nonce(exchange.nonce, nonce));
    }
    read_general(here.settings.v6, inner)
}

// A Query of this MAC and nonce is accepted. The endpoint that the relay saw before is torn down by the
// last MAC, which the new query replaces, so the Teardown goes first.
fn accept_query(alloc: Global, here: &Situation<'_>, query: LastQuery) -> Result<Reply, AllocError>
    ensures answers { Replies here.now.sockets.now result (λ history.
        query_accepted here.now.settings here.now.exchange history query) }
{
    let next = here.exchange.active(query);
    let mut sends = ShortSends::new(alloc);
    push_teardown(&mut sends, alloc, &here.exchange, &query)?;
    push_full_report(&mut sends, alloc, &here.settings, &next, here.sockets)?;
    Ok(Reply::sending(GatewayOutcome::Active, sends, next))
}

/// What a Query comes to.
pub fn take_query(
    alloc: Global,
    here: &Situation<'_>,
    from: &Peer,
    mac: Mac48,
    nonce: u32,
    inner: &[u8],
    seen: Option<Endpoint>,
) -> Result<Reply, AllocError>
    requires { length inner.now ≤ 65535 }
    ensures answers { Replies here.now.sockets.now result (λ history.
        query_answer here.now.settings here.now.exchange history from.now mac nonce inner.now seen) }
{
    let fields = match read_fields(here, from, nonce, inner) {
        Ok(fields) => fields,
        Err(cause) => return Ok(Reply::ignored(alloc, &here.exchange, cause)),
    };
    let query = LastQuery {
        mac,
        nonce,
        seen,
        interval_seconds: interval_seconds(&fields),
        lifetime_ms: lifetime_ms(here.settings.v6, &fields),
    };
    accept_query(alloc, here, query)
}
