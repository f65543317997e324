//! What a gateway remembers of its exchange with relays, and how it goes on.

ghost use Rattle.std.specs.Prelude.{◌≡◌};
ghost use Rattle.gateway_machine.specs.Exchange.{active, discovering, drawn, idle, moved, relay_named, requesting, retried, start, with_next_nonce};

use crate::settings::GatewaySettings;
use crate::timing::wait_ms;
use amt_values::{Endpoint, Ip, Mac48, Moment, Peer};

/// What a gateway is about.
///
/// ```text
///             a socket is opened, no relay is known
///        +---------------------------------------------------+
///        |                                                   v
///     +------+   due, and nothing is wanted          +---------------+
///     | Idle |<--------------------------------------|  Discovering  |--+ due: Discovery again
///     +------+   (also from Requesting and Active)   +---------------+<-+ after 1, 2, 4, .., 64 s,
///        |                                             |           ^      then every 120 s
///        | a socket is opened,           Advertisement |           |
///        | a relay is known                            v           | due after five Requests
///        |                                           +---------------+   (discovery again, or the
///        +------------------------------------------>|  Requesting   |--+ configured relay again)
///                                                    +---------------+<-+ due: Request again
///                                                      |           ^      after 1, 2, 4, 8, 16 s
///                                              Query   v           | due after the query interval
///                                                    +---------------+
///                                                    |    Active     |--+ a socket call that changes
///                                                    +---------------+<-+ a filter is reported
/// ```
#[derive(Clone, Copy, Debug, PartialEq, Eq)]
pub enum GatewayState {
    /// Nothing is wanted, and no datagram is awaited.
    Idle,
    /// A Discovery was sent, and an Advertisement is awaited (RFC 7450, section 5.2.3.4).
    Discovering,
    /// A Request was sent, and a Query is awaited (RFC 7450, section 5.2.3.5).
    Requesting,
    /// A Query was accepted, and changes are reported by its response MAC (RFC 7450, section 5.2.3.6).
    Active,
}

/// What is kept of the last accepted Query.
#[derive(Clone, Copy, Debug)]
pub struct LastQuery {
    pub mac: Mac48,
    pub nonce: u32,
    /// The gateway's endpoint as the relay saw it, where the Query says it.
    pub seen: Option<Endpoint>,
    pub interval_seconds: u32,
    /// How long a report counts at the relay.
    pub lifetime_ms: u64,
}

/// What a gateway remembers of its exchange with relays.
#[derive(Clone, Copy, Debug)]
pub struct Exchange {
    pub moment: Moment,
    pub state: GatewayState,
    pub relay: Option<Peer>,
    /// The nonce of the last Discovery or Request.
    pub nonce: u32,
    /// How many Discoveries or Requests were sent with that nonce.
    pub tries: u8,
    /// When the next is due. It may lie after the last moment that there is, so it is a number.
    pub due_ms: u64,
    pub next_nonce: u32,
    pub query: Option<LastQuery>,
}

impl Exchange {
    pub fn start(settings: &GatewaySettings, nonce: u32) -> Exchange
        ensures { result ≡ start settings.now nonce }
    {
        Exchange {
            moment: Moment::new(0).unwrap(),
            state: GatewayState::Idle,
            relay: settings.relay,
            nonce: 0,
            tries: 0,
            due_ms: 0,
            next_nonce: nonce,
            query: None,
        }
    }

    pub fn moved(&self, at: &Moment) -> Exchange
        ensures { result ≡ moved at.now self.now }
    {
        Exchange {
            moment: self.moment.later(at),
            ..*self
        }
    }

    pub fn with_next_nonce(&self, nonce: u32) -> Exchange
        ensures { result ≡ with_next_nonce nonce self.now }
    {
        Exchange {
            next_nonce: nonce,
            ..*self
        }
    }

    fn drawn(&self) -> Exchange
        ensures { result ≡ drawn self.now }
    {
        Exchange {
            nonce: self.next_nonce,
            next_nonce: self.next_nonce.wrapping_add(1),
            ..*self
        }
    }

    pub fn discovering(&self) -> Exchange
        ensures { result ≡ discovering self.now }
    {
        Exchange {
            state: GatewayState::Discovering,
            relay: None,
            tries: 1,
            due_ms: self.moment.ms() + 1000,
            ..self.drawn()
        }
    }

    pub fn requesting(&self) -> Exchange
        ensures { result ≡ requesting self.now }
    {
        Exchange {
            state: GatewayState::Requesting,
            tries: 1,
            due_ms: self.moment.ms() + 1000,
            ..self.drawn()
        }
    }

    pub fn retried(&self) -> Exchange
        ensures { result ≡ retried self.now }
    {
        let tries = self.tries.saturating_add(1);
        Exchange {
            tries,
            due_ms: self.moment.ms() + wait_ms(tries),
            ..*self
        }
    }

    pub fn relay_named(&self, address: Ip, port: u16) -> Exchange
        ensures { result ≡ relay_named address port self.now }
    {
        Exchange {
            relay: Some(Peer { ip: address, port }),
            ..*self
        }
    }

    pub fn active(&self, query: LastQuery) -> Exchange
        ensures { result ≡ active query self.now }
    {
        let interval_ms = u64::from(query.interval_seconds) * 1000;
        Exchange {
            state: GatewayState::Active,
            due_ms: self.moment.ms() + interval_ms,
            query: Some(query),
            ..*self
        }
    }

    pub fn idle(&self) -> Exchange
        ensures { result ≡ idle self.now }
    {
        Exchange {
            state: GatewayState::Idle,
            ..*self
        }
    }
}
