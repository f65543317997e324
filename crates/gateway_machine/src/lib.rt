//! The gateway, one event at a time.
//!
//! Contract: what a gateway answers to an event is a function of its settings, its first nonce, the
//! events before and the event, by one table of states and events.
//! It reports memberships by the response MAC and the nonce of an accepted Query, which its relay sent for
//! its last Request, and hands on only packets of its relay that some socket wants.
//! It knows no socket of a system, clock or thread: datagrams, moments, nonces and socket calls come in as
//! events, and datagrams and packets go out as steps.
//! Standard: RFC 7450, section 5.2; RFC 3376, sections 4, 5.1, 5.2 and 8; RFC 3810, sections 5, 6 and 9.
#![tactic(auto)]

mod advertisement;
mod asking;
mod calls;
mod datagram;
mod event;
mod exchange;
mod gateway;
mod general;
mod laws;
mod moment;
mod multicast;
mod outcome;
mod query;
mod reply;
mod report;
mod request;
mod settings;
mod short_sends;
mod situation;
mod step;
mod taken;
mod timing;

pub use event::GatewayEvent;
pub use exchange::GatewayState;
pub use gateway::Gateway;
pub use laws::{
    packets_are_wanted, queries_are_kept, sends_go_to_the_relay, states_have_relays,
    updates_answer_queries,
};
pub use outcome::{GatewayOutcome, Ignored, SocketRefusal};
pub use settings::GatewaySettings;
pub use step::{GatewayStep, PeerSend, PeerSends};
