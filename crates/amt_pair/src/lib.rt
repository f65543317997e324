//! Both ends of a tunnel: a relay and its gateways on one schedule.
//!
//! Contract: a step is the steps of the ends that an event comes to, by their own definitions; and
//! after every schedule that delivers in time, the relay forwards to a gateway that it has heard
//! what the gateway's sockets want.
//! It knows no message, and names no socket, clock or thread.
//! Standard: RFC 7450, sections 5.1.4, 5.2 and 5.3; RFC 3376, sections 3.2, 4.1, 5 and 8; RFC 3810,
//! sections 5.1 and 9.
#![tactic(auto)]

mod agreement;
mod datagrams;
mod event;
mod gateways;
mod laws;
mod numbered;
mod pair;
mod ranges;
mod silence;
mod step;

pub use agreement::{
    all_groups_agree, both_ends_agree, entries_are_the_accepted_log, named_groups_agree,
};
pub use datagrams::{DownDatagrams, UpDatagram, UpDatagrams, keep_copies};
pub use event::PairEvent;
pub use gateways::{Gateways, NamedGateway};
pub use laws::{
    relays_queries_are_accepted, requests_ask_for_their_family, steps_extend_schedules,
};
pub use numbered::Numbered;
pub use pair::{Pair, PairFault};
pub use ranges::{gateway_event_fits, peer_fits, settings_fit};
pub use silence::{farewells_are_kept, silent_entries_admit_nothing};
pub use step::{PairStep, Part, Parts};
