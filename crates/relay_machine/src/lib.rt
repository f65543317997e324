//! The relay, one event at a time.
//!
//! Contract: what the relay answers to an event is a function of its settings, its first secret,
//! the events before and the event.
//! Its memberships are what the accepted log of the events implies.
//! Each packet that may be forwarded goes once, to exactly the endpoints that want it.
//! It knows no socket, clock or thread: datagrams, packets, moments and secrets come in as events,
//! and datagrams and entries of the log go out as steps.
//! Standard: RFC 7450, section 5.3; RFC 3376, sections 4.1 and 8; RFC 3810, section 5.
#![tactic(auto)]

mod datagram;
mod discovery;
mod event;
mod laws;
mod number_key;
mod outcome;
mod packet;
mod published;
mod relay;
mod report;
mod request;
mod sends;
mod settings;
mod setup;
mod teardown;
mod update;

pub use event::Event;
pub use laws::{lawful_reports_are_those_that_are_read, queries_for_linux_have_no_flag};
pub use number_key::{NUMBER_KEYS, NumberKey, NumberRange};
pub use outcome::{NotForwarded, Outcome, Unlawful};
pub use published::steps_hand_out_the_published_log;
pub use relay::Relay;
pub use report::{Unread, read_report};
pub use sends::{OneSend, Sends, Step};
pub use settings::{SOURCE_LIMIT, Settings, has_code};
