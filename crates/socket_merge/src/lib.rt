//! The sockets of a host: what all of them want of each group, and the records that report it.
//!
//! Contract: sockets represent the history of accepted calls, so the filter of a group admits a source
//! exactly where some open socket of the group does, a full report says what is wanted and what was
//! left not long ago, and change records say, by group, what became of the filters from some sockets
//! to others.
//! It knows no message, tunnel or clock, and writes no octets.
//!
//! `Socket` is what is read of them: no call takes one.
//! Standard: RFC 3376, sections 3.1, 3.2, 5.1 and 5.2; RFC 3810, sections 4.1, 4.2, 6.1 and 6.2.
#![tactic(auto)]

mod changes;
mod family;
mod farewells;
mod fault;
mod laws;
mod limit;
mod named;
mod sockets;
mod stored;

pub use fault::{NoSocket, SocketFault};
pub use laws::changes_are_those_of_calls;
pub use sockets::Sockets;
pub use stored::Socket;
