//! A gateway of both families, and both ends of a tunnel with such gateways.
//!
//! Contract: a step is the steps of the machines that an event comes to, by their own definitions; and
//! after every schedule that delivers a machine's datagrams in time, the relay forwards to a dual gateway
//! what the sockets of that machine want, of each group of its family.
//! It knows no message, and names no socket, clock or thread.
//! Standard: RFC 7450, sections 4.1.2, 5.1.4, 5.2 and 5.3; RFC 3376, sections 3.2, 4.1, 5 and 8; RFC 3810,
//! sections 5.1 and 9.
#![tactic(auto)]

mod agreement;
mod at_relay;
mod dual;
mod event;
mod laws;
mod pair;
mod parts;
mod ranges;
mod step;

pub use agreement::{both_families_agree, every_group_agrees, named_groups_agree};
pub use dual::Dual;
pub use event::{DualEvent, DualPairEvent};
pub use laws::steps_extend_schedules;
pub use pair::{DualFault, DualPair};
pub use step::{DualPairStep, DualPart, DualParts, DualStep};
