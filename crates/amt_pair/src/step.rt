//! What one event came to at each end.

use amt_values::{Bytes, Items};
use gateway_machine::GatewayStep;
use relay_machine::Step;

/// A step of one end, or that there was none.
#[derive(Debug, Drop)]
pub enum Part {
    /// What the event came to at the relay.
    Relay(Step),
    /// What it came to at the gateway of this name.
    Gateway { name: Bytes, step: GatewayStep },
    /// No datagram of this number was sent, or the one that was is for no gateway.
    Absent(u64),
}

/// The parts of a step, in the order in which they were taken.
pub type Parts = Items<Part>;

/// What one event came to.
#[derive(Debug, Drop)]
pub struct PairStep {
    pub parts: Parts,
    /// How many datagrams have been sent to the relay.
    pub up: u64,
    /// How many datagrams the relay has sent.
    pub down: u64,
    /// Whether a moment came to the relay and not to each gateway, since memory ran out on its way: the
    /// gateway without a part took no step, and neither did those after it.
    pub starved: bool,
}
