//! What one event came to at each machine, and at each end.

use amt_values::{Bytes, Items};
use gateway_machine::GatewayStep;
use relay_machine::Step;

/// What one event came to at each machine of a dual gateway: a machine that took no step has none.
#[derive(Debug, Drop)]
pub struct DualStep {
    pub v4: Option<GatewayStep>,
    pub v6: Option<GatewayStep>,
    /// Whether a moment came to the IPv4 machine and not to the IPv6 one, since memory ran out on its way.
    pub starved: bool,
}

/// A step of one end, or that there was none.
#[derive(Debug, Drop)]
pub enum DualPart {
    /// What the event came to at the relay.
    Relay(Step),
    /// What it came to at the machine of this family of the gateway of this name.
    Gateway {
        name: Bytes,
        v6: bool,
        step: GatewayStep,
    },
    /// No datagram of this number was sent, or the one that was is for no gateway.
    Absent(u64),
}

/// The parts of a step, in the order in which they were taken.
pub type DualParts = Items<DualPart>;

/// What one event came to.
#[derive(Debug, Drop)]
pub struct DualPairStep {
    pub parts: DualParts,
    /// How many datagrams have been sent to the relay.
    pub up: u64,
    /// How many datagrams the relay has sent.
    pub down: u64,
    /// Whether a moment came to the relay and not to each machine, since memory ran out on its way: the
    /// machine without a part took no step, and neither did those after it.
    pub starved: bool,
}
