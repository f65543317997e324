//! A script of dual gateways as it was read. It knows no octets.

use amt_dual::DualPairEvent;
use amt_values::{Bytes, Items, Peer};
use relay_machine::Settings;
use response_mac::Secret;

/// A gateway of both families.
#[derive(Debug, Drop)]
pub struct DualGateway {
    pub name: Bytes,
    /// The gateway as the relay sees it.
    pub peer: Peer,
    /// The source of its IGMPv3 reports.
    pub source4: u32,
    /// The source of its MLDv2 reports.
    pub source6: u128,
}

/// Gateways, in the order of their lines.
pub type DualGateways = Items<DualGateway>;

/// What a script does with its relay and its gateways.
#[derive(Debug, Drop)]
pub enum DualItem {
    /// Something happens to them.
    Event(DualPairEvent),
    /// The memberships at the relay are shown.
    Show,
}

/// Items, in order.
pub type DualItems = Items<DualItem>;

/// A relay's settings and its first secret, the gateways, and what happens to them and is shown of them.
#[derive(Debug, Drop)]
pub struct DualScript {
    pub settings: Settings,
    pub secret: Secret,
    pub gateways: DualGateways,
    pub items: DualItems,
}
