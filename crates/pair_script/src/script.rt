//! A script of a pair as it was read. It knows no octets.

use amt_pair::PairEvent;
use amt_values::{Bytes, Ip, Items, Peer};
use relay_machine::Settings;
use response_mac::Secret;

/// A gateway of a script.
#[derive(Debug, Drop)]
pub struct PairGateway {
    pub name: Bytes,
    /// The gateway as the relay sees it.
    pub peer: Peer,
    /// Whether its groups are of IPv6.
    pub v6: bool,
    /// The source of its reports: an address of its family.
    pub source: Ip,
}

/// Gateways, in the order of their lines.
pub type PairGateways = Items<PairGateway>;

/// What a script does with its relay and its gateways.
#[derive(Debug, Drop)]
pub enum PairItem {
    /// Something happens to them.
    Event(PairEvent),
    /// The memberships at the relay are shown.
    Show,
}

/// Items, in order.
pub type PairItems = Items<PairItem>;

/// A relay's settings and its first secret, the gateways, and what happens to them and is shown of them.
#[derive(Debug, Drop)]
pub struct PairScript {
    pub settings: Settings,
    pub secret: Secret,
    pub gateways: PairGateways,
    pub items: PairItems,
}
