//! A gateway's script as it was read. It knows no octets.

use amt_values::Items;
use gateway_machine::{GatewayEvent, GatewaySettings};

/// Events, in order.
pub type GatewayItems = Items<GatewayEvent>;

/// A gateway's settings, its first nonce, and what happens to it.
#[derive(Debug, Drop)]
pub struct GatewayScript {
    pub settings: GatewaySettings,
    pub nonce: u32,
    pub items: GatewayItems,
}
