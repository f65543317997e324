//! A relay's script as it was read. It knows no octets.

use amt_values::Items;
use relay_machine::{Event, Settings};
use response_mac::Secret;

/// What a script does with its relay.
#[derive(Debug, Drop)]
pub enum RelayItem {
    /// The relay takes an event.
    Event(Event),
    /// The memberships are shown.
    Show,
}

/// Items, in order.
pub type RelayItems = Items<RelayItem>;

/// A relay's settings, its first secret, and what happens to it and is shown of it.
#[derive(Debug, Drop)]
pub struct RelayScript {
    pub settings: Settings,
    pub secret: Secret,
    pub items: RelayItems,
}
