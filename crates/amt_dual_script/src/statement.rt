//! What one line of a script of dual gateways says. It knows no line.

use crate::script::{DualGateway, DualItem};
use amt_script::Setting;

/// What a line says.
#[derive(Drop)]
pub enum DualStatement {
    /// A setting of the relay.
    Setting(Setting),
    /// A gateway.
    Gateway(DualGateway),
    /// What happens next, or is shown.
    Item(DualItem),
}
