//! What one line of a pair's script says. It knows no line.

use crate::script::{PairGateway, PairItem};
use amt_script::Setting;

/// What a line says.
#[derive(Debug, Drop)]
pub enum PairStatement {
    /// A setting of the relay.
    Setting(Setting),
    /// A gateway.
    Gateway(PairGateway),
    /// What happens next, or is shown.
    Item(PairItem),
}
