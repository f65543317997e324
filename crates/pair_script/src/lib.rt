//! The scripts of a relay with its gateways, and the texts of their runs.
//!
//! Contract: octets are read as a script exactly where they spell it, else as the first bad line and
//! the first reason in it; a script's text is a function of the script.
//! It knows sinks by their trait alone, and no real device.
//! Standard: none of its own; the formats stand in docs/FORMATS.md.
#![tactic(auto)]

mod call_line;
mod gateway_line;
mod given;
mod item_line;
mod line;
mod opening;
mod reading;
mod replay;
mod script;
mod statement;
mod text;

pub use item_line::read_item;
pub use opening::{Opening, is_gateway_name, opening_of};
pub use reading::read_pair_script;
pub use replay::run_pair_script;
pub use script::{PairGateway, PairGateways, PairItem, PairItems, PairScript};
pub use script_lines::{Reason, RunFault, ScriptError};
pub use text::append_parts;
