//! The scripts of a relay with gateways of both families, and the texts of their runs.
//!
//! Contract: octets are read as a script exactly where they spell it, else as the first bad line and
//! the first reason in it; a script's text is a function of the script.
//! It knows sinks by their trait alone, and no real device.
//! Standard: none of its own; the formats stand in docs/FORMATS.md.
#![tactic(auto)]

mod call_line;
mod gateway_line;
mod given;
mod laws;
mod line;
mod reading;
mod replay;
mod script;
mod statement;
mod text;

pub use laws::gateways_step_as_dual_ones;
pub use reading::read_dual_script;
pub use replay::run_dual_script;
pub use script::{DualGateway, DualGateways, DualItem, DualItems, DualScript};
pub use script_lines::{Reason, RunFault, ScriptError};
