//! The scripts of gateways and the texts of their steps, and the lines that make socket calls.
//!
//! Contract: octets are read as a script exactly where they spell it, else as the first bad line and
//! the first reason in it; a script's text is a function of the script.
//! It knows sinks by their trait alone, and no real device.
//! Standard: none of its own; the formats stand in docs/FORMATS.md.
#![tactic(auto)]

mod call_line;
mod filter_fields;
mod kind;
mod line;
mod outcome_text;
mod reading;
mod replay;
mod script;
mod setting;
mod settling;
mod socket_line;
mod statement;
mod text;

pub use outcome_text::append_gateway_outcome;
pub use reading::read_gateway_script;
pub use replay::run_gateway_script;
pub use script::{GatewayItems, GatewayScript};
pub use script_lines::{Reason, RunFault, ScriptError};
pub use socket_line::{read_socket_call, read_socket_line};
pub use text::append_delivery;
