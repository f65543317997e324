//! The settings files of a relay and of a gateway.
//!
//! Contract: octets are read as a configuration exactly where TOML reads them as a table that says it;
//! else their first fault is told, or memory ran out.
//! It knows no file, socket or machine that is set up: octets come in, and a configuration goes out.
//! Standard: TOML 1.1 for the text; the keys are the repository's own and stand in docs/FORMATS.md.
#![tactic(auto)]

mod arrays;
mod config;
mod fault;
mod flags;
mod forms;
mod gateway;
mod join;
mod joins;
mod key;
mod loopback;
mod numbers;
mod relay;
mod table;
mod texts;

pub use config::{GatewayConfig, Join, Joins, RelayConfig};
pub use fault::{ConfigFault, KeyFault};
pub use gateway::gateway_settings;
pub use relay::relay_settings;
