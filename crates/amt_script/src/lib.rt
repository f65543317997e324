//! Scripts and the texts of their steps.
//!
//! Contract: octets are read as a script exactly where they spell it, else as the first bad line and
//! the first reason in it; a script's text is a function of the script.
//! It knows sinks by their trait alone, and no real device.
//! Standard: none of its own; the formats stand in docs/FORMATS.md.
#![tactic(auto)]

mod fault_text;
mod kind;
mod limits_line;
mod line;
mod reading;
mod record_text;
mod replay;
mod row_text;
mod script;
mod set_line;
mod setting;
mod settling;
mod statement;
mod text;

pub use fault_text::append_unlawful;
pub use kind::{Key, Kind};
pub use reading::read_relay_script;
pub use record_text::append_group_record;
pub use replay::{run_relay_script, write_rows, write_shown};
pub use row_text::{append_row, append_row_count, append_sources};
pub use script::{RelayItem, RelayItems, RelayScript};
pub use script_lines::{Reason, RunFault, ScriptError};
pub use set_line::read_set_line;
pub use setting::Setting;
pub use settling::{Settled, settle};
pub use statement::{read_moment_item, read_packet, read_rotation, read_show};
pub use text::{
    append_datagram_event, append_moment_event, append_packet_event, append_relay_outcome,
    append_relay_step, print_relay_event, print_relay_step,
};
