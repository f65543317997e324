//! The lines of scripts, what is said over every kind of script, and the texts of what is wrong with octets that
//! come in, as the scripts of both ends print them.
//!
//! Contract: octets are read as a script of a kind exactly where their lines say its statements, else as the
//! first bad line and the first reason in it; a kind says what a line says, and what is wrong with it.
//! Each fault of octets has one text, which is put at the end of what was printed before.
//! It knows no machine, no kind of script, of messages and datagrams their faults alone, and sinks by their trait
//! alone.
//! Standard: none of its own; the formats stand in docs/FORMATS.md.
#![tactic(auto)]

mod addresses;
mod fault;
mod fields;
mod held;
mod kind;
mod lines;
mod octet_faults;
mod reading;
mod reason;
mod running;
mod text;
mod values;

pub use addresses::{append_ip, append_peer};
pub use fault::{LineError, RunFault, ScriptError};
pub use fields::{is_word, next_field, only_field, three_fields, two_fields};
pub use held::{HELD_SIZE, write_held, write_where_full};
pub use kind::ScriptKind;
pub use lines::{next_line, without_carriage_return};
pub use octet_faults::{
    append_head_fault, append_inner_fault, append_refusal, append_report_fault,
};
pub use reading::{MOST_OCTETS_OF_A_LINE, is_plain, read_script, split_statement};
pub use reason::Reason;
pub use running::{ScriptRun, run_script};
pub use text::{append_closing, append_hex, append_nonce, append_numbered, append_send};
pub use values::{
    OctetsError, is_name, is_number, mode_word, read_address, read_address4, read_address6,
    read_family, read_flag, read_group, read_mode, read_moment, read_nonce, read_number,
    read_octets, read_secret,
};
