//! Why a line, or a whole text, was not read, and why a script's text was not written. It knows no kind of script.

use crate::reason::Reason;
use thiserror::Error;

/// Why a line was not read.
#[derive(Clone, Copy, Debug, PartialEq, Eq)]
pub enum LineError {
    /// The first reason why it is bad.
    Bad(Reason),
    /// Out of memory for what it says.
    Memory,
}

/// Why octets were not read as a script.
#[derive(Clone, Copy, Debug, PartialEq, Eq, Error)]
pub enum ScriptError {
    /// The first bad line, counted from 1, and the first reason in it.
    #[error("line {line}: {}", .reason.word())]
    Fault { line: u32, reason: Reason },
    /// Out of memory for what the lines say.
    #[error("out of memory")]
    Memory,
}

/// Why the text of a script was not written whole. A prefix of it stays written.
#[derive(Clone, Copy, Debug, PartialEq, Eq, Error)]
pub enum RunFault {
    /// The sink failed.
    #[error("write fault")]
    Write,
    /// Out of memory for a step or its text.
    #[error("out of memory")]
    Memory,
}
