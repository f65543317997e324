//! Why an input can't be read, or isn't as it should be, as the line on standard error says it. It knows no kind of
//! input.

ghost use Rattle.std.specs.Prelude.{◌≡◌, ◌⊎◌, ◌++◌, IfOk};
ghost use Rattle.amt_command.specs.Task.{TellsError, line_text, error_line};

use crate::ending::Ending;
use crate::task::TaskFault;
use amt_values::Bytes;
use script_lines::{Reason, ScriptError};
use std::alloc::{AllocError, Global};

fn print_line(alloc: Global, line: u32, reason: Reason) -> Result<Bytes, AllocError>
    ensures { IfOk result (λ text. text ≡ line_text line reason) }
{
    let word = reason.word();
    let text = format!(in alloc; "line {line}: {word}")?;
    Bytes::copied(alloc, text.as_bytes())
}

/// The fault of an input with this error: its first bad line, and the first reason in it.
pub fn line_fault(alloc: Global, error: ScriptError) -> TaskFault
    ensures { TellsError error result }
{
    let ScriptError::Fault { line, reason } = error else {
        return TaskFault::Memory;
    };
    match print_line(alloc, line, reason) {
        Ok(text) => TaskFault::Fault(text),
        Err(_) => TaskFault::Memory,
    }
}

fn print_cause(alloc: Global, prefix: &[u8], cause: &[u8]) -> Result<Bytes, AllocError>
    ensures { IfOk result (λ text. text ≡ prefix.now ++ cause.now) }
{
    let mut text = Bytes::copied(alloc, prefix)?;
    text.append(cause)?;
    Ok(text)
}

/// The fault with this cause, after what the input is.
pub fn prefixed_fault(alloc: Global, prefix: &[u8], cause: &[u8]) -> TaskFault
    ensures { (result ≡ TaskFault.Fault (prefix.now ++ cause.now)) ⊎ (result ≡ TaskFault.Memory) }
{
    match print_cause(alloc, prefix, cause) {
        Ok(text) => TaskFault::Fault(text),
        Err(_) => TaskFault::Memory,
    }
}

fn print_error_line(alloc: Global, text: &[u8]) -> Result<Bytes, AllocError>
    ensures { IfOk result (λ line. line ≡ error_line text.now) }
{
    let mut line = Bytes::copied(alloc, b"amt: ")?;
    line.append(text)?;
    line.append(b"\n")?;
    Ok(line)
}

/// The ending of a run over an input with this fault.
pub fn ending_of_fault(alloc: Global, text: &[u8]) -> Ending
    ensures { (result ≡ Ending.Fault (error_line text.now)) ⊎ (result ≡ Ending.Memory) }
{
    match print_error_line(alloc, text) {
        Ok(line) => Ending::Fault(line),
        Err(_) => Ending::Memory,
    }
}

/// The ending of a run over an input with this difference.
pub fn ending_of_difference(alloc: Global, difference: &[u8]) -> Ending
    ensures { (result ≡ Ending.Difference (error_line difference.now)) ⊎ (result ≡ Ending.Memory) }
{
    match print_error_line(alloc, difference) {
        Ok(line) => Ending::Difference(line),
        Err(_) => Ending::Memory,
    }
}
