//! A line of the counts that have changed. It knows no device.
ghost use Rattle.std.specs.{Prelude.{◌≡◌, ◌++◌, IfOk, OnOk}, List.{list_any}, Str.{bytes_eq, Lines.{lines}}};
ghost use Rattle.serving_commands.specs.Journal.{changes, counts_no_event, is_in_the_report, journal_line, told_of, unmarked};

use amt_values::{Bytes, append_numeral};
use script_lines::next_line;
use std::alloc::{AllocError, Global};

fn is_line_of(text: &[u8], line: &[u8]) -> bool
    ensures { result ≡ list_any (bytes_eq line.now) (lines text.now) }
{
    let mut rest = text;
    while !rest.is_empty() {
        let (first, later) = next_line(rest);
        if line == first {
            return true;
        }
        rest = later;
    }
    false
}

// Whether the line counts turns or questions, or ends the answer.
fn counts_no_event(line: &[u8]) -> bool
    ensures { result ≡ counts_no_event line.now }
{
    line.starts_with(b"turns ")
        || line.starts_with(b"published ")
        || line.starts_with(b"controls ")
        || line.starts_with(b"= moved ")
        || line.starts_with(b"= drawn ")
        || line.starts_with(b"= quiet ")
        || line.starts_with(b". ")
}

// Whether the line counts an outcome which the report counts too.
fn is_in_the_report(line: &[u8]) -> bool
    ensures { result ≡ is_in_the_report line.now }
{
    line.starts_with(b"= updated ")
        || line.starts_with(b"= torndown ")
        || line.starts_with(b"= delivered ")
}

// A count without the mark of an outcome.
fn unmarked(line: &[u8]) -> &[u8]
    ensures { result.now ≡ unmarked line.now }
{
    match line {
        [b'=', b' ', count @ ..] => count,
        _ => line,
    }
}

// Puts what the journal has of a line at the end.
fn append_count(text: &mut Bytes, before: &[u8], line: &[u8]) -> Result<(), AllocError>
    ensures { OnOk result (text.new ≡ text.old ++ told_of (lines before.now) line.now) }
{
    if counts_no_event(line) || is_in_the_report(line) || is_line_of(before, line) {
        return Ok(());
    }
    text.append(b" ")?;
    text.append(unmarked(line))
}

// The counts that have changed, a space before each.
fn changes(alloc: Global, before: &[u8], answer: &[u8]) -> Result<Bytes, AllocError>
    ensures { IfOk result (λ text. text ≡ changes before.now answer.now) }
{
    let mut text = Bytes::new(alloc);
    let mut rest = answer;
    while !rest.is_empty() {
        let (line, later) = next_line(rest);
        append_count(&mut text, before, line)?;
        rest = later;
    }
    Ok(text)
}

/// The counts of an answer to `counts` that weren't in the one before, after so many seconds: `amt: SECONDS s:`, a
/// space before each, and a line feed. Nothing where only what counts turns and questions has changed.
pub fn journal_line(
    alloc: Global,
    seconds: u64,
    before: &[u8],
    answer: &[u8],
) -> Result<Bytes, AllocError>
    ensures { IfOk result (λ line. line ≡ journal_line seconds before.now answer.now) }
{
    let mut line = Bytes::new(alloc);
    let changes = changes(alloc, before, answer)?;
    if changes.as_slice().is_empty() {
        return Ok(line);
    }
    line.append(b"amt: ")?;
    append_numeral(&mut line, seconds)?;
    line.append(b" s:")?;
    line.append(changes.as_slice())?;
    line.append(b"\n")?;
    Ok(line)
}
