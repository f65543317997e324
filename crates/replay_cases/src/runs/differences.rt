//! What is printed of a difference.

use crate::place::Place;
use std::alloc::{AllocError, Global};
use std::io;
use std::process::ExitCode;

// The first line that differs, from 1, where a text that is at its end has no line.
#[derive(Clone, Copy)]
struct OtherLine<'a> {
    number: u64,
    wanted: Option<&'a [u8]>,
    got: Option<&'a [u8]>,
}

fn first_other_line<'a>(wanted: &'a [u8], got: &'a [u8]) -> Option<OtherLine<'a>> {
    let mut got_lines = got.split(|octet| *octet == b'\n');
    let mut number = 0u64;
    for wanted in wanted.split(|octet| *octet == b'\n') {
        number = number.saturating_add(1);
        let got = got_lines.next();
        if got != Some(wanted) {
            return Some(OtherLine {
                number,
                wanted: Some(wanted),
                got,
            });
        }
    }
    got_lines.next().map(|got| OtherLine {
        number: number.saturating_add(1),
        wanted: None,
        got: Some(got),
    })
}

fn line_text(alloc: Global, line: Option<&[u8]>) -> Result<String, AllocError> {
    match line {
        Some(line) => {
            let text = String::from_utf8_lossy(alloc, line)?;
            format!(in alloc; "\"{text}\"")
        }
        None => String::from_str(alloc, "no line"),
    }
}

fn print_other_line<R: Print + AllocGlobal>(
    rt: &R,
    place: Place<'_>,
    stream: &str,
    line: OtherLine<'_>,
) -> io::Result<()> {
    let wanted = line_text(rt.alloc(), line.wanted)?;
    let got = line_text(rt.alloc(), line.got)?;
    println!(rt;
        "{place}: {stream}, line {}: wanted {wanted}, got {got}",
        line.number
    )
}

/// The text of a stream differs, and the first line that does was printed.
pub fn has_other_text<R: Print + AllocGlobal>(
    rt: &R,
    place: Place<'_>,
    stream: &str,
    wanted: &[u8],
    got: &[u8],
) -> io::Result<bool> {
    match first_other_line(wanted, got) {
        Some(line) => {
            print_other_line(rt, place, stream, line)?;
            Ok(true)
        }
        None => Ok(false),
    }
}

/// The process ends with another status, which was printed.
pub fn has_other_status(
    rt: &impl Print,
    place: Place<'_>,
    wanted: u8,
    got: ExitCode,
) -> io::Result<bool> {
    let differs = got != ExitCode::from(wanted);
    if differs {
        println!(rt; "{place}: status: wanted {wanted}, got {got:?}")?;
    }
    Ok(differs)
}
