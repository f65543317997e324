//! Runs the cases that stand in files of text, each a run of the command `amt`, and prints those that differ.
//!
//! Contract: none; it is a test, whose rows are data. It ends with status 0 where every case came to what it
//! wants, and with 1 elsewhere.
//! It must not know what the lines of a script say.
//! No standard.
#![tactic(auto)]

mod cases;
mod devices;
mod failing;
mod files;
mod place;
mod runs;
mod script;
mod seen;
mod tally;

use cases::{Case, CaseFault, read_case};
use place::Place;
use std::alloc::AllocError;
use std::io;
use std::io::Eprint;
use std::process::ExitCode;
use std::rt::Files;
use std::sync::Wait;
use std::thread::Threads;
use tally::Tally;

// The case's run differs from what it wants, and was printed, or no case stands there.
fn differs<R: Eprint + Print + Threads + Wait + AllocGlobal + 'static>(
    rt: &R,
    place: Place<'_>,
    case: Result<Case, CaseFault<'_>>,
) -> io::Result<bool> {
    match case {
        Ok(case) => runs::differs(rt, place, case),
        Err(CaseFault::NoCommand) => {
            println!(rt; "{place}: no line begins with $ amt")?;
            Ok(true)
        }
        Err(CaseFault::Unused) => {
            println!(rt; "{place}: a command that has no settings file and no devices")?;
            Ok(true)
        }
        Err(CaseFault::Malformed(line)) => {
            println!(rt; "{place}: no line of a case: {line}")?;
            Ok(true)
        }
        Err(CaseFault::Memory) => Err(AllocError.into()),
    }
}

// A case is its name, to the end of the line, and its lines.
fn run_case<R: Eprint + Print + Threads + Wait + AllocGlobal + 'static>(
    rt: &R,
    file: &str,
    head: &str,
    case: &str,
    tally: &mut Tally,
) -> io::Result<()> {
    let (name, lines) = case.split_once('\n').unwrap_or((case, ""));
    let place = Place { file, name };
    let case = read_case(rt.alloc(), head, lines);
    tally.count(differs(rt, place, case)?);
    Ok(())
}

fn run_text<R: Eprint + Print + Threads + Wait + AllocGlobal + 'static>(
    rt: &R,
    file: &str,
    text: &str,
    tally: &mut Tally,
) -> io::Result<()> {
    let Some((head, cases)) = text.split_once("\n# ") else {
        tally.differing = tally.differing.saturating_add(1);
        return println!(rt; "{file}: no case");
    };
    for case in cases.split("\n# ") {
        run_case(rt, file, head, case, tally)?;
    }
    Ok(())
}

fn run_file<R: Eprint + Files + Print + Threads + Wait + AllocGlobal + 'static>(
    rt: &R,
    file: &str,
    tally: &mut Tally,
) -> io::Result<()> {
    let text = files::text_of(rt, file)?;
    run_text(rt, file, text.as_str(), tally)
}

fn main(rt: HostRuntime) -> io::Result<ExitCode> {
    let mut tally = Tally::new();
    for file in &files::case_files(&rt)? {
        run_file(&rt, file.as_str(), &mut tally)?;
    }
    println!(rt; "{} cases", tally.cases)?;
    Ok(tally.exit_code())
}
