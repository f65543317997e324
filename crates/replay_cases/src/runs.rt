//! A case's run, in memory.

mod compared;
mod differences;
mod sends;

use crate::cases::{Case, Given, Wanted};
use crate::devices::{Script, Sets, sets_for};
use crate::failing::{Call, FailingCall, numbers_of, some_fails};
use crate::place::Place;
use crate::seen::{openings_text, sends_text};
use amt_command::{Exit, amt_exit, exit_without_memory};
use amt_ports::{MemFile, MemFiles, MemSink, MemSource};
use amt_values::Bytes;
use compared::compared;
use differences::{has_other_status, has_other_text};
use sends::in_order_of_devices;
use std::alloc::{AllocError, Global};
use std::io;
use std::io::Eprint;
use std::process::Termination;
use std::sync::Wait;
use std::thread::Threads;

#[derive(Drop)]
struct Ended {
    output: MemSink,
    error: MemSink,
    openings: String,
    sends: String,
    exit: Exit,
}

// The streams of a run, as they are given and as it leaves them.
#[derive(Drop)]
struct Streams {
    input: MemSource,
    output: MemSink,
    error: MemSink,
}

fn streams_of(alloc: Global, input: Bytes, failing: &[FailingCall]) -> Result<Streams, AllocError> {
    let reads = numbers_of(alloc, failing, Call::Read)?;
    let writes = numbers_of(alloc, failing, Call::Write)?;
    let error_writes = numbers_of(alloc, failing, Call::ErrorWrite)?;
    Ok(Streams {
        input: MemSource::failing(input, reads),
        output: MemSink::failing(alloc, writes),
        error: MemSink::failing(alloc, error_writes),
    })
}

// The settings file has the name that the command gives it, which ends so.
fn push_settings(
    files: &mut Vec<MemFile>,
    arguments: &[String],
    settings: Bytes,
) -> Result<(), AllocError> {
    match arguments.iter().find(|one| one.ends_with(".toml")) {
        Some(name) => {
            let name = name.clone()?;
            files.push(MemFile {
                name,
                bytes: settings,
            })?;
            Ok(())
        }
        None => Ok(()),
    }
}

fn files_of(
    alloc: Global,
    arguments: &[String],
    has_settings: bool,
    settings: Bytes,
    failing: &[FailingCall],
) -> Result<MemFiles, AllocError> {
    let mut files = Vec::new(alloc);
    if has_settings {
        push_settings(&mut files, arguments, settings)?;
    }
    Ok(MemFiles::failing(files, numbers_of(alloc, failing, Call::File)?))
}

// A case has the command's name first.
fn after_first(arguments: &[String]) -> &[String] {
    match arguments.split_first() {
        Some((_, arguments)) => arguments,
        None => arguments,
    }
}

fn exit_of<R: Threads + Wait + 'static>(
    rt: &R,
    alloc: Global,
    arguments: &[String],
    failing: &[FailingCall],
    streams: &mut Streams,
    files: &mut MemFiles,
    live: &mut Sets<'_, R>,
) -> Exit {
    let Streams {
        input,
        output,
        error,
    } = streams;
    if some_fails(failing, Call::Arguments) {
        return exit_without_memory(error);
    }
    amt_exit(rt, alloc, arguments, input, files, output, error, live)
}

// What a run leaves.
fn leavings<R: Threads>(
    alloc: Global,
    streams: Streams,
    live: &Sets<'_, R>,
    exit: Exit,
) -> Result<Ended, AllocError> {
    let openings = openings_text(alloc, live)?;
    let sends = sends_text(alloc, live)?;
    Ok(Ended {
        output: streams.output,
        error: streams.error,
        openings,
        sends,
        exit,
    })
}

fn run<R: Threads + Wait + 'static>(
    rt: &R,
    alloc: Global,
    given: Given,
) -> Result<Ended, AllocError> {
    let Given {
        arguments,
        input,
        has_settings,
        settings,
        script,
        failing,
    } = given;
    let arguments = after_first(&arguments);
    let mut streams = streams_of(alloc, input, &failing)?;
    let mut files = files_of(alloc, arguments, has_settings, settings, &failing)?;
    let command = arguments.first().map_or("", |command| command.as_str());
    let script = Script {
        lines: script.as_str(),
        failing: &failing,
    };
    let mut live = sets_for(rt, alloc, command, script)?;
    let exit = exit_of(
        rt,
        alloc,
        arguments,
        &failing,
        &mut streams,
        &mut files,
        &mut live,
    );
    leavings(alloc, streams, &live, exit)
}

fn has_other_output<R: Print + AllocGlobal>(
    rt: &R,
    place: Place<'_>,
    wanted: &Wanted,
    ended: &Ended,
) -> io::Result<bool> {
    let output = ended.output.as_slice();
    let output = compared(rt.alloc(), output, &wanted.compared_texts)?;
    let wanted = wanted.output.as_slice();
    has_other_text(rt, place, "output", wanted, output.as_slice())
}

fn has_other_sends<R: Print + AllocGlobal>(
    rt: &R,
    place: Place<'_>,
    wanted: &Wanted,
    ended: &Ended,
) -> io::Result<bool> {
    let sends = in_order_of_devices(rt.alloc(), wanted.sends.as_slice())?;
    let got = ended.sends.as_bytes();
    has_other_text(rt, place, "sends", sends.as_slice(), got)
}

fn texts_differ<R: Print + AllocGlobal>(
    rt: &R,
    place: Place<'_>,
    wanted: &Wanted,
    ended: &Ended,
) -> io::Result<bool> {
    let error = ended.error.as_slice();
    let openings = ended.openings.as_bytes();
    let output = has_other_output(rt, place, wanted, ended)?;
    let error = has_other_text(rt, place, "error", wanted.error.as_slice(), error)?;
    let openings = has_other_text(rt, place, "openings", wanted.openings.as_slice(), openings)?;
    let sends = has_other_sends(rt, place, wanted, ended)?;
    Ok(output || error || openings || sends)
}

/// Runs a case, and prints each way in which the run differs from what is wanted. It answers whether one
/// does.
pub fn differs<R: Eprint + Print + Threads + Wait + AllocGlobal + 'static>(
    rt: &R,
    place: Place<'_>,
    case: Case,
) -> io::Result<bool> {
    let Case { given, wanted } = case;
    let ended = run(rt, rt.alloc(), given)?;
    let texts = texts_differ(rt, place, &wanted, &ended)?;
    let exit = ended.exit.report(rt);
    let status = has_other_status(rt, place, wanted.status, exit)?;
    Ok(texts || status)
}
