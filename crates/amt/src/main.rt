//! The program `amt`: the command over standard input, output and error, the machine's files, and its
//! sockets, clock, random words and threads.
//!
//! Contract: it ends with the status that `amt_command::amt_exit` answers for its words, streams
//! and devices.
//! It knows no format and no protocol.
//! No standard.
#![tactic(auto)]

use amt_command::{Exit, amt_exit, exit_without_memory};
use amt_ports::{HostFiles, ReaderSource, WriterSink};
use serving_commands::HostLive;
use std::io::ErrorKind;
use std::rt::Env;
use std::{env, io};

// The words after the program's name.
fn words(rt: &(impl Env + AllocGlobal)) -> io::Result<Vec<String>> {
    let mut words = Vec::new(rt.alloc());
    for word in env::args(rt)?.skip(1) {
        words.push(word)?;
    }
    Ok(words)
}

fn main(rt: HostRuntime) -> Exit {
    let mut input = ReaderSource::new(rt.stdin());
    let mut files = HostFiles::new(rt);
    let mut out = WriterSink::new(rt.stdout());
    let mut err = WriterSink::new(rt.stderr());
    let mut live = HostLive::new(rt, rt.alloc(), rt.stderr());
    let words = match words(&rt) {
        Ok(words) => words,
        Err(error) if error.kind() == ErrorKind::OutOfMemory => {
            return exit_without_memory(&mut err);
        }
        // Words that can't be read, as those that aren't UTF-8, are no line of the command.
        Err(_) => Vec::new(rt.alloc()),
    };
    amt_exit(
        &rt,
        rt.alloc(),
        &words,
        &mut input,
        &mut files,
        &mut out,
        &mut err,
        &mut live,
    )
}
