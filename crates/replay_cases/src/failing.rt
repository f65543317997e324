//! Which calls of streams, files and devices fail in a case.

use std::alloc::{AllocError, Global};

/// A kind of call.
#[derive(Clone, Copy, PartialEq, Eq)]
pub enum Call {
    /// What a process does before the command is called.
    Arguments,
    Read,
    Write,
    ErrorWrite,
    File,
    Open,
    Receive,
    Send,
    Feed,
    Out,
    Control,
    Answer,
    Word,
    Start,
}

/// The call of this number fails, counted from 1 in its kind.
#[derive(Clone, Copy)]
pub struct FailingCall {
    call: Call,
    number: u64,
}

fn read_call(text: &str) -> Option<Call> {
    match text {
        "arguments" => Some(Call::Arguments),
        "input" => Some(Call::Read),
        "output" => Some(Call::Write),
        "error" => Some(Call::ErrorWrite),
        "file" => Some(Call::File),
        "open" => Some(Call::Open),
        "link recv" => Some(Call::Receive),
        "link send" => Some(Call::Send),
        "feed" => Some(Call::Feed),
        "out" => Some(Call::Out),
        "control" => Some(Call::Control),
        "answer" => Some(Call::Answer),
        "word" => Some(Call::Word),
        "start" => Some(Call::Start),
        _ => None,
    }
}

/// A kind and a number.
pub fn read_failing_call(line: &str) -> Option<FailingCall> {
    let (call, number) = line.rsplit_once(' ')?;
    Some(FailingCall {
        call: read_call(call)?,
        number: number.parse::<u64>().ok()?,
    })
}

/// The numbers of the calls of a kind that fail.
pub fn numbers_of(
    alloc: Global,
    failing: &[FailingCall],
    call: Call,
) -> Result<Vec<u64>, AllocError> {
    let mut numbers = Vec::new(alloc);
    for one in failing {
        if one.call == call {
            numbers.push(one.number)?;
        }
    }
    Ok(numbers)
}

/// Some call of a kind fails.
pub fn some_fails(failing: &[FailingCall], call: Call) -> bool {
    failing.iter().any(|one| one.call == call)
}
