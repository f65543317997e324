//! The lines of a case.

mod arguments;
mod escapes;

use crate::failing::{FailingCall, read_failing_call};
use crate::script::is_script;
use amt_values::Bytes;
use arguments::read_arguments;
pub use escapes::append_escaped;
use hex::FromHexError;
use std::alloc::{AllocError, Global};

/// What a run of the command is given.
#[derive(Drop)]
pub struct Given {
    pub arguments: Vec<String>,
    pub input: Bytes,
    /// The settings file, where there is one.
    pub has_settings: bool,
    pub settings: Bytes,
    /// What the devices do. Without a line there are none.
    pub script: String,
    pub failing: Vec<FailingCall>,
}

/// What the run is to come to.
#[derive(Drop)]
pub struct Wanted {
    pub output: Bytes,
    /// Of the output, only lines with one of these texts are compared, where there is one.
    pub compared_texts: Vec<String>,
    pub error: Bytes,
    pub openings: Bytes,
    /// As they stand in the case, those of all devices among one another.
    pub sends: Bytes,
    pub status: u8,
}

#[derive(Drop)]
pub struct Case {
    pub given: Given,
    pub wanted: Wanted,
}

/// Why lines are no case; the first that is malformed, before what the whole lacks.
#[derive(Clone, Copy)]
pub enum CaseFault<'a> {
    Malformed(&'a str),
    NoCommand,
    /// Lines of a settings file or of devices, and a command that has neither.
    Unused,
    Memory,
}

// Why a line is none of a case.
#[derive(Clone, Copy)]
pub enum LineFault {
    Malformed,
    Memory,
}

impl From<AllocError> for LineFault {
    fn from(_error: AllocError) -> LineFault {
        LineFault::Memory
    }
}

impl Case {
    fn new(alloc: Global) -> Case {
        Case {
            given: Given {
                arguments: Vec::new(alloc),
                input: Bytes::new(alloc),
                has_settings: false,
                settings: Bytes::new(alloc),
                script: String::new(alloc),
                failing: Vec::new(alloc),
            },
            wanted: Wanted {
                output: Bytes::new(alloc),
                compared_texts: Vec::new(alloc),
                error: Bytes::new(alloc),
                openings: Bytes::new(alloc),
                sends: Bytes::new(alloc),
                status: 0,
            },
        }
    }

    // The mark at the start of a line, up to its first space, says what the rest is.
    fn take_line(&mut self, alloc: Global, line: &str) -> Result<(), LineFault> {
        let (mark, rest) = line.split_once(' ').unwrap_or((line, ""));
        match mark {
            "" if line.is_empty() => Ok(()),
            "//" => Ok(()),
            "$" => self.given.take_command(alloc, rest),
            "<" => append_line(&mut self.given.input, rest),
            "<\\" => append_escaped(&mut self.given.input, rest),
            "<x" => append_octets(alloc, &mut self.given.input, rest),
            ">" => append_line(&mut self.wanted.output, rest),
            ">\\" => append_escaped(&mut self.wanted.output, rest),
            "!" => append_line(&mut self.wanted.error, rest),
            "!\\" => append_escaped(&mut self.wanted.error, rest),
            "?" => self.wanted.take_status(rest),
            "*" => self.given.take_failing_call(rest),
            "~" => self.wanted.take_compared_text(alloc, rest),
            "@" => append_line(self.given.settings(), rest),
            "@\\" => append_escaped(self.given.settings(), rest),
            "%" => self.given.take_script(rest),
            "%\\" => self.given.take_escaped_script(alloc, rest),
            "&" => append_line(&mut self.wanted.openings, rest),
            "=\\" => self.wanted.take_escaped_sends(alloc, rest),
            _ => self.wanted.take_send(line),
        }
    }

    fn take_lines<'a>(&mut self, alloc: Global, lines: &'a str) -> Result<(), CaseFault<'a>> {
        for line in lines.split('\n') {
            match self.take_line(alloc, line) {
                Ok(()) => {}
                Err(LineFault::Malformed) => return Err(CaseFault::Malformed(line)),
                Err(LineFault::Memory) => return Err(CaseFault::Memory),
            }
        }
        Ok(())
    }
}

impl Given {
    // The command's name is its first argument, so that a case without a command has none.
    fn take_command(&mut self, alloc: Global, line: &str) -> Result<(), LineFault> {
        self.arguments = read_arguments(alloc, line)?;
        match self.arguments.first() {
            Some(name) if name.as_str() == "amt" => Ok(()),
            _ => Err(LineFault::Malformed),
        }
    }

    // What is given to a file or to devices is for `amt relay` or `amt gateway`.
    fn has_unused(&self) -> bool {
        let command = self.arguments.get(1).map_or("", |command| command.as_str());
        let runs = command == "relay" || command == "gateway";
        (self.has_settings || !self.script.is_empty()) && !runs
    }

    fn take_failing_call(&mut self, line: &str) -> Result<(), LineFault> {
        let Some(call) = read_failing_call(line) else {
            return Err(LineFault::Malformed);
        };
        self.failing.push(call).map_err(|_| LineFault::Memory)
    }

    fn settings(&mut self) -> &mut Bytes {
        self.has_settings = true;
        &mut self.settings
    }

    fn take_script(&mut self, lines: &str) -> Result<(), LineFault> {
        if !is_script(lines) {
            return Err(LineFault::Malformed);
        }
        self.script.push_str(lines)?;
        self.script.push_str("\n")?;
        Ok(())
    }

    fn take_escaped_script(&mut self, alloc: Global, escaped: &str) -> Result<(), LineFault> {
        let mut lines = Bytes::new(alloc);
        append_escaped(&mut lines, escaped)?;
        let lines = String::from_utf8_lossy(alloc, lines.as_slice())?;
        self.take_script(lines.as_str())
    }
}

impl Wanted {
    // The mark says which device's it is.
    fn take_send(&mut self, line: &str) -> Result<(), LineFault> {
        let (mark, rest) = line.split_once(' ').unwrap_or((line, ""));
        if !is_of_out(mark) || rest.is_empty() {
            return Err(LineFault::Malformed);
        }
        append_line(&mut self.sends, line)
    }

    fn take_escaped_sends(&mut self, alloc: Global, escaped: &str) -> Result<(), LineFault> {
        let mut lines = Bytes::new(alloc);
        append_escaped(&mut lines, escaped)?;
        let lines = String::from_utf8_lossy(alloc, lines.as_slice())?;
        for line in lines.lines() {
            self.take_send(line)?;
        }
        Ok(())
    }

    fn take_compared_text(&mut self, alloc: Global, text: &str) -> Result<(), LineFault> {
        let text = String::from_str(alloc, text)?;
        self.compared_texts
            .push(text)
            .map_err(|_| LineFault::Memory)
    }

    fn take_status(&mut self, status: &str) -> Result<(), LineFault> {
        self.status = status.parse::<u8>().map_err(|_| LineFault::Malformed)?;
        Ok(())
    }
}

// `=` for the link, `=?` for the control socket, and `=N` for the Nth link out: a number that isn't written so would be
// that of none.
fn is_of_out(mark: &str) -> bool {
    match mark.strip_prefix('=') {
        Some("" | "?") => true,
        Some(number) => {
            matches!(number.parse::<u8>(), Ok(1..=64)) && !number.starts_with(['0', '+'])
        }
        None => false,
    }
}

fn append_line(text: &mut Bytes, line: &str) -> Result<(), LineFault> {
    text.append(line.as_bytes())?;
    text.push(b'\n')?;
    Ok(())
}

// Octets as pairs of hexadecimal digits, as of a file that is no text.
fn append_octets(alloc: Global, octets: &mut Bytes, digits: &str) -> Result<(), LineFault> {
    match hex::decode(alloc, digits.as_bytes()) {
        Ok(more) => Ok(octets.append(more.as_slice())?),
        Err(FromHexError::OutOfMemory) => Err(LineFault::Memory),
        Err(_) => Err(LineFault::Malformed),
    }
}

/// The case of the lines that begin each case of a file, and of its own.
pub fn read_case<'a>(alloc: Global, head: &'a str, lines: &'a str) -> Result<Case, CaseFault<'a>> {
    let mut case = Case::new(alloc);
    case.take_lines(alloc, head)?;
    case.take_lines(alloc, lines)?;
    if case.given.arguments.is_empty() {
        return Err(CaseFault::NoCommand);
    }
    if case.given.has_unused() {
        return Err(CaseFault::Unused);
    }
    Ok(case)
}
