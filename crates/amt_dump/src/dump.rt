//! The text of lines of hexadecimal digits.

ghost use Rattle.std.specs.{Prelude.{◌≡◌, ◌≤◌, ◌++◌, flat_map, length, IfOk, IfErr, OnOk}, List.{AllByRecursion, zip}, Str.Lines.{lines}};
ghost use Rattle.script_lines.specs.Script.{Spells, IsErrorOf, RulesOutScripts, HasOneFault};
ghost use Rattle.amt_dump.specs.{Dump.{HasOneDump, IsDump, dump_text}, Lines.{IsDatagram, dump_kind}, Texts.{datagram_lines}};

use crate::datagram_text::append_datagram;
use crate::datagrams::read_datagrams;
use crate::numbers::numbers_that_say;
use amt_values::Bytes;
use script_lines::ScriptError;
use std::alloc::{AllocError, Global};

// Puts the lines of datagrams at the end, each with the number of its line.
fn append_datagrams(
    alloc: Global,
    text: &mut Bytes,
    numbers: &[u32],
    datagrams: &[Bytes],
) -> Result<(), AllocError>
    requires { AllByRecursion IsDatagram datagrams.now }
    ensures { OnOk result (text.new
        ≡ text.old ++ flat_map (λ one. datagram_lines one.0 one.1) (zip numbers.now datagrams.now)) }
{
    let mut left = datagrams;
    for number in numbers {
        let Some((datagram, rest)) = left.split_first() else {
            return Ok(());
        };
        append_datagram(alloc, text, *number, datagram.as_slice())?;
        left = rest;
    }
    Ok(())
}

fn print_datagrams(alloc: Global, bytes: &[u8], datagrams: &[Bytes]) -> Result<Bytes, AllocError>
    requires few { length bytes.now ≤ 16777216 }
    requires spelled { Spells dump_kind datagrams.now bytes.now }
    requires sized { AllByRecursion IsDatagram datagrams.now }
    ensures { IfOk result (λ text. text ≡ dump_text 1 (lines bytes.now)) }
{
    let numbers = numbers_that_say(alloc, bytes)?;
    let mut text = Bytes::new(alloc);
    append_datagrams(alloc, &mut text, numbers.as_slice(), datagrams)?;
    Ok(text)
}

/// The text of lines of hexadecimal digits, of at most 16,777,216 octets: each line is a datagram, whose
/// message is printed with the line's number, and then the query or the records that it carries. Lines are
/// judged as those of a script, all of them before anything is printed.
#[tactic(auto, using(crate::proofs::Lawful::has_text))]
pub fn dump_lines(alloc: Global, bytes: &[u8]) -> Result<Bytes, ScriptError>
    requires { length bytes.now ≤ 16777216 }
    ensures found { IfOk result (λ text. IsDump text bytes.now) }
    ensures fault { IfErr result (IsErrorOf dump_kind bytes.now) }
    ensures none { IfErr result (RulesOutScripts dump_kind bytes.now) }

    // The octets alone decide which text is printed, or which line and reason are reported.
    ensures one_dump { HasOneDump }
    ensures one_fault { HasOneFault dump_kind }
{
    let datagrams = match read_datagrams(alloc, bytes) {
        Ok(datagrams) => datagrams,
        Err(error) => return Err(error),
    };
    match print_datagrams(alloc, bytes, datagrams.as_slice()) {
        Ok(text) => Ok(text),
        Err(_) => Err(ScriptError::Memory),
    }
}
