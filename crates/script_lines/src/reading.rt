//! Reads the lines of a script of any kind. What a line says is its kind's affair.

ghost use Rattle.std.specs.{Prelude.{◌≡◌, ◌↔◌, ◌≤◌, ◌<◌, ◌==◌, ℕ, List, [], ◌∷◌, ◌++◌, length, slice_index, true, false, IsTrue, IfSome, IfNone, IfOk, IfErr, OnOk}, Int.{IsInRange}, Str.Lines.{lines}};
ghost use Rattle.script_lines.specs.{Kind.{IsLawfulKind}, Lines.{IsPlain, fields, says_nothing}, Reading.{HasBegun, FailsOnLine, FailsInLines}, Script.{Spells, IsErrorOf, RulesOutScripts, HasOneScript, HasOneFault}};

use crate::fault::{LineError, ScriptError};
use crate::fields::next_field;
use crate::kind::ScriptKind;
use crate::lines::next_line;
use crate::reason::Reason;
use std::alloc::Global;

/// The most octets of a line, without its line feed and the carriage return before it.
pub const MOST_OCTETS_OF_A_LINE: usize = 140_000;

fn is_printable(octet: u8) -> bool
    ensures { IsTrue result ↔ IsInRange 32 126 octet }
{
    (32 <= octet) & (octet <= 126)
}

/// Whether each octet is printable ASCII.
pub fn is_plain(line: &[u8]) -> bool
    ensures { IsTrue result ↔ IsPlain line.now }
{
    // No early end, so that many octets are tried at once.
    let mut plain = true;
    for octet in line {
        plain &= is_printable(*octet);
    }
    plain
}

// The line of this first field is a comment.
fn is_comment(first: &[u8]) -> bool
    ensures { result ≡ (slice_index first.now 0 == 35) }
{
    match first.first() {
        Some(octet) => *octet == b'#',
        None => false,
    }
}

/// The first field of a line that says something, and the octets after it; none of one that says nothing.
pub fn split_statement(line: &[u8]) -> Option<(&[u8], &[u8])>
    ensures parts { IfSome result (λ parts. fields line.now ≡ parts.0.now ∷ fields parts.1.now) }
    ensures says { IfSome result (λ _. says_nothing (fields line.now) ≡ false) }
    ensures none { IfNone result (says_nothing (fields line.now) ≡ true) }
    ensures shorter { IfSome result (λ parts. length parts.1.now < length line.now) }
{
    let (first, rest) = next_field(line)?;
    if is_comment(first) {
        return None;
    }
    Some((first, rest))
}

fn take_line<K: ScriptKind>(alloc: Global, heard: &mut K, line: &[u8]) -> Result<(), LineError>
    ensures taken { (before : List (List ℕ)) → HasBegun K.kind K.HasHeard heard.old before
        → OnOk result (HasBegun K.kind K.HasHeard heard.new (before ++ line.now ∷ [])) }
    ensures bad { (past : List K.Statement) → K.HasHeard heard.old past
        → IfErr result (FailsOnLine K.kind past line.now) }
{
    if line.len() > MOST_OCTETS_OF_A_LINE {
        return Err(LineError::Bad(Reason::Long));
    }
    let Some((first, rest)) = split_statement(line) else {
        return Ok(());
    };
    if !is_plain(line) {
        return Err(LineError::Bad(Reason::Word));
    }
    match heard.take(alloc, first, rest) {
        Ok(()) => Ok(()),
        Err(error) => Err(error),
    }
}

/// What all lines have said, and their number.
#[derive(Drop)]
struct Whole<K: ScriptKind> {
    heard: K,
    lines: u32,
}

fn read_lines<K: ScriptKind>(alloc: Global, text: &[u8]) -> Result<Whole<K>, ScriptError>
    requires { length text.now ≤ 16777216 }
    ensures begun { IfOk result (λ whole. HasBegun K.kind K.HasHeard whole.heard (lines text.now)) }
    ensures counted { IfOk result (λ whole. whole.lines ≡ length (lines text.now)) }
    ensures few { IfOk result (λ whole. whole.lines ≤ 16777216) }
    ensures bad { IfErr result (FailsInLines K.kind (lines text.now)) }
    ensures lawful { IsLawfulKind K.kind }
{
    let mut heard = K::start(alloc);
    let mut count = 0;
    let mut left = text;
    while !left.is_empty() {
        let (line, rest) = next_line(left);
        match take_line(alloc, &mut heard, line) {
            Ok(()) => {}
            Err(LineError::Bad(reason)) => {
                return Err(ScriptError::Fault {
                    line: count + 1,
                    reason,
                });
            }
            Err(LineError::Memory) => return Err(ScriptError::Memory),
        }
        count += 1;
        left = rest;
    }
    Ok(Whole {
        heard,
        lines: count,
    })
}

fn read_whole<K: ScriptKind>(alloc: Global, bytes: &[u8]) -> Result<K::Script, ScriptError>
    requires { length bytes.now ≤ 16777216 }
    ensures found { IfOk result (λ script. Spells K.kind script bytes.now) }
    ensures fault { IfErr result (IsErrorOf K.kind bytes.now) }
    ensures lawful { IsLawfulKind K.kind }
{
    let whole: Whole<K> = match read_lines(alloc, bytes) {
        Ok(whole) => whole,
        Err(error) => return Err(error),
    };
    let last = whole.lines + 1;
    match whole.heard.finish() {
        Ok(script) => Ok(script),
        Err(reason) => Err(ScriptError::Fault { line: last, reason }),
    }
}

/// Reads a script of this kind, of at most 16,777,216 octets.
pub fn read_script<K: ScriptKind>(alloc: Global, bytes: &[u8]) -> Result<K::Script, ScriptError>
    requires { length bytes.now ≤ 16777216 }
    ensures found { IfOk result (λ script. Spells K.kind script bytes.now) }
    ensures fault { IfErr result (IsErrorOf K.kind bytes.now) }
    ensures none { IfErr result (RulesOutScripts K.kind bytes.now) }

    // The octets alone decide which script is read, or which line and reason are reported.
    ensures one_script { HasOneScript K.kind }
    ensures one_fault { HasOneFault K.kind }
{
    read_whole::<K>(alloc, bytes)
}
