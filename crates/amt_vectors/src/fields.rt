//! The fields of rows, and the texts that they want. It knows no kind of row.

ghost use Rattle.std.specs.Prelude.{◌≡◌, ◌≢◌, ◌<◌, ◌⊎◌, ◌↔◌, ◌∷◌, ◌++◌, [], length, flat_map, IsTrue, IfOk, IfErr, IfSome, IfNone, OnOk};
ghost use Rattle.script_lines.specs.declared.fault.LineError.TheVariants as line_errors;
ghost use Rattle.amt_values.specs.Numeral.{IsNumeral};
ghost use Rattle.script_lines.specs.{Form.{Fails, IsHexText, some_octets}, Lines.{fields}, Texts.{hex_text}};
ghost use Rattle.amt_vectors.specs.{Fault.{FieldFails}, Row.{four_digits, some_digits}, Says.{WantsNumber, WantsOctets, WantsSum, spaced}};

use amt_values::{Bytes, NumeralFault, parse_numeral};
use hex::FromHex;
use script_lines::{
    LineError, OctetsError, Reason, append_hex, next_field, read_octets, two_fields,
};
use std::alloc::{AllocError, Global};

/// The three fields of a line.
pub fn three_fields(line: &[u8]) -> Option<(&[u8], &[u8], &[u8])>
    ensures found { IfSome result (λ parts. fields line.now ≡ parts.0.now ∷ parts.1.now ∷ parts.2.now ∷ []) }
    ensures none { IfNone result (length (fields line.now) ≢ 3) }
{
    let Some((first, rest)) = next_field(line) else {
        return None;
    };
    match two_fields(rest) {
        Some((second, third)) => Some((first, second, third)),
        None => None,
    }
}

/// The first two fields of a line, and the octets after them.
pub fn leading_two(line: &[u8]) -> Option<(&[u8], &[u8], &[u8])>
    ensures found { IfSome result (λ parts. fields line.now ≡ parts.0.now ∷ parts.1.now ∷ fields parts.2.now) }
    ensures none { IfNone result (length (fields line.now) < 2) }
{
    let Some((first, rest)) = next_field(line) else {
        return None;
    };
    match next_field(rest) {
        None => None,
        Some((second, rest)) => Some((first, second, rest)),
    }
}

/// The octets of a field.
pub fn octets_of(alloc: Global, text: &[u8]) -> Result<Bytes, LineError>
    ensures found { IfOk result (λ bytes. IsHexText bytes text.now) }
    ensures bad { IfErr result (λ error. (error ≡ LineError.Memory)
        ⊎ ((error ≡ line_errors.Bad Reason.Hex) × Fails some_octets text.now Reason.Hex)) }
{
    match read_octets(alloc, text) {
        Ok(bytes) => Ok(bytes),
        Err(OctetsError::NotHex) => Err(LineError::Bad(Reason::Hex)),
        Err(OctetsError::Memory) => Err(LineError::Memory),
    }
}

// Octets as the text of an answer.
fn shown(alloc: Global, octets: &[u8]) -> Result<Bytes, LineError>
    ensures text { IfOk result (λ text. text ≡ hex_text octets.now) }
    ensures memory { IfErr result (λ error. error ≡ LineError.Memory) }
{
    let mut text = Bytes::new(alloc);
    match append_hex(&mut text, octets) {
        Ok(()) => Ok(text),
        Err(_) => Err(LineError::Memory),
    }
}

/// The text of octets that are wanted.
pub fn wanted_octets(alloc: Global, text: &[u8]) -> Result<Bytes, LineError>
    ensures found { IfOk result (λ want. WantsOctets want text.now) }
    ensures bad { IfErr result (λ error. (error ≡ LineError.Memory)
        ⊎ ((error ≡ line_errors.Bad Reason.Hex) × Fails some_octets text.now Reason.Hex)) }
{
    match octets_of(alloc, text) {
        Ok(octets) => shown(alloc, octets.as_slice()),
        Err(error) => Err(error),
    }
}

/// The text of a checksum that is wanted.
pub fn wanted_sum(alloc: Global, text: &[u8]) -> Result<Bytes, LineError>
    ensures found { IfOk result (λ want. WantsSum want text.now) }
    ensures bad { IfErr result (λ error. (error ≡ LineError.Memory)
        ⊎ ((error ≡ line_errors.Bad Reason.Hex) × FieldFails four_digits text.now Reason.Hex)) }
{
    match <[u8; 2] as FromHex>::from_hex(text) {
        Ok(octets) => shown(alloc, &octets),
        Err(_) => Err(LineError::Bad(Reason::Hex)),
    }
}

// Whether the text is decimal digits without a leading zero, however many they are.
#[tactic(auto, using(script_lines::proofs::Numbers::numeral_of_number))]
fn is_number(text: &[u8]) -> bool
    ensures { IsTrue result ↔ IsNumeral text.now }
{
    match parse_numeral(text) {
        Ok(_) => true,
        Err(NumeralFault::TooLarge) => true,
        Err(NumeralFault::NotDecimal) => false,
    }
}

/// The digits of a number that is wanted.
pub fn wanted_number(alloc: Global, text: &[u8]) -> Result<Bytes, LineError>
    ensures found { IfOk result (λ want. WantsNumber want text.now) }
    ensures bad { IfErr result (λ error. (error ≡ LineError.Memory)
        ⊎ ((error ≡ line_errors.Bad Reason.Number) × FieldFails some_digits text.now Reason.Number)) }
{
    if !is_number(text) {
        return Err(LineError::Bad(Reason::Number));
    }
    match Bytes::copied(alloc, text) {
        Ok(digits) => Ok(digits),
        Err(_) => Err(LineError::Memory),
    }
}

// Puts each field at the end, after a space.
fn append_words(text: &mut Bytes, values: &[u8]) -> Result<(), AllocError>
    ensures { OnOk result (text.new ≡ text.old ++ flat_map (λ word. 32 ∷ word) (fields values.now)) }
{
    let mut left = values;
    while let Some((word, rest)) = next_field(left) {
        text.push(b' ')?;
        text.append(word)?;
        left = rest;
    }
    Ok(())
}

/// A word and the fields after it, with a space between two of them.
pub fn wanted_words(alloc: Global, word: &[u8], more: &[u8]) -> Result<Bytes, LineError>
    ensures text { IfOk result (λ want. want ≡ spaced word.now (fields more.now)) }
    ensures memory { IfErr result (λ error. error ≡ LineError.Memory) }
{
    let Ok(mut text) = Bytes::copied(alloc, word) else {
        return Err(LineError::Memory);
    };
    match append_words(&mut text, more) {
        Ok(()) => Ok(text),
        Err(_) => Err(LineError::Memory),
    }
}
