//! The row that a line is. It knows no other line.

ghost use Rattle.std.specs.Prelude.{◌∷◌, IfOk, IfErr};
ghost use Rattle.script_lines.specs.{Lines.{fields}, Reading.{FailsFirst}};
ghost use Rattle.amt_vectors.specs.declared.kind.RowKind.TheVariants as kinds;
ghost use Rattle.amt_vectors.specs.{Fault.{FailsAs, FailsAsRow, order_of_reasons, order_of_values}, Row.{word_of}, Says.{SaysRow}};

use crate::fields::{
    leading_two, octets_of, three_fields, wanted_number, wanted_octets, wanted_sum, wanted_words,
};
use crate::kind::{RowKind, kind_of_word};
use crate::row::{Question, Row};
use amt_values::Bytes;
use script_lines::{LineError, Reason, read_number, two_fields};
use std::alloc::Global;

// `hmac KEY DATA OUT`, by what follows its first word.
#[tactic(auto, using(crate::proofs::Failures::hmac_key, crate::proofs::Failures::hmac_message, crate::proofs::Failures::hmac_out))]
fn read_hmac(alloc: Global, values: &[u8]) -> Result<Row, LineError>
    ensures found { IfOk result (λ row. SaysRow row (word_of kinds.Hmac ∷ fields values.now)) }
    ensures reason { IfErr result (FailsFirst (FailsAs kinds.Hmac (fields values.now)) order_of_values) }
{
    let Some((key_text, message_text, out)) = three_fields(values) else {
        return Err(LineError::Bad(Reason::Count));
    };
    let key = match octets_of(alloc, key_text) {
        Ok(key) => key,
        Err(error) => return Err(error),
    };
    let message = match octets_of(alloc, message_text) {
        Ok(message) => message,
        Err(error) => return Err(error),
    };
    let want = match wanted_octets(alloc, out) {
        Ok(want) => want,
        Err(error) => return Err(error),
    };
    Ok(Row {
        question: Question::Hmac { key, message },
        want,
    })
}

// `sum HEX OUT`.
#[tactic(auto, using(crate::proofs::Failures::sum_octets, crate::proofs::Failures::sum_out))]
fn read_sum(alloc: Global, values: &[u8]) -> Result<Row, LineError>
    ensures found { IfOk result (λ row. SaysRow row (word_of kinds.Sum ∷ fields values.now)) }
    ensures reason { IfErr result (FailsFirst (FailsAs kinds.Sum (fields values.now)) order_of_values) }
{
    let Some((octets, out)) = two_fields(values) else {
        return Err(LineError::Bad(Reason::Count));
    };
    let bytes = match octets_of(alloc, octets) {
        Ok(bytes) => bytes,
        Err(error) => return Err(error),
    };
    let want = match wanted_sum(alloc, out) {
        Ok(want) => want,
        Err(error) => return Err(error),
    };
    Ok(Row {
        question: Question::Sum(bytes),
        want,
    })
}

// `decode HEX WORDS`.
#[tactic(auto, using(crate::proofs::Failures::decode_octets))]
fn read_decode(alloc: Global, values: &[u8]) -> Result<Row, LineError>
    ensures found { IfOk result (λ row. SaysRow row (word_of kinds.Decode ∷ fields values.now)) }
    ensures reason { IfErr result (FailsFirst (FailsAs kinds.Decode (fields values.now)) order_of_values) }
{
    let Some((octets, word, more)) = leading_two(values) else {
        return Err(LineError::Bad(Reason::Count));
    };
    let bytes = match octets_of(alloc, octets) {
        Ok(bytes) => bytes,
        Err(error) => return Err(error),
    };
    let want = match wanted_words(alloc, word, more) {
        Ok(want) => want,
        Err(error) => return Err(error),
    };
    Ok(Row {
        question: Question::Decode(bytes),
        want,
    })
}

// `code4 CODE VALUE`. The value is read first, since the reason of a number out of range is the last one.
#[tactic(auto, using(crate::proofs::Failures::code_value_bad, crate::proofs::Failures::code_bad))]
fn read_code4(alloc: Global, values: &[u8]) -> Result<Row, LineError>
    ensures found { IfOk result (λ row. SaysRow row (word_of kinds.Code4 ∷ fields values.now)) }
    ensures reason { IfErr result (FailsFirst (FailsAs kinds.Code4 (fields values.now)) order_of_values) }
{
    let Some((code, value)) = two_fields(values) else {
        return Err(LineError::Bad(Reason::Count));
    };
    let want = match wanted_number(alloc, value) {
        Ok(want) => want,
        Err(error) => return Err(error),
    };
    match read_number(code, 0, 255) {
        Ok(code) => Ok(Row {
            question: Question::Code4(code as u8),
            want,
        }),
        Err(reason) => Err(LineError::Bad(reason)),
    }
}

// `code6 CODE VALUE`.
#[tactic(auto, using(crate::proofs::Failures::code_value_bad, crate::proofs::Failures::code_bad))]
fn read_code6(alloc: Global, values: &[u8]) -> Result<Row, LineError>
    ensures found { IfOk result (λ row. SaysRow row (word_of kinds.Code6 ∷ fields values.now)) }
    ensures reason { IfErr result (FailsFirst (FailsAs kinds.Code6 (fields values.now)) order_of_values) }
{
    let Some((code, value)) = two_fields(values) else {
        return Err(LineError::Bad(Reason::Count));
    };
    let want = match wanted_number(alloc, value) {
        Ok(want) => want,
        Err(error) => return Err(error),
    };
    match read_number(code, 0, 65_535) {
        Ok(code) => Ok(Row {
            question: Question::Code6(code as u16),
            want,
        }),
        Err(reason) => Err(LineError::Bad(reason)),
    }
}

// `ip TEXT OUT`.
fn read_ip(alloc: Global, values: &[u8]) -> Result<Row, LineError>
    ensures found { IfOk result (λ row. SaysRow row (word_of kinds.Ip ∷ fields values.now)) }
    ensures reason { IfErr result (FailsFirst (FailsAs kinds.Ip (fields values.now)) order_of_values) }
{
    let Some((text, out)) = two_fields(values) else {
        return Err(LineError::Bad(Reason::Count));
    };
    let Ok(text) = Bytes::copied(alloc, text) else {
        return Err(LineError::Memory);
    };
    let Ok(want) = Bytes::copied(alloc, out) else {
        return Err(LineError::Memory);
    };
    Ok(Row {
        question: Question::Ip(text),
        want,
    })
}

// The row of this kind, by the fields after its first word.
fn read_kind(alloc: Global, kind: RowKind, values: &[u8]) -> Result<Row, LineError>
    ensures found { IfOk result (λ row. SaysRow row (word_of kind ∷ fields values.now)) }
    ensures reason { IfErr result (FailsFirst (FailsAs kind (fields values.now)) order_of_values) }
{
    match kind {
        RowKind::Hmac => read_hmac(alloc, values),
        RowKind::Sum => read_sum(alloc, values),
        RowKind::Decode => read_decode(alloc, values),
        RowKind::Code4 => read_code4(alloc, values),
        RowKind::Code6 => read_code6(alloc, values),
        RowKind::Ip => read_ip(alloc, values),
    }
}

/// The row of a line, by its first field and what follows it.
pub fn read_row(alloc: Global, word: &[u8], values: &[u8]) -> Result<Row, LineError>
    ensures found { IfOk result (λ row. SaysRow row (word.now ∷ fields values.now)) }
    ensures reason { IfErr result (FailsFirst (FailsAsRow (word.now ∷ fields values.now)) order_of_reasons) }
{
    let Some(kind) = kind_of_word(word) else {
        return Err(LineError::Bad(Reason::Word));
    };
    match read_kind(alloc, kind, values) {
        Ok(row) => Ok(row),
        Err(error) => Err(error),
    }
}
