//! The answers to the questions of rows. It knows no row.

ghost use Rattle.std.specs.Prelude.{◌≡◌, ◌≤◌, length, IfOk};
ghost use Rattle.amt_messages.specs.Refusal.{first_refusal};
ghost use Rattle.script_lines.specs.Texts.{hex_text};
ghost use Rattle.amt_vectors.specs.{Answer.{IsAnswer, IsCanonicalOf, decoding_text}, Reading.{CanBeAsked}};

use crate::row::Question;
use amt_messages::{DecodeFault, decode};
use amt_values::{Bytes, parse_ip, print_ip, print_numeral};
use igmp_records::code_value4;
use inner_datagrams::internet_sum;
use mld_records::code_value6;
use response_mac::hmac_sha256;
use script_lines::{append_hex, append_refusal};
use std::alloc::{AllocError, Global};

// Octets in hexadecimal digits.
fn in_digits(alloc: Global, octets: &[u8]) -> Result<Bytes, AllocError>
    ensures { IfOk result (λ text. text ≡ hex_text octets.now) }
{
    let mut text = Bytes::new(alloc);
    append_hex(&mut text, octets)?;
    Ok(text)
}

// Whether octets are a message, or why they are none.
fn decoding(alloc: Global, bytes: &[u8]) -> Result<Bytes, AllocError>
    requires { length bytes.now ≤ 65535 }
    ensures { IfOk result (λ text. text ≡ decoding_text (first_refusal bytes.now)) }
{
    match decode(alloc, bytes) {
        Ok(_) => Bytes::copied(alloc, b"ok"),
        Err(DecodeFault::Refused(refusal)) => {
            let mut text = Bytes::new(alloc);
            append_refusal(&mut text, &refusal)?;
            Ok(text)
        }
        Err(DecodeFault::Memory) => Err(AllocError),
    }
}

// An address as it is printed, or that there is none.
fn canonical(alloc: Global, address: &[u8]) -> Result<Bytes, AllocError>
    ensures { IfOk result (IsCanonicalOf address.now) }
{
    match parse_ip(address) {
        Some(ip) => print_ip(alloc, &ip),
        None => Bytes::copied(alloc, b"none"),
    }
}

/// The text of the answer.
pub fn answer(alloc: Global, question: &Question) -> Result<Bytes, AllocError>
    requires { CanBeAsked question.now }
    ensures { IfOk result (IsAnswer question.now) }
{
    match question {
        Question::Hmac { key, message } => {
            in_digits(alloc, &hmac_sha256(key.as_slice(), message.as_slice()))
        }
        Question::Sum(bytes) => in_digits(alloc, &internet_sum(bytes.as_slice()).to_be_bytes()),
        Question::Decode(bytes) => decoding(alloc, bytes.as_slice()),
        Question::Code4(code) => print_numeral(alloc, u64::from(code_value4(*code))),
        Question::Code6(code) => print_numeral(alloc, u64::from(code_value6(*code))),
        Question::Ip(address) => canonical(alloc, address.as_slice()),
    }
}
