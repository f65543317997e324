//! Fields that are numbers, octets, secrets and addresses. It knows no kind of line.

ghost use Rattle.std.specs.Prelude.{◌≡◌, ◌<◌, ◌⊎◌, IfOk, IfErr, IfSome, IfNone, IsErrOf, IsTrue, Some, ◌↔◌};
ghost use Rattle.amt_values.specs.{declared.address.Ip.{Ip as IpValue, TheVariants.{V4, V6}}, Numeral.{IsNumeral}, Text.{IsIpText}};
ghost use Rattle.script_lines.specs.{Texts.{mode_text}, Form.{Fails, IsAddressText, IsFamilyText, IsFlagText, IsGroupText, IsHexText, IsModeText, IsMomentText, IsName, IsNameOctet, IsNonceText, IsNumberText, IsSecretText, a_family, a_flag, a_group, a_mode, a_moment, a_nonce, a_number, a_secret, an_address4, an_address6, an_address_of, is_of, some_octets}};

use crate::reason::Reason;
use amt_values::{Bytes, Ip, Moment, NumeralFault, forwardable, parse_ip, parse_numeral};
use group_records::Family;
use hex::{FromHex, FromHexError};
use response_mac::Secret;
use source_filter::Mode;
use std::alloc::Global;

/// Why no octets were read.
#[derive(Clone, Copy, Debug, PartialEq, Eq)]
pub enum OctetsError {
    NotHex,
    Memory,
}

// The most octets of a name.
const MOST_NAME_OCTETS: usize = 32;

// The most digits of a field of octets: those of the largest UDP payload.
const MOST_DIGITS: usize = 131_070;

#[tactic(auto, using(crate::proofs::Numbers::value_of_number))]
pub fn read_moment(text: &[u8]) -> Option<Moment>
    ensures found { IfSome result (λ ms. IsMomentText ms text.now) }
    ensures none { IfNone result (Fails a_moment text.now Reason.Number) }
{
    match parse_numeral(text) {
        Ok(ms) => match Moment::new(ms) {
            Some(moment) => Some(moment),
            None => None,
        },
        Err(_) => None,
    }
}

#[tactic(auto, using(crate::proofs::Numbers::value_of_number, crate::proofs::Numbers::numeral_of_number))]
pub fn read_number(text: &[u8], least: u32, most: u32) -> Result<u32, Reason>
    ensures found { IfOk result (λ number. IsNumberText least most number text.now) }
    ensures number { IsErrOf result Reason.Number → Fails (a_number least most) text.now Reason.Number }
    ensures range { IsErrOf result Reason.Range → Fails (a_number least most) text.now Reason.Range }
    ensures reasons { IfErr result (λ reason. (reason ≡ Reason.Number) ⊎ (reason ≡ Reason.Range)) }
{
    match parse_numeral(text) {
        Ok(number) => {
            if number < u64::from(least) {
                return Err(Reason::Range);
            }
            if number > u64::from(most) {
                return Err(Reason::Range);
            }
            Ok(number as u32)
        }
        Err(NumeralFault::TooLarge) => Err(Reason::Range),
        Err(NumeralFault::NotDecimal) => Err(Reason::Number),
    }
}

/// Whether a field is a decimal number without a leading zero, however large it is.
#[tactic(auto, using(crate::proofs::Numbers::numeral_of_number))]
pub fn is_number(text: &[u8]) -> bool
    ensures { IsTrue result ↔ IsNumeral text.now }
{
    match parse_numeral(text) {
        Ok(_) => true,
        Err(NumeralFault::TooLarge) => true,
        Err(NumeralFault::NotDecimal) => false,
    }
}

pub fn read_octets(alloc: Global, text: &[u8]) -> Result<Bytes, OctetsError>
    ensures found { IfOk result (λ bytes. IsHexText bytes text.now) }
    ensures none { IsErrOf result OctetsError.NotHex → Fails some_octets text.now Reason.Hex }
{
    if text == b"-".as_slice() {
        return Ok(Bytes::new(alloc));
    }
    if text.len() > MOST_DIGITS {
        return Err(OctetsError::NotHex);
    }
    match hex::decode(alloc, text) {
        Ok(bytes) => Ok(Bytes::from(bytes)),
        Err(FromHexError::OutOfMemory) => Err(OctetsError::Memory),
        Err(_) => Err(OctetsError::NotHex),
    }
}

pub fn read_secret(text: &[u8]) -> Option<Secret>
    ensures found { IfSome result (λ secret. IsSecretText secret text.now) }
    ensures none { IfNone result (Fails a_secret text.now Reason.Hex) }
{
    match <[u8; 32] as FromHex>::from_hex(text) {
        Ok(octets) => Some(Secret(octets)),
        Err(_) => None,
    }
}

pub fn read_address4(text: &[u8]) -> Option<u32>
    ensures found { IfSome result (λ number. IsIpText (V4 number) text.now) }
    ensures none { IfNone result (Fails an_address4 text.now Reason.Address) }
{
    match parse_ip(text) {
        Some(Ip::V4(number)) => Some(number),
        Some(Ip::V6(_)) => None,
        None => None,
    }
}

pub fn read_address6(text: &[u8]) -> Option<u128>
    ensures found { IfSome result (λ number. IsIpText (V6 number) text.now) }
    ensures none { IfNone result (Fails an_address6 text.now Reason.Address) }
{
    match parse_ip(text) {
        Some(Ip::V6(number)) => Some(number),
        Some(Ip::V4(_)) => None,
        None => None,
    }
}

/// A nonce by its 8 hexadecimal digits.
pub fn read_nonce(text: &[u8]) -> Option<u32>
    ensures found { IfSome result (λ nonce. IsNonceText nonce text.now) }
    ensures none { IfNone result (Fails a_nonce text.now Reason.Hex) }
{
    match <[u8; 4] as FromHex>::from_hex(text) {
        Ok(octets) => Some(u32::from_be_bytes(octets)),
        Err(_) => None,
    }
}

fn is_of(family: Option<Family>, ip: &Ip) -> bool
    ensures { result ≡ is_of family ip.now }
{
    match (family, ip) {
        (None, _) => true,
        (Some(Family::V4), Ip::V4(_)) => true,
        (Some(Family::V6), Ip::V6(_)) => true,
        (Some(_), _) => false,
    }
}

/// An address of the family, where it is known.
pub fn read_address(family: Option<Family>, text: &[u8]) -> Option<Ip>
    ensures found { IfSome result (λ ip. IsAddressText family ip text.now) }
    ensures only { (ip : IpValue) → IsAddressText family ip text.now → result ≡ Some ip }
    ensures none { IfNone result (Fails (an_address_of family) text.now Reason.Address) }
{
    let ip = parse_ip(text)?;
    if is_of(family, &ip) { Some(ip) } else { None }
}

/// A group of the family, where it is known, that packets are forwarded to.
pub fn read_group(family: Option<Family>, text: &[u8]) -> Option<Ip>
    ensures found { IfSome result (λ group. IsGroupText family group text.now) }
    ensures none { IfNone result (Fails (a_group family) text.now Reason.Group) }
{
    let group = read_address(family, text)?;
    if forwardable(&group) {
        Some(group)
    } else {
        None
    }
}

fn is_name_octet(octet: &u8) -> bool
    ensures { IsTrue result ↔ IsNameOctet octet.now }
{
    matches!(*octet, b'a'..=b'z' | b'0'..=b'9' | b'_')
}

/// Whether the text is a name.
pub fn is_name(text: &[u8]) -> bool
    ensures { IsTrue result ↔ IsName text.now }
{
    if text.is_empty() || text.len() > MOST_NAME_OCTETS {
        return false;
    }
    text.iter().all(is_name_octet)
}

/// The word of a filter mode.
pub fn mode_word(mode: Mode) -> &'static str
    ensures { result.now ≡ mode_text mode }
{
    match mode {
        Mode::Include => "include",
        Mode::Exclude => "exclude",
    }
}

/// A filter mode by its word.
pub fn read_mode(text: &[u8]) -> Option<Mode>
    ensures found { IfSome result (λ mode. IsModeText mode text.now) }
    ensures none { IfNone result (Fails a_mode text.now Reason.Mode) }
{
    if text == mode_word(Mode::Include).as_bytes() {
        return Some(Mode::Include);
    }
    if text == mode_word(Mode::Exclude).as_bytes() {
        return Some(Mode::Exclude);
    }
    None
}

/// An address family by its word.
pub fn read_family(text: &[u8]) -> Option<Family>
    ensures found { IfSome result (λ family. IsFamilyText family text.now) }
    ensures none { IfNone result (Fails a_family text.now Reason.Word) }
{
    if text == b"v4".as_slice() {
        return Some(Family::V4);
    }
    if text == b"v6".as_slice() {
        return Some(Family::V6);
    }
    None
}

/// Whether something is so, by its word.
pub fn read_flag(text: &[u8]) -> Option<bool>
    ensures found { IfSome result (λ flag. IsFlagText flag text.now) }
    ensures none { IfNone result (Fails a_flag text.now Reason.Range) }
{
    if text == b"true".as_slice() {
        return Some(true);
    }
    if text == b"false".as_slice() {
        return Some(false);
    }
    None
}
