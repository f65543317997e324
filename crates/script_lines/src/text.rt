//! What several kinds of script print. It knows no machine.

ghost use Rattle.std.specs.Prelude.{◌≡◌, ◌≤◌, ◌++◌, decimal, length, OnOk, OnErr};
ghost use Rattle.hex.specs.Hex.{encode_lower};
ghost use Rattle.amt_values.specs.Octets.{AreOctets};
ghost use Rattle.script_lines.specs.{declared.text.TheConstants.{PIECE}, Texts.{BeginsWith, hex_text, closing_text, nonce_text, send_line}};

use crate::addresses::append_peer;
use amt_values::{Bytes, Peer, append_numeral};
use std::alloc::AllocError;

/// How many octets are turned into digits at once. The digits stand in an array first, so they are few.
const PIECE: usize = 32;

// Puts octets at the end as pairs of hexadecimal digits.
fn append_digits(text: &mut Bytes, octets: &[u8]) -> Result<(), AllocError>
    requires { length octets.now ≤ PIECE }
    ensures ok { OnOk result (text.new ≡ text.old ++ encode_lower octets.now) }
    ensures err { OnErr result (text.new ≡ text.old) }
{
    let mut room = [0; 2 * PIECE];
    let (digits, _) = room.split_at_mut(2 * octets.len());
    let _ = hex::encode_to_slice(octets, digits);
    text.append(digits)
}

/// Puts octets at the end as pairs of hexadecimal digits, or a dash for none.
pub fn append_hex(text: &mut Bytes, octets: &[u8]) -> Result<(), AllocError>
    ensures text { OnOk result (text.new ≡ text.old ++ hex_text octets.now) }
    ensures begun { OnErr result (BeginsWith text.new text.old) }
    ensures octets { AreOctets octets.now }
{
    if octets.is_empty() {
        return text.append(b"-");
    }
    let mut rest = octets;
    while rest.len() > PIECE {
        let (piece, more) = rest.split_at(PIECE);
        append_digits(text, piece)?;
        rest = more;
    }
    append_digits(text, rest)
}

/// Puts a nonce at the end, in eight hexadecimal digits.
pub fn append_nonce(text: &mut Bytes, nonce: u32) -> Result<(), AllocError>
    ensures { OnOk result (text.new ≡ text.old ++ nonce_text nonce) }
{
    append_hex(text, &nonce.to_be_bytes())
}

/// Puts a word that has a space after it, and a number, at the end.
pub fn append_numbered(text: &mut Bytes, word: &[u8], number: u64) -> Result<(), AllocError>
    ensures { OnOk result (text.new ≡ text.old ++ (word.now ++ decimal number)) }
{
    text.append(word)?;
    append_numeral(text, number)
}

/// Puts the line of a datagram at the end that is sent to this peer.
#[tactic(auto, unfolding(crate::specs::Texts::send_line))]
pub fn append_send(text: &mut Bytes, to: &Peer, bytes: &[u8]) -> Result<(), AllocError>
    ensures { OnOk result (text.new ≡ text.old ++ send_line to.now bytes.now) }
{
    text.append(b"> ")?;
    append_peer(text, to)?;
    text.append(b" ")?;
    append_hex(text, bytes)?;
    text.append(b"\n")
}

/// Puts the last line at the end: the number of items.
#[tactic(auto, unfolding(crate::specs::Texts::closing_text))]
pub fn append_closing(text: &mut Bytes, count: u64) -> Result<(), AllocError>
    ensures text { OnOk result (text.new ≡ text.old ++ closing_text count) }
    ensures begun { OnErr result (BeginsWith text.new text.old) }
{
    text.append(b". ")?;
    append_numeral(text, count)?;
    text.append(b"\n")
}
