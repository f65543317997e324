//! Answers to control lines, cut into datagrams.

ghost use Rattle.std.specs.Prelude.{◌≡◌, ◌≤◌, ◌<◌, ◌+◌, ◌^◌, ◌++◌, ℕ, List, [], All, length, take, drop, IfOk, IsTrue, OnOk, OnErr};
ghost use Rattle.std.specs.List.{concat};
ghost use Rattle.amt_ports.specs.Devices.{link_at};
ghost use Rattle.script_lines.specs.Texts.{closing_text};
ghost use Rattle.script_lines.specs.declared.reason.Reason.{Reason as ReasonValue};
ghost use Rattle.control_lines.specs.{Answer.{AreCut, HasReplied, HasSentTo, IsAnswer, bad_text, closed, is_answer, piece_length}};

use amt_ports::Link;
use amt_values::{Bytes, Peer};
use memchr::memrchr;
use script_lines::{Reason, append_closing};
use std::alloc::{AllocError, Global};

// The most octets of a piece. The line that closes an answer has at most 24, so a datagram has at most 1,400.
const PIECE: usize = 1_376;

/// The line `bad REASON`, of a line that asks for nothing.
pub fn bad_text(alloc: Global, reason: Reason) -> Result<Bytes, AllocError>
    ensures { IfOk result (λ text. text ≡ bad_text reason) }
{
    let mut text = Bytes::copied(alloc, b"bad ")?;
    text.append(reason.word().as_bytes())?;
    text.append(b"\n")?;
    Ok(text)
}

/// Whether a datagram begins as what answers a line that asks for nothing, or one of which nothing is said.
///
/// Such a line is answered by nothing: else two controls that hear one another would answer for ever.
pub fn is_answer(datagram: &[u8]) -> bool
    ensures { result ≡ is_answer datagram.now }
{
    datagram.starts_with(b"bad ") || datagram.starts_with(b". ")
}

// How many of a text's first octets are its next piece.
fn piece_length(start: &[u8]) -> usize
    ensures length { result ≡ piece_length start.now }
    ensures within { result ≤ length start.now }
    ensures some { 0 < length start.now → 0 < result }
{
    match memrchr(b'\n', start) {
        Some(place) => place + 1,
        None => start.len(),
    }
}

// The next piece of a text that has another one after it, and what follows.
fn cut_piece(text: &[u8]) -> (&[u8], &[u8])
    requires { PIECE ≤ length text.now }
    ensures piece { result.0.now ≡ take (piece_length (take PIECE text.now)) text.now }
    ensures rest { result.1.now ≡ drop (piece_length (take PIECE text.now)) text.now }
    ensures some { 0 < length result.0.now }
    ensures within { length result.0.now ≤ PIECE }
    ensures parts { length result.0.now + length result.1.now ≡ length text.now }
{
    let (start, _) = text.split_at(PIECE);
    text.split_at(piece_length(start))
}

// How many pieces a text is cut into.
fn count_pieces(text: &[u8]) -> u64
    ensures { (pieces : List (List ℕ)) × AreCut text.now pieces × (result ≡ length pieces) }
{
    let mut count = 1;
    let mut rest = text;
    while rest.len() > PIECE {
        let (_, more) = cut_piece(rest);
        count += 1;
        rest = more;
    }
    count
}

// Tries to send the pieces of the first octets, each once and in order. What follows those goes with the last one.
fn send_pieces<L: Link>(link: &mut L, to: &Peer, octets: &[u8], size: usize)
    requires { size ≤ length octets.now }
    ensures sent { (pieces : List (List ℕ)) × AreCut (take size octets.now) pieces
        × HasSentTo to.now (closed pieces (drop size octets.now))
        (link_at L.Link link.old) (link_at L.Link link.new) }
    ensures coming { L.coming link.new ≡ L.coming link.old }
    ensures receive_faults { L.receive_faults link.new ≡ L.receive_faults link.old }
    ensures longest_wait { L.longest_wait link.new ≡ L.longest_wait link.old }
{
    let mut left = size;
    let mut rest = octets;
    while left > PIECE {
        let (piece, more) = cut_piece(rest);
        let _ = link.send(to, piece);
        left -= piece.len();
        rest = more;
    }
    let _ = link.send(to, rest);
}

/// Tries to send a text to a peer, in datagrams of at most 1,400 octets, each once and in order.
///
/// The text is cut after line feeds where it can be. After its last piece stands the line `. N`, the number of
/// datagrams. Where memory runs out for that line, nothing is sent.
pub fn answer_line<L: Link>(link: &mut L, to: &Peer, text: Bytes) -> Result<(), AllocError>
    ensures answered { OnOk result
        (HasReplied to.now text (link_at L.Link link.old) (link_at L.Link link.new)) }
    ensures none { OnErr result (link_at L.Link link.new ≡ link_at L.Link link.old) }

    ensures coming { L.coming link.new ≡ L.coming link.old }
    ensures receive_faults { L.receive_faults link.new ≡ L.receive_faults link.old }
    ensures longest_wait { L.longest_wait link.new ≡ L.longest_wait link.old }
{
    let mut text = text;
    let size = text.len();
    let count = count_pieces(text.as_slice());
    match append_closing(&mut text, count) {
        Ok(()) => {}
        Err(error) => return Err(error),
    }
    send_pieces(link, to, text.as_slice(), size);
    Ok(())
}

/// Each datagram of an answer has at most 1,400 octets.
pub fn answers_are_small()
    ensures { (text : List ℕ) (datagrams : List (List ℕ)) → length text < 2 ^ 64
        → IsAnswer text datagrams → All (λ datagram. length datagram ≤ 1400) datagrams }
{}

/// The datagrams of an answer are the text and the line that closes it, and a text has one answer only.
pub fn answers_are_whole()
    ensures whole { (text : List ℕ) (datagrams : List (List ℕ)) → IsAnswer text datagrams
        → concat datagrams ≡ text ++ closing_text (length datagrams) }
    ensures one { (text : List ℕ) (datagrams others : List (List ℕ)) → IsAnswer text datagrams
        → IsAnswer text others → datagrams ≡ others }
{}

/// What answers a bad line, or one of which nothing is said, is known as an answer, so no control answers it in turn.
pub fn short_answers_are_known()
    ensures bad { (reason : ReasonValue) (datagrams : List (List ℕ)) → IsAnswer (bad_text reason) datagrams
        → All (λ datagram. IsTrue (is_answer datagram)) datagrams }
    ensures none { (datagrams : List (List ℕ)) → IsAnswer [] datagrams
        → All (λ datagram. IsTrue (is_answer datagram)) datagrams }
{}
