//! What a line asks a running relay for, and the octets of a line to either end.

ghost use Rattle.std.specs.Prelude.{◌≡◌, ◌⊎◌, ◌<◌, ◌∷◌, [], length, codes, IfOk, IfErr, IfSome, IfNone, IsErrOf, IsTrue};
ghost use Rattle.amt_values.specs.Conditions.{First};
ghost use Rattle.script_lines.specs.Lines.{IsPlain, fields};
ghost use Rattle.control_lines.specs.{Asking.{Asks, BeginsAsking, Fails, NamesNoPeer, SaysAsking, line_of, order_of_reasons}, declared.asking.Asking.{Asking as AskingValue}};

use amt_values::{Peer, parse_peer};
use script_lines::{Reason, is_plain, is_word, next_field, without_carriage_return};

/// What a running relay is asked for.
#[derive(Clone, Copy, Debug, PartialEq, Eq)]
pub enum Asking {
    /// Its counts: `counts`.
    Counts,
    /// What it holds: `show`.
    Show,
    /// What it holds of one endpoint: `show PEER`.
    ShowOf(Peer),
    /// That it ends: `stop`.
    Stop,
}

/// The octets without a line feed at their end, and then without a carriage return.
pub(crate) fn line_of(octets: &[u8]) -> &[u8]
    ensures { result.now ≡ line_of octets.now }
{
    match octets {
        [start @ .., b'\n'] => without_carriage_return(start),
        _ => octets,
    }
}

// What a line asks for by a word alone, other than `show`.
fn asking_of_word(word: &[u8]) -> Option<Asking>
    ensures found { IfSome result (λ asking. SaysAsking asking (word.now ∷ [])) }
    ensures word { IfSome result (λ _. BeginsAsking (word.now ∷ [])) }
    ensures none { IfNone result ((word.now ≡ codes "counts") ⊎ (word.now ≡ codes "stop") → ⊥) }
{
    if is_word(word, "counts") {
        return Some(Asking::Counts);
    }
    if is_word(word, "stop") {
        return Some(Asking::Stop);
    }
    None
}

// What a line asks for by what follows `show`.
fn read_show(rest: &[u8]) -> Result<Asking, Reason>
    ensures found { IfOk result (λ asking. SaysAsking asking (codes "show" ∷ fields rest.now)) }
    ensures count { IsErrOf result Reason.Count → 1 < length (fields rest.now) }
    ensures peer { IsErrOf result Reason.Peer → NamesNoPeer (codes "show" ∷ fields rest.now) }
    ensures reasons { IfErr result (λ reason. (reason ≡ Reason.Count) ⊎ (reason ≡ Reason.Peer)) }
{
    let Some((text, more)) = next_field(rest) else {
        return Ok(Asking::Show);
    };
    if next_field(more).is_some() {
        return Err(Reason::Count);
    }
    match parse_peer(text) {
        Some(peer) => Ok(Asking::ShowOf(peer)),
        None => Err(Reason::Peer),
    }
}

// What a line of printable ASCII asks for.
fn read_plain(line: &[u8]) -> Result<Asking, Reason>
    requires { IsPlain line.now }
    ensures found { IfOk result (λ asking. SaysAsking asking (fields line.now)) }
    ensures reason { IfErr result (First (Fails line.now) order_of_reasons) }
{
    let Some((word, rest)) = next_field(line) else {
        return Err(Reason::Word);
    };
    if is_word(word, "show") {
        return read_show(rest);
    }
    let Some(asking) = asking_of_word(word) else {
        return Err(Reason::Word);
    };
    match next_field(rest) {
        None => Ok(asking),
        Some(_) => Err(Reason::Count),
    }
}

/// Reads a line that asks a running relay for something, with or without its line feed.
///
/// The reasons are tried in this order: `Word` for an octet that isn't printable ASCII, and for a first field that
/// is none of the words; `Count` for a field too many; `Peer` for a field after `show` that is no text of a peer.
pub fn read_asking(line: &[u8]) -> Result<Asking, Reason>
    ensures found { IfOk result (λ asking. Asks asking line.now) }
    ensures reason { IfErr result (First (Fails (line_of line.now)) order_of_reasons) }

    // Octets ask for one thing at most.
    ensures only { (asking : AskingValue) → Asks asking line.now → result ≡ Ok asking }
{
    let line = line_of(line);
    if !is_plain(line) {
        return Err(Reason::Word);
    }
    match read_plain(line) {
        Ok(asking) => Ok(asking),
        Err(reason) => Err(reason),
    }
}
