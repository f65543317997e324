//! What a line asks a running gateway for.

ghost use Rattle.std.specs.Prelude.{◌≡◌, ◌↔◌, ◌⊎◌, ◌<◌, ◌∷◌, [], length, codes, IfOk, IfErr, IfSome, IfNone, IsErrOf, IsTrue};
ghost use Rattle.amt_values.specs.Conditions.{First};
ghost use Rattle.script_lines.specs.Lines.{IsPlain, fields};
ghost use Rattle.control_lines.specs.{Asking.{BeginsAsking, line_of}, AskingGateways.{AsksGateway, FailsAtGateway, IsForAsking, StopsByWord, asking_words, gateway_reasons}, declared.asking_gateway.GatewayAsking.{GatewayAsking as GatewayAskingValue}};

use crate::asking::line_of;
use script_lines::{Reason, is_plain, is_word, next_field};

/// What a running gateway is asked for.
#[derive(Clone, Copy, Debug, PartialEq, Eq)]
pub enum GatewayAsking {
    /// Its counts: `counts`.
    Counts,
    /// Where it stands: `show`.
    Show,
    /// That it ends: `stop`.
    Stop,
    /// That all its sockets leave their groups, and it ends: `stop leave`.
    StopLeave,
}

// The first field is one of the words by which either end is asked.
fn begins_by_word(line: &[u8]) -> bool
    ensures { IsTrue result ↔ BeginsAsking (fields line.now) }
{
    let Some((word, _)) = next_field(line) else {
        return false;
    };
    is_word(word, "counts") || is_word(word, "show") || is_word(word, "stop")
}

/// Whether a line of printable ASCII begins as one that asks for something: by `counts`, `show` or `stop`.
pub fn begins_asking(line: &[u8]) -> bool
    ensures { IsTrue result ↔ IsForAsking line.now }
{
    let line = line_of(line);
    is_plain(line) && begins_by_word(line)
}

// What a line asks for by a word that has nothing after it.
fn asking_of_word(word: &[u8]) -> Option<GatewayAsking>
    ensures found { IfSome result (λ asking. asking_words asking ≡ word.now ∷ []) }
    ensures word { IfSome result (λ _. BeginsAsking (word.now ∷ [])) }
    ensures none { IfNone result ((word.now ≡ codes "counts") ⊎ (word.now ≡ codes "show") → ⊥) }
{
    if is_word(word, "counts") {
        return Some(GatewayAsking::Counts);
    }
    if is_word(word, "show") {
        return Some(GatewayAsking::Show);
    }
    None
}

// What a line asks for by what follows `stop`.
fn read_stop(rest: &[u8]) -> Result<GatewayAsking, Reason>
    ensures found { IfOk result (λ asking. asking_words asking ≡ codes "stop" ∷ fields rest.now) }
    ensures word { IsErrOf result Reason.Word → ¬ StopsByWord (codes "stop" ∷ fields rest.now) }
    ensures count { IsErrOf result Reason.Count → 1 < length (fields rest.now) }
    ensures worded { IsErrOf result Reason.Count → StopsByWord (codes "stop" ∷ fields rest.now) }
    ensures reasons { IfErr result (λ reason. (reason ≡ Reason.Word) ⊎ (reason ≡ Reason.Count)) }
{
    let Some((value, more)) = next_field(rest) else {
        return Ok(GatewayAsking::Stop);
    };
    if !is_word(value, "leave") {
        return Err(Reason::Word);
    }
    match next_field(more) {
        None => Ok(GatewayAsking::StopLeave),
        Some(_) => Err(Reason::Count),
    }
}

// What a line of printable ASCII asks for.
fn read_plain(line: &[u8]) -> Result<GatewayAsking, Reason>
    requires { IsPlain line.now }
    ensures found { IfOk result (λ asking. fields line.now ≡ asking_words asking) }
    ensures reason { IfErr result (First (FailsAtGateway line.now) gateway_reasons) }
{
    let Some((word, rest)) = next_field(line) else {
        return Err(Reason::Word);
    };
    if is_word(word, "stop") {
        return read_stop(rest);
    }
    let Some(asking) = asking_of_word(word) else {
        return Err(Reason::Word);
    };
    match next_field(rest) {
        None => Ok(asking),
        Some(_) => Err(Reason::Count),
    }
}

/// Reads a line that asks a running gateway for something, with or without its line feed.
///
/// The reasons are tried in this order: `Word` for an octet that isn't printable ASCII, for a first field that is
/// none of the words, and for a field after `stop` other than `leave`; `Count` for a field too many.
pub fn read_gateway_asking(line: &[u8]) -> Result<GatewayAsking, Reason>
    ensures found { IfOk result (λ asking. AsksGateway asking line.now) }
    ensures reason { IfErr result (First (FailsAtGateway (line_of line.now)) gateway_reasons) }

    // Octets ask for one thing at most.
    ensures only { (asking : GatewayAskingValue) → AsksGateway asking line.now → result ≡ Ok asking }
{
    let line = line_of(line);
    if !is_plain(line) {
        return Err(Reason::Word);
    }
    match read_plain(line) {
        Ok(asking) => Ok(asking),
        Err(reason) => Err(reason),
    }
}
