//! The kinds of lines of a relay's script, by their first words. It reads no value.

ghost use Rattle.std.specs.Prelude.{◌≡◌, ◌≢◌, ◌∷◌, ◌++◌, [], codes, IfSome, IfNone, IfOk, IsErrOf};
ghost use Rattle.amt_script.specs.{declared.kind.Key.{Key as KeyValue}, Row.{key_word, number_word, words_of, BeginsWithNoKey, IsUnknown}};
ghost use Rattle.script_lines.specs.Lines.{fields};
ghost use Rattle.relay_machine.specs.declared.number_key.NumberKey.{NumberKey as NumberKeyValue};

use relay_machine::{NUMBER_KEYS, NumberKey};
use script_lines::{is_word, next_field};

/// What a `set` line sets.
#[derive(Clone, Copy, Debug, PartialEq, Eq)]
pub enum Key {
    Relay,
    Query4,
    Query6,
    /// One of the relay's numbers.
    Number(NumberKey),
    Secret,
    LinuxGateways,
}

impl Key {
    ghost use Rattle.std.specs.Prelude.{◌≡◌};
    ghost use Rattle.amt_script.specs.Row.{key_word};

    /// The word after `set`.
    pub fn word(self) -> &'static str
        ensures { result.now ≡ key_word self }
    {
        match self {
            Key::Relay => "relay",
            Key::Query4 => "query4",
            Key::Query6 => "query6",
            Key::Number(key) => number_word(key),
            Key::Secret => "secret",
            Key::LinuxGateways => "linux_gateways",
        }
    }
}

fn number_word(key: NumberKey) -> &'static str
    ensures { result.now ≡ number_word key }
{
    match key {
        NumberKey::Robustness => "robustness",
        NumberKey::QuerySeconds => "query_seconds",
        NumberKey::ResponseTenths => "response_tenths",
        NumberKey::Secrets => "secrets",
        NumberKey::Endpoints => "endpoints",
        NumberKey::Groups => "groups",
        NumberKey::Sources => "sources",
        NumberKey::PacketLimit => "packet_limit",
    }
}

/// The kinds of lines of a relay's script that say something.
#[derive(Clone, Copy, Debug, PartialEq, Eq)]
pub enum Kind {
    /// A setting.
    Set(Key),
    /// It has become a moment.
    Moment,
    /// A new secret.
    Secret,
    /// New limits.
    Limits,
    /// A datagram has come.
    Datagram,
    /// A multicast packet has come.
    Packet,
    /// The memberships are asked for.
    Show,
}

/// Why a line is of no kind.
#[derive(Clone, Copy, Debug, PartialEq, Eq)]
pub enum NoKind {
    Unknown,
    /// A `set` with nothing after it.
    SetAlone,
}

fn number_key_of_word(word: &[u8]) -> Option<NumberKey>
    ensures found { IfSome result (λ key. word.now ≡ number_word key) }
    ensures none { IfNone result ((key : NumberKeyValue) → word.now ≢ number_word key) }
{
    for key in NUMBER_KEYS {
        if is_word(word, number_word(key)) {
            return Some(key);
        }
    }
    None
}

fn key_of_word(word: &[u8]) -> Option<Key>
    ensures found { IfSome result (λ key. word.now ≡ key_word key) }
    ensures none { IfNone result ((key : KeyValue) → word.now ≢ key_word key) }
{
    if is_word(word, "relay") {
        return Some(Key::Relay);
    }
    if is_word(word, "query4") {
        return Some(Key::Query4);
    }
    if is_word(word, "query6") {
        return Some(Key::Query6);
    }
    if is_word(word, "secret") {
        return Some(Key::Secret);
    }
    if is_word(word, "linux_gateways") {
        return Some(Key::LinuxGateways);
    }
    match number_key_of_word(word) {
        Some(key) => Some(Key::Number(key)),
        None => None,
    }
}

/// The key that follows the word `set`, and the octets after it.
pub fn key_after_set(rest: &[u8]) -> Result<(Key, &[u8]), NoKind>
    ensures found { IfOk result (λ parts. fields rest.now ≡ key_word parts.0 ∷ fields parts.1.now) }
    ensures alone { IsErrOf result NoKind.SetAlone → fields rest.now ≡ [] }
    ensures unknown { IsErrOf result NoKind.Unknown → BeginsWithNoKey (fields rest.now) }
{
    let Some((word, values)) = next_field(rest) else {
        return Err(NoKind::SetAlone);
    };
    match key_of_word(word) {
        Some(key) => Ok((key, values)),
        None => Err(NoKind::Unknown),
    }
}

fn kind_after_set(rest: &[u8]) -> Result<(Kind, &[u8]), NoKind>
    ensures found { IfOk result (λ parts. codes "set" ∷ fields rest.now ≡ words_of parts.0 ++ fields parts.1.now) }
    ensures alone { IsErrOf result NoKind.SetAlone → fields rest.now ≡ [] }
    ensures unknown { IsErrOf result NoKind.Unknown → IsUnknown (codes "set" ∷ fields rest.now) }
{
    match key_after_set(rest) {
        Ok((key, values)) => Ok((Kind::Set(key), values)),
        Err(no_kind) => Err(no_kind),
    }
}

/// The kind of a line by its first field and what follows it, and the octets after its first words.
pub fn kind_of_line<'a>(word: &[u8], rest: &'a [u8]) -> Result<(Kind, &'a [u8]), NoKind>
    ensures found { IfOk result (λ parts. word.now ∷ fields rest.now ≡ words_of parts.0 ++ fields parts.1.now) }
    ensures alone { IsErrOf result NoKind.SetAlone → word.now ∷ fields rest.now ≡ codes "set" ∷ [] }
    ensures unknown { IsErrOf result NoKind.Unknown → IsUnknown (word.now ∷ fields rest.now) }
{
    if word == b"set".as_slice() {
        return kind_after_set(rest);
    }
    if word == b"at".as_slice() {
        return Ok((Kind::Moment, rest));
    }
    if word == b"secret".as_slice() {
        return Ok((Kind::Secret, rest));
    }
    if word == b"limits".as_slice() {
        return Ok((Kind::Limits, rest));
    }
    if word == b"dg".as_slice() {
        return Ok((Kind::Datagram, rest));
    }
    if word == b"mc".as_slice() {
        return Ok((Kind::Packet, rest));
    }
    if word == b"show".as_slice() {
        return Ok((Kind::Show, rest));
    }
    Err(NoKind::Unknown)
}
