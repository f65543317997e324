//! The kinds of lines of a gateway's script, by their first words. It reads no value.

ghost use Rattle.std.specs.Prelude.{◌≡◌, ◌≢◌, ◌≤◌, length, ◌∷◌, ◌++◌, [], codes, IfSome, IfNone, IfOk, IsErrOf};
ghost use Rattle.gateway_script.specs.{declared.kind.Key.{Key as KeyValue}, Row.{key_word, words_of, IsUnknown}};
ghost use Rattle.script_lines.specs.Lines.{fields};

use script_lines::{is_word, next_field};

/// What a `set` line sets.
#[derive(Clone, Copy, Debug, PartialEq, Eq)]
pub enum Key {
    Family,
    Discovery,
    Source,
    Relay,
    Port,
    Nonce,
    LinuxRelay,
}

impl Key {
    ghost use Rattle.std.specs.Prelude.{◌≡◌};
    ghost use Rattle.gateway_script.specs.Row.{key_word};

    /// The word after `set`.
    pub fn word(self) -> &'static str
        ensures { result.now ≡ key_word self }
    {
        match self {
            Key::Family => "family",
            Key::Discovery => "discovery",
            Key::Source => "source",
            Key::Relay => "relay",
            Key::Port => "port",
            Key::Nonce => "nonce",
            Key::LinuxRelay => "linux_relay",
        }
    }
}

/// The kinds of lines of a gateway's script that say something.
#[derive(Clone, Copy, Debug, PartialEq, Eq)]
pub enum LineKind {
    /// A setting.
    Set(Key),
    /// It has become a moment.
    Moment,
    /// A new next nonce.
    Nonce,
    /// A datagram has come.
    Datagram,
    /// A socket is opened.
    Open,
    /// A socket has another filter.
    Change,
    /// A socket is closed.
    Close,
    /// Every socket is closed.
    Leave,
}

/// Why a line is of no kind.
#[derive(Clone, Copy, Debug, PartialEq, Eq)]
pub enum NoKind {
    Unknown,
    /// A `set` with nothing after it.
    SetAlone,
}

fn key_of_word(word: &[u8]) -> Option<Key>
    ensures found { IfSome result (λ key. word.now ≡ key_word key) }
    ensures none { IfNone result ((key : KeyValue) → word.now ≢ key_word key) }
{
    if is_word(word, "family") {
        return Some(Key::Family);
    }
    if is_word(word, "discovery") {
        return Some(Key::Discovery);
    }
    if is_word(word, "source") {
        return Some(Key::Source);
    }
    if is_word(word, "relay") {
        return Some(Key::Relay);
    }
    if is_word(word, "port") {
        return Some(Key::Port);
    }
    if is_word(word, "nonce") {
        return Some(Key::Nonce);
    }
    if is_word(word, "linux_relay") {
        return Some(Key::LinuxRelay);
    }
    None
}

fn kind_after_set(rest: &[u8]) -> Result<(LineKind, &[u8]), NoKind>
    ensures found { IfOk result (λ parts. codes "set" ∷ fields rest.now ≡ words_of parts.0 ++ fields parts.1.now) }
    ensures shorter { IfOk result (λ parts. length parts.1.now ≤ length rest.now) }
    ensures alone { IsErrOf result NoKind.SetAlone → fields rest.now ≡ [] }
    ensures unknown { IsErrOf result NoKind.Unknown → IsUnknown (codes "set" ∷ fields rest.now) }
{
    let Some((word, values)) = next_field(rest) else {
        return Err(NoKind::SetAlone);
    };
    match key_of_word(word) {
        Some(key) => Ok((LineKind::Set(key), values)),
        None => Err(NoKind::Unknown),
    }
}

/// The kind of a line by its first field and what follows it, and the octets after its first words.
pub fn kind_of_line<'a>(word: &[u8], rest: &'a [u8]) -> Result<(LineKind, &'a [u8]), NoKind>
    ensures found { IfOk result (λ parts. word.now ∷ fields rest.now ≡ words_of parts.0 ++ fields parts.1.now) }
    ensures shorter { IfOk result (λ parts. length parts.1.now ≤ length rest.now) }
    ensures alone { IsErrOf result NoKind.SetAlone → word.now ∷ fields rest.now ≡ codes "set" ∷ [] }
    ensures unknown { IsErrOf result NoKind.Unknown → IsUnknown (word.now ∷ fields rest.now) }
{
    if word == b"set".as_slice() {
        return kind_after_set(rest);
    }
    if word == b"at".as_slice() {
        return Ok((LineKind::Moment, rest));
    }
    if word == b"nonce".as_slice() {
        return Ok((LineKind::Nonce, rest));
    }
    if word == b"dg".as_slice() {
        return Ok((LineKind::Datagram, rest));
    }
    if word == b"open".as_slice() {
        return Ok((LineKind::Open, rest));
    }
    if word == b"change".as_slice() {
        return Ok((LineKind::Change, rest));
    }
    if word == b"close".as_slice() {
        return Ok((LineKind::Close, rest));
    }
    if word == b"leave".as_slice() {
        return Ok((LineKind::Leave, rest));
    }
    Err(NoKind::Unknown)
}
