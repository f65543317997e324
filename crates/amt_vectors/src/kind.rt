//! The kinds of rows, by their first word. It reads no other field.

ghost use Rattle.std.specs.Prelude.{◌≡◌, ◌≢◌, IfSome, IfNone};
ghost use Rattle.amt_vectors.specs.{declared.kind.RowKind.{RowKind as RowKindValue}, Row.{word_of}};

use script_lines::is_word;

/// What a row asks for.
#[derive(Clone, Copy, Debug, PartialEq, Eq)]
pub enum RowKind {
    /// The HMAC of a message under a key.
    Hmac,
    /// The Internet checksum of octets.
    Sum,
    /// Whether octets are a message.
    Decode,
    /// The time of a code of 8 bits.
    Code4,
    /// The time of a code of 16 bits.
    Code6,
    /// An address as it is printed.
    Ip,
}

pub fn kind_of_word(word: &[u8]) -> Option<RowKind>
    ensures found { IfSome result (λ kind. word.now ≡ word_of kind) }
    ensures none { IfNone result ((kind : RowKindValue) → word.now ≢ word_of kind) }
{
    if is_word(word, "hmac") {
        return Some(RowKind::Hmac);
    }
    if is_word(word, "sum") {
        return Some(RowKind::Sum);
    }
    if is_word(word, "decode") {
        return Some(RowKind::Decode);
    }
    if is_word(word, "code4") {
        return Some(RowKind::Code4);
    }
    if is_word(word, "code6") {
        return Some(RowKind::Code6);
    }
    if is_word(word, "ip") {
        return Some(RowKind::Ip);
    }
    None
}
