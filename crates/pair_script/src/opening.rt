//! The words that begin the lines of a pair's script, besides the names of gateways. It reads no value.

ghost use Rattle.std.specs.Prelude.{◌≡◌, ◌≢◌, ◌↔◌, IsTrue, IfSome, IfNone};
ghost use Rattle.pair_script.specs.{Opening.{IsGatewayName, opening_word}, declared.opening.Opening.{Opening as OpeningValue}};

use script_lines::is_name;

/// What the first word of a line says of the line. No gateway has such a word for its name.
#[derive(Clone, Copy, Debug, PartialEq, Eq)]
pub enum Opening {
    /// A setting of the relay.
    Set,
    /// A gateway.
    Gateway,
    /// It has become a moment.
    Moment,
    /// A new secret.
    Secret,
    /// A multicast packet has come to the relay.
    Packet,
    /// The memberships are asked for.
    Show,
    /// A datagram reaches the relay.
    Up,
    /// A datagram reaches a gateway.
    Down,
}

/// What a first word says.
pub fn opening_of(word: &[u8]) -> Option<Opening>
    ensures found { IfSome result (λ opening. word.now ≡ opening_word opening) }
    ensures none { IfNone result ((opening : OpeningValue) → word.now ≢ opening_word opening) }
{
    if word == b"set".as_slice() {
        return Some(Opening::Set);
    }
    if word == b"gateway".as_slice() {
        return Some(Opening::Gateway);
    }
    if word == b"at".as_slice() {
        return Some(Opening::Moment);
    }
    if word == b"secret".as_slice() {
        return Some(Opening::Secret);
    }
    if word == b"mc".as_slice() {
        return Some(Opening::Packet);
    }
    if word == b"show".as_slice() {
        return Some(Opening::Show);
    }
    if word == b"up".as_slice() {
        return Some(Opening::Up);
    }
    if word == b"down".as_slice() {
        return Some(Opening::Down);
    }
    None
}

/// Whether a gateway may have the name.
pub fn is_gateway_name(name: &[u8]) -> bool
    ensures { IsTrue result ↔ IsGatewayName name.now }
{
    if opening_of(name).is_some() {
        return false;
    }
    is_name(name)
}
