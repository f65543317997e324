//! One secret.

ghost use Rattle.std.specs.Prelude.{Some, codes};

use std::fmt;

/// A private secret of a relay (RFC 7450, section 5.3.6).
///
/// There is no `==` on secrets: it would stop at the first octet that differs, and so tell by its
/// time how much of a guess is right.
#[derive(Clone, Copy)]
pub struct Secret(pub [u8; 32]);

// A secret in a log is no secret, and a derived text would show its octets.
impl fmt::Debug for Secret {
    ghost debug_output = { λ _. Some (codes "Secret(..)") };

    fn fmt<W: fmt::Write>(&self, f: &mut fmt::Formatter<W>) -> fmt::Result {
        f.write_str("Secret(..)")
    }
}
