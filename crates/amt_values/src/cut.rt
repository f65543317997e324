//! The parts of a text around an octet.

ghost use Rattle.std.specs.Prelude.{◌≡◌, ◌≢◌, ◌∷◌, ◌++◌, ℕ, List, All, IfSome, IfNone};

use memchr::memchr;

/// The parts before and after the first octet `at`; none where there is no such octet.
pub fn cut_at(text: &[u8], at: u8) -> Option<(&[u8], &[u8])>
    ensures found { IfSome result (λ parts. text.now ≡ parts.0.now ++ at ∷ parts.1.now) }
    ensures first { IfSome result (λ parts. All (λ octet. octet ≢ at) parts.0.now) }
    ensures none { IfNone result (All (λ octet. octet ≢ at) text.now) }
{
    let place = memchr(at, text)?;
    let (front, rest) = text.split_at(place);
    let (_, back) = rest.split_at(1);
    Some((front, back))
}

/// What follows the octet `at` in a text that begins with it.
pub fn after_octet(text: &[u8], at: u8) -> Option<&[u8]>
    ensures found { IfSome result (λ rest. text.now ≡ at ∷ rest.now) }
    ensures none { IfNone result ((rest : List ℕ) → text.now ≢ at ∷ rest) }
{
    let (first, rest) = text.split_first()?;
    if *first == at { Some(rest) } else { None }
}
