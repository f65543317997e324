//! The fields of a line. It knows no kind of line.

ghost use Rattle.std.specs.Prelude.{◌≡◌, ◌≢◌, ◌<◌, ◌≤◌, ◌↔◌, IsTrue, ℕ, ◌∷◌, [], length, take, drop, slice_index, All, MatchOption, IfSome, IfNone};
ghost use Rattle.script_lines.specs.Lines.{fields};

use amt_values::cut_at;

// What follows the spaces at the beginning; none where there are spaces alone.
fn without_leading_spaces(line: &[u8]) -> Option<&[u8]>
    ensures spaces { IfSome result (λ rest. (n : ℕ) × All (λ octet. octet ≡ 32) (take n line.now) × (rest.now ≡ drop n line.now)) }
    ensures filled { IfSome result (λ rest. (0 < length rest.now) × (slice_index rest.now 0 ≢ 32)) }
    ensures shorter { IfSome result (λ rest. length rest.now ≤ length line.now) }
    ensures none { IfNone result (All (λ octet. octet ≡ 32) line.now) }
{
    let start = line.iter().position(|octet| *octet != b' ')?;
    let (_, rest) = line.split_at(start);
    Some(rest)
}

// The first field of a line and the octets after it; none where there are spaces alone.
pub fn next_field(line: &[u8]) -> Option<(&[u8], &[u8])>
    ensures parts { MatchOption result (fields line.now ≡ []) (λ parts. fields line.now ≡ parts.0.now ∷ fields parts.1.now) }
    ensures shorter { IfSome result (λ parts. length parts.1.now < length line.now) }
{
    let Some(text) = without_leading_spaces(line) else {
        return None;
    };
    match cut_at(text, b' ') {
        None => Some((text, &[])),
        Some(parts) => Some(parts),
    }
}

/// Whether a field is this word of the format.
pub fn is_word(field: &[u8], word: &str) -> bool
    ensures { IsTrue result ↔ (field.now ≡ word.now) }
{
    field == word.as_bytes()
}

/// The one field of a line.
pub fn only_field(line: &[u8]) -> Option<&[u8]>
    ensures found { IfSome result (λ field. fields line.now ≡ field.now ∷ []) }
    ensures none { IfNone result (length (fields line.now) ≢ 1) }
{
    let Some((field, rest)) = next_field(line) else {
        return None;
    };
    match next_field(rest) {
        None => Some(field),
        Some(_) => None,
    }
}

/// The two fields of a line.
pub fn two_fields(line: &[u8]) -> Option<(&[u8], &[u8])>
    ensures found { IfSome result (λ parts. fields line.now ≡ parts.0.now ∷ parts.1.now ∷ []) }
    ensures none { IfNone result (length (fields line.now) ≢ 2) }
{
    let Some((first, rest)) = next_field(line) else {
        return None;
    };
    match only_field(rest) {
        Some(second) => Some((first, second)),
        None => None,
    }
}

/// The three fields of a line.
pub fn three_fields(line: &[u8]) -> Option<(&[u8], &[u8], &[u8])>
    ensures found { IfSome result (λ parts. fields line.now ≡ parts.0.now ∷ parts.1.now ∷ parts.2.now ∷ []) }
    ensures none { IfNone result (length (fields line.now) ≢ 3) }
{
    let Some((first, rest)) = next_field(line) else {
        return None;
    };
    match two_fields(rest) {
        Some((second, third)) => Some((first, second, third)),
        None => None,
    }
}
