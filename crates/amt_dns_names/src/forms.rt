//! What stands at a place in a part of a name (RFC 1035, section 4.1.4).

ghost use Rattle.std.specs.Prelude.{◌≡◌, ℕ, ◌+◌, ◌≤◌, ◌<◌, ◌↔◌, List, IfSome, IfNone, IsTrue, unwrap_or};
ghost use Rattle.amt_dns_names.specs.NameAt.{IsLabelAt, IsOctetAt, IsPointerAt};

use amt_values::u16_at;

// Whether an octet is the length of a label. One of 64 to 191 is of no form that is known.
fn counts_a_label(octet: u8) -> bool
    ensures { IsTrue result ↔ ((1 ≤ octet) × (octet ≤ 63)) }
{
    1 <= octet && octet <= 63
}

/// The label that stands at the place, if one does.
pub fn label_at(bytes: &[u8], at: usize) -> Option<&[u8]>
    ensures some { IfSome result (λ label. IsLabelAt bytes.now at label.now) }
    ensures none { IfNone result ((label : List ℕ) → IsLabelAt bytes.now at label → ⊥) }
{
    if at >= bytes.len() || !counts_a_label(bytes[at]) {
        return None;
    }
    let count = bytes[at] as usize;
    let (_, rest) = bytes.split_at(at + 1);
    if rest.len() < count {
        return None;
    }
    let (label, _) = rest.split_at(count);
    Some(label)
}

// Whether a pointer leads to before the part that it ends. Others could lead in a circle.
fn leads_back(to: usize, start: usize) -> bool
    ensures { IsTrue result ↔ (to < start) }
{
    to < start
}

/// Where the pointer leads that stands at the place and ends a part, if one does.
pub fn pointer_at(bytes: &[u8], start: usize, at: usize) -> Option<usize>
    ensures some { IfSome result (λ to. IsPointerAt bytes.now at to) }
    ensures back { IfSome result (λ to. to < start) }
    ensures none { IfNone result ((to : ℕ) → IsPointerAt bytes.now at to → to < start → ⊥) }
{
    if bytes.len() < 2 || at > bytes.len() - 2 || bytes[at] < 192 {
        return None;
    }
    let to = (u16_at(bytes, at) % 0x4000) as usize;
    if leads_back(to, start) {
        Some(to)
    } else {
        None
    }
}

/// The end of a name whose last part a zero octet ends at the place, if one stands there: the end
/// that is known, or the place after that octet.
pub fn end_at(bytes: &[u8], at: usize, known: Option<usize>) -> Option<usize>
    ensures some { IfSome result (λ end. IsOctetAt bytes.now at 0) }
    ensures end { IfSome result (λ end. end ≡ unwrap_or known (at + 1)) }
    ensures none { IfNone result (IsOctetAt bytes.now at 0 → ⊥) }
{
    if at >= bytes.len() || bytes[at] != 0 {
        return None;
    }
    Some(known.unwrap_or(at + 1))
}
