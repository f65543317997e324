//! Reading the name at a place of a message.

ghost use Rattle.std.specs.Prelude.{◌≡◌, ℕ, ◌≤◌, List, [], length, Option, Some, IfOk, IfSome, IfNone};
ghost use Rattle.amt_dns_names.specs.{NameAt.{HasNoNameAt, IsLabelAt, NameAt}, Reading.{Leads}};

use crate::forms::{end_at, label_at, pointer_at};
use crate::name::Name;
use std::alloc::{AllocError, Global};

/// A name, and the place after its octets.
#[derive(Debug, Drop)]
pub struct ReadName {
    pub name: Name,
    pub end: u32,
}

// Puts the labels that stand from the start of a part on at the end of a name, and gives the place
// behind them; none where they make the name too long.
fn read_labels(
    alloc: Global,
    bytes: &[u8],
    start: usize,
    name: &mut Name,
) -> Result<Option<usize>, AllocError>
    ensures leads { IfOk result (λ place. IfSome place (λ at. (name_at : ℕ) (known : Option ℕ)
        → Leads bytes.now name_at name.old known start start
        → Leads bytes.now name_at name.new known start at)) }
    ensures all { IfOk result (λ place. IfSome place (λ at. (label : List ℕ)
        → IsLabelAt bytes.now at label → ⊥)) }
    ensures none { IfOk result (λ place. IfNone place ((name_at : ℕ) (known : Option ℕ)
        → Leads bytes.now name_at name.old known start start → HasNoNameAt bytes.now name_at)) }
{
    let mut at = start;
    while let Some(label) = label_at(bytes, at) {
        if !name.has_room(label.len()) {
            return Ok(None);
        }
        name.push(alloc, label)?;
        at += 1 + label.len();
    }
    Ok(Some(at))
}

// Follows the parts of the name at a place, puts its labels into an empty name, and gives its end.
fn read_parts(
    alloc: Global,
    bytes: &[u8],
    at: usize,
    name: &mut Name,
) -> Result<Option<usize>, AllocError>
    requires empty { name.old ≡ [] }
    ensures some { IfOk result (λ end. IfSome end (λ end. NameAt bytes.now at name.new end)) }
    ensures none { IfOk result (λ end. IfNone end (HasNoNameAt bytes.now at)) }
{
    let mut start = at;
    let mut known = None;
    loop {
        let Some(place) = read_labels(alloc, bytes, start, name)? else {
            return Ok(None);
        };
        let Some(to) = pointer_at(bytes, start, place) else {
            // Its clause says that what was read is short enough.
            let _ = name.labels();
            return Ok(end_at(bytes, place, known));
        };
        known = Some(known.unwrap_or(place + 2));
        start = to;
    }
}

/// Reads the name at a place of a message (RFC 1035, sections 3.1 and 4.1.4); none where no name
/// stands there.
///
/// A pointer costs one step and no memory, however many a name has.
pub fn read_name(alloc: Global, bytes: &[u8], at: u32) -> Result<Option<ReadName>, AllocError>
    requires { length bytes.now ≤ 65535 }
    ensures some { IfOk result (λ found. IfSome found
        (λ read. NameAt bytes.now at read.name read.end)) }
    ensures none { IfOk result (λ found. IfNone found (HasNoNameAt bytes.now at)) }
    ensures only { (labels : List (List ℕ)) (end : ℕ) → NameAt bytes.now at labels end
        → IfOk result (λ found. found ≡ Some (record { name = labels; end = end })) }
    ensures within { IfOk result (λ found. IfSome found (λ read. read.end ≤ length bytes.now)) }
{
    let mut name = Name::root(alloc);
    match read_parts(alloc, bytes, at as usize, &mut name)? {
        Some(end) => Ok(Some(ReadName {
            name,
            end: end as u32,
        })),
        None => Ok(None),
    }
}
