//! Which relay is taken.

ghost use Rattle.std.specs.Prelude.{◌≡◌, ◌≤◌, ◌^◌, [], length, IfSome, IfNone};
ghost use Rattle.amt_dns.specs.{declared.found.Found.{Found as FoundValue}, Choice.{IsChosen}};

use crate::found::FoundList;

/// The place of the relay that is tried first: the first of the least precedence (RFC 8777, section 4.2.1), counted
/// from 0; none of an empty list. It takes no memory.
///
/// A relay `None` may be chosen: then the source has none.
#[tactic(auto, using(crate::proofs::Choices::chosen_at))]
pub fn choose(found: &FoundList) -> Option<u32>
    requires { length found.now ≤ 2 ^ 32 }
    ensures some { IfSome result (λ place. (chosen : FoundValue) × IsChosen found.now place chosen) }
    ensures none { IfNone result (found.now ≡ []) }
{
    let list = found.as_slice();
    if list.is_empty() {
        return None;
    }
    let mut place = 0;
    for (index, one) in list.iter().enumerate() {
        if one.precedence < list[place].precedence {
            place = index;
        }
    }
    Some(place as u32)
}
