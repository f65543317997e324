//! The parts of a pair's steps as those of machines.

ghost use Rattle.std.specs.Prelude.{◌≡◌, ◌≤◌, ◌+◌, ◌++◌, Bool, false, length, vec_capacity, vec_len};
ghost use Rattle.amt_dual.specs.InTurn.{part_of, parts_in_turn};

use crate::step::DualPart;
use amt_pair::Part;

/// The part of a machine of this family.
pub fn part_of(part: Part, v6: bool) -> DualPart
    ensures { result ≡ part_of v6 part }
{
    match part {
        Part::Relay(step) => DualPart::Relay(step),
        Part::Gateway { name, step } => DualPart::Gateway { name, v6, step },
        Part::Absent(number) => DualPart::Absent(number),
    }
}

/// Puts the parts of machines at the end, which are of IPv4 and IPv6 in turn, of IPv4 first. There is room.
pub fn push_in_turn(parts: Vec<Part>, into: &mut Vec<DualPart>)
    requires { vec_len into.old + length parts.items ≤ vec_capacity into.old }
    ensures { into.new.items ≡ into.old.items ++ parts_in_turn false parts.items }
{
    let mut v6 = false;
    for part in parts {
        into.push_reserved(part_of(part, v6));
        v6 = !v6;
    }
}
