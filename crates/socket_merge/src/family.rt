//! The family of a group.

ghost use Rattle.std.specs.Prelude.{◌≡◌};
ghost use Rattle.group_records.specs.Written.{is_of_family};
ghost use Rattle.socket_merge.specs.{FullReport.{family_by}, Refusal.{family_of}};

use amt_values::Ip;
use group_records::Family;

pub fn family_of(group: &Ip) -> Family
    ensures { result ≡ family_of group.now }
{
    match *group {
        Ip::V4(_) => Family::V4,
        Ip::V6(_) => Family::V6,
    }
}

/// The family of IPv6 groups, or of IPv4 groups.
pub fn family_by(v6: bool) -> Family
    ensures { result ≡ family_by v6 }
{
    if v6 { Family::V6 } else { Family::V4 }
}

pub fn is_of_family(family: Family, group: &Ip) -> bool
    ensures { result ≡ is_of_family family group.now }
{
    family_of(group) == family
}
