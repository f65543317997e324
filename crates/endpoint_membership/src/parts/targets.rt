//! Which endpoints get a copy of a packet.

ghost use Rattle.std.specs.Prelude.{◌≡◌, ◌≤◌, ◌+◌, ◌&&◌, nat_lt};
ghost use Rattle.source_filter.specs.Filter.{admits};
ghost use Rattle.endpoint_membership.specs.{EndpointGroup.{same_group}, Limits.{live_count}, Stored.{AreTargets}};

use super::StoredMemberships;
use crate::keys::GroupMember;
use crate::stored::StoredFilter;
use crate::targets::Targets;
use amt_values::{Endpoint, Ip, Moment};

fn is_of(member: &GroupMember, group: &Ip) -> bool
    ensures { result ≡ same_group member.now.group group.now }
{
    member.group == *group
}

// Whether a member's filter counts at the moment and lets the source in.
fn lets_in(stored: &StoredFilter, source: &Ip, moment: Moment, lifetime_ms: u64) -> bool
    requires { lifetime_ms ≤ 1000000000 }
    ensures { result ≡ (nat_lt moment (stored.now.renewed + lifetime_ms)
        && admits stored.now.filter source.now) }
{
    stored.is_fresh(moment, lifetime_ms) && stored.filter.admits(source)
}

impl StoredMemberships {
    /// Replaces what is in `out` by the endpoints of the memberships that let the packet in. It goes
    /// over the members of the group, which stand together with their filters, and no others. An
    /// endpoint has one membership in a group, so none comes twice.
    pub fn collect_targets(
        &self,
        group: &Ip,
        source: &Ip,
        moment: Moment,
        lifetime_ms: u64,
        out: &mut Targets,
    )
        requires lifetime { lifetime_ms ≤ 1000000000 }
        requires room { live_count self.now ≤ out.old.room }
        ensures endpoints { AreTargets lifetime_ms moment group.now source.now self.now
            out.new.endpoints }
        ensures room { out.new.room ≡ out.old.room }
    {
        out.clear();
        let least = GroupMember {
            group: *group,
            endpoint: Endpoint::named(0, 0),
        };
        for (member, stored) in self.filters.by_group().range(least..) {
            if !is_of(member, group) {
                break;
            }
            if lets_in(stored, source, moment, lifetime_ms) {
                out.push(member.endpoint);
            }
        }
    }
}
