//! The pairs whose membership an entry of the log may end.

ghost use Rattle.std.specs.Prelude.{◌≡◌, ◌≤◌, true, is_some, IfOk};
ghost use Rattle.amt_values.specs.{declared.address.Ip.{Ip as Address}, Ascending.{has}};
ghost use Rattle.endpoint_membership.specs.{EndpointGroup.{EndpointGroup as Pair, endpoint_group_order, same_endpoint}, FiltersAfter.{is_expired}, Memberships.{membership_in}};

use super::StoredMemberships;
use crate::keys::EndpointGroup;
use crate::stored::is_in_time;
use amt_values::{Endpoint, Ip, Moment};
use std::alloc::{AllocError, Global};

impl StoredMemberships {
    /// The pairs whose membership was not renewed in time. They are the first by their renewals, and no
    /// more than one renewal after them is looked at.
    pub fn expired_pairs(
        &self,
        alloc: Global,
        moment: Moment,
        lifetime_ms: u64,
    ) -> Result<Vec<EndpointGroup>, AllocError>
        requires { lifetime_ms ≤ 1000000000 }
        ensures { IfOk result (λ pairs. (at : Pair) → has endpoint_group_order pairs.items at
            ≡ is_expired lifetime_ms moment (membership_in self.now at)) }
    {
        let mut pairs = Vec::new(alloc);
        for renewal in &self.renewals {
            if is_in_time(renewal.renewed, moment, lifetime_ms) {
                break;
            }
            pairs.push(renewal.at)?;
        }
        Ok(pairs)
    }

    /// The pairs of the endpoint that have a membership. It goes over these and no others.
    pub fn pairs_of(
        &self,
        alloc: Global,
        endpoint: &Endpoint,
    ) -> Result<Vec<EndpointGroup>, AllocError>
        ensures of { IfOk result (λ pairs. (at : Pair) → has endpoint_group_order pairs.items at ≡ true
            → same_endpoint at.endpoint endpoint.now ≡ true) }
        ensures all { IfOk result (λ pairs. (group : Address)
            → has endpoint_group_order pairs.items (record { endpoint = endpoint.now; group = group })
            ≡ is_some (membership_in self.now (record { endpoint = endpoint.now; group = group }))) }
    {
        let least = EndpointGroup {
            endpoint: *endpoint,
            group: Ip::V4(0),
        };
        let mut pairs = Vec::new(alloc);
        for at in self.filters.pairs().range(least..) {
            if at.endpoint != *endpoint {
                break;
            }
            pairs.push(*at)?;
        }
        Ok(pairs)
    }
}
