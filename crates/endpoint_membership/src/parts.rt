//! The memberships of a table, in parts that agree.
//!
//! ```text
//! filters
//! by_group    group, endpoint            -> filter, renewed      who may get a packet to a group
//! pairs       endpoint, group                                    what memberships an endpoint has
//! renewals      renewed, endpoint, group                           in the order in which they expire
//! counts        endpoint                   -> its groups           who is live
//! ```

ghost use Rattle.std.specs.Prelude.{◌≡◌, []};

use crate::filters::StoredFilters;
use crate::keys::LastRenewal;
use amt_values::Endpoint;
use std::alloc::Global;
use std::collections::{BTreeMap, BTreeSet};
use std::marker::Model;

mod change;
mod compared;
mod expiry;
pub mod live;
mod own;
mod renew;
mod replace;
mod shown;
mod targets;
mod touched;

/// The memberships of a table, by endpoint and then by group.
///
/// Nothing is kept but the memberships: they say what is in each of the parts.
#[derive(Debug, Drop)]
pub struct StoredMemberships {
    filters: StoredFilters,
    renewals: BTreeSet<LastRenewal>,
    counts: BTreeMap<Endpoint, usize>,
}

impl Model for StoredMemberships {
    ghost use Rattle.std.specs.Prelude.{List};
    ghost use Rattle.endpoint_membership.specs.{Membership.{Membership}, Parts.{AreAgreed}};

    ghost Value = { List Membership };

    ghost view = { λ s. s.filters };

    ghost invariant = { λ s. AreAgreed s.filters s.renewals s.counts };
}

impl StoredMemberships {
    pub fn new(alloc: Global) -> Self
        ensures { result ≡ [] }
    {
        StoredMemberships {
            filters: StoredFilters::new(alloc),
            renewals: BTreeSet::new(alloc),
            counts: BTreeMap::new(alloc),
        }
    }
}
