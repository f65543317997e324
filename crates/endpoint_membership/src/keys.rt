//! The keys by which a table finds memberships.

use amt_values::{Endpoint, Ip, Moment};
use std::marker::Model;

/// An endpoint and a group. They are ordered by endpoint, then group.
#[derive(Clone, Copy, Debug, PartialEq, Eq, PartialOrd, Ord)]
pub struct EndpointGroup {
    pub endpoint: Endpoint,
    pub group: Ip,
}

impl Model for EndpointGroup {
    ghost use Rattle.endpoint_membership.specs.EndpointGroup.{EndpointGroup};

    ghost Value = { EndpointGroup };

    ghost view = { λ s. record { endpoint = s.endpoint; group = s.group } };

    ghost inverse = { λ p. record { endpoint = p.endpoint; group = p.group } };
}

/// When a membership was last renewed. In this order memberships expire.
#[derive(Clone, Copy, Debug, PartialEq, Eq, PartialOrd, Ord)]
pub struct LastRenewal {
    pub renewed: Moment,
    pub at: EndpointGroup,
}

/// A member of a group. In this order the members of a group stand together, by endpoint.
#[derive(Clone, Copy, Debug, PartialEq, Eq, PartialOrd, Ord)]
pub struct GroupMember {
    pub group: Ip,
    pub endpoint: Endpoint,
}
