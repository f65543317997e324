//! Relays, as records of type AMTRELAY name them.

use amt_dns_names::Name;
use amt_values::{Ip, Items};

/// A relay (RFC 8777, section 4.2.4).
#[derive(Debug, Drop)]
pub enum Relay {
    /// The source has no relay.
    None,
    At(Ip),
    /// The host of this name is one.
    Named(Name),
}

/// What a record says of a relay (RFC 8777, section 4.2).
#[derive(Debug, Drop)]
pub struct Found {
    /// A relay of a lower precedence is tried first.
    pub precedence: u8,
    /// A Request may go to the relay without a discovery: the D bit (section 4.2.2).
    pub direct: bool,
    pub relay: Relay,
}

/// Relays, in the order of their records.
pub type FoundList = Items<Found>;
