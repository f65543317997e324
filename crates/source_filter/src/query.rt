//! The fields of a query.

use amt_values::Ip;

/// What a General Query asks of its listeners (RFC 3376, section 4.1; RFC 3810, section 5.1).
#[derive(Clone, Copy, Debug, PartialEq, Eq)]
pub struct QueryFields {
    /// The time within which a listener answers, as a code. In IGMP it has 8 bits and stands for
    /// tenths of a second, in MLD for milliseconds.
    pub max_code: u16,
    /// The querier's robustness variable, 0 to 7. It is 0 where the variable is above 7.
    pub robustness: u8,
    /// The time between two queries, as an IGMP code in seconds.
    pub interval_code: u8,
}

/// A query as its listener reads it (RFC 3376, section 4.1; RFC 3810, section 5.1).
#[derive(Clone, Copy, Debug, PartialEq, Eq)]
pub struct QueryRead {
    pub fields: QueryFields,
    /// Whether the S flag is set: a router that hears the query isn't to shorten its timers.
    pub suppress: bool,
    /// The group that is asked about; zero stands for every group.
    pub group: Ip,
    /// The number of sources that are asked about.
    pub sources: u16,
}
