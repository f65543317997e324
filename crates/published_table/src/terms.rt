//! By what a log is read.

use endpoint_membership::Limits;

/// The limits and the lifetime by which a log is read.
#[derive(Clone, Copy, Debug, PartialEq, Eq)]
pub struct Terms {
    pub limits: Limits,
    /// How long a membership lasts without another record, in milliseconds.
    pub lifetime_ms: u64,
}
