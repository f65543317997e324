//! Group records.

use crate::ips::Ips;
use amt_values::Ip;

/// What a group record is about (RFC 3376, section 4.2.12; RFC 3810, section 5.2.12).
#[derive(Clone, Copy, Debug, PartialEq, Eq)]
pub enum RecordKind {
    /// MODE_IS_INCLUDE: the listed sources are wanted, as the answer to a query.
    IsIn,
    /// MODE_IS_EXCLUDE: all sources but the listed ones are wanted, as the answer to a query.
    IsEx,
    /// CHANGE_TO_INCLUDE_MODE: from now on the listed sources are wanted.
    ToIn,
    /// CHANGE_TO_EXCLUDE_MODE: from now on all sources but the listed ones are wanted.
    ToEx,
    /// ALLOW_NEW_SOURCES: the listed sources are wanted too.
    Allow,
    /// BLOCK_OLD_SOURCES: the listed sources are no longer wanted.
    Block,
}

/// One record of a membership report. Its sources stand in the order of the report, with repeats.
#[derive(Debug, Drop)]
pub struct Record {
    pub kind: RecordKind,
    pub group: Ip,
    pub sources: Ips,
}
