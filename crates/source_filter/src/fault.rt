//! Why a payload is no report or no query.

/// Why a payload is no membership report, or no query: the first of these that holds.
///
/// The head comes first: `Short`, then `Kind`, then `Short` again, where an older report hasn't its whole
/// group, then `Sum`. After it come the records of a report of IGMPv3 or MLDv2, one by one, each with
/// `RecordShort` and then `SourceShort`: missing sources of one record come before a missing head of the
/// next. A query has no records but one list of sources. Record numbers are counted from 0.
#[derive(Clone, Copy, Debug, PartialEq, Eq)]
pub enum ReportFault {
    /// Fewer octets than needed: the octets needed, and those there.
    Short(u32, u32),
    /// Of a report, a type that is no report's of any version; of a query, any type but a query's.
    Kind(u8),
    /// A wrong checksum: the one wanted, and the one there.
    Sum(u16, u16),
    /// Fewer octets are left than the head of the record with this number has; never of a query.
    RecordShort(u32),
    /// Fewer octets are left than the sources and the auxiliary data of the record with this
    /// number take; of a query, than its sources take, and the number is 0.
    SourceShort(u32),
}

/// Why no records came of a payload.
#[derive(Clone, Copy, Debug, PartialEq, Eq)]
pub enum ReadFault {
    Report(ReportFault),
    /// Nothing is at fault so far, and there is no memory for the records.
    Memory,
}
