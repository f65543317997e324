//! Queries of MLDv2, both ways.

ghost use Rattle.std.specs.Prelude.{◌≡◌, ◌≤◌, length, IfOk, IfErr, Ok, Err, MatchResult, None, Some};
ghost use Rattle.source_filter.specs.declared.{query.QueryRead.{QueryRead as QueryReadValue}, fault.ReportFault.{ReportFault as ReportFaultValue}};
ghost use Rattle.group_records.specs.Query.{IsQueryFault};
ghost use Rattle.mld_records.specs.Query.{first_query_fault6, query6_of, written_query6, IsGeneralQuery6, IsQuery6};

use crate::header::pseudo_header;
use amt_values::{Bytes, INPUT_LIMIT};
use group_records::{Family, read_query, write_query};
use source_filter::{QueryFields, QueryRead, ReportFault};
use std::alloc::{AllocError, Global};

// The octets of a query without sources.
const QUERY_LENGTH: u32 = 28;

/// Writes a General Query for a datagram between these two addresses: every group, no suppression
/// and no sources (RFC 3810, section 5.1).
pub fn write_query6(
    alloc: Global,
    source: u128,
    destination: u128,
    fields: &QueryFields,
) -> Result<Bytes, AllocError>
    requires robustness { fields.now.robustness ≤ 7 }
    ensures written { IfOk result (λ bytes.
        bytes ≡ written_query6 source destination fields.now) }
    ensures length { IfOk result (λ bytes. length bytes ≡ 28) }
    ensures read_back { IfOk result (IsGeneralQuery6 source destination fields.now) }
{
    // For the proof alone: a field that is read is known to fit its 16 bits.
    let _code = fields.max_code;
    let header = pseudo_header(source, destination, QUERY_LENGTH);
    write_query(alloc, Family::V6, &header, fields)
}

/// Reads a whole payload of at most 16 MiB, of a datagram between these two addresses, as one MLDv2
/// membership query (RFC 3810, section 5.1).
///
/// The addresses and the payload's length are summed with it (RFC 8200, section 8.1). The faults are
/// tried in the order of `ReportFault`. The 24 octets of an MLDv1 query are too few (RFC 3810,
/// section 8.1), and sources that aren't all there are `SourceShort(0)`.
pub fn read_query6(
    source: u128,
    destination: u128,
    payload: &[u8],
) -> Result<QueryRead, ReportFault>
    requires { length payload.now ≤ INPUT_LIMIT }

    ensures found { IfOk result (λ query. IsQuery6 source destination query payload.now) }
    ensures only { (query : QueryReadValue)
        → IsQuery6 source destination query payload.now → result ≡ Ok query }

    ensures refused { MatchResult result
        (λ _. first_query_fault6 source destination payload.now ≡ None)
        (λ fault. first_query_fault6 source destination payload.now ≡ Some fault) }
    ensures fault { (fault : ReportFaultValue)
        → first_query_fault6 source destination payload.now ≡ Some fault
        → result ≡ Err fault }
    ensures value { result ≡ query6_of source destination payload.now }
    ensures never { IfErr result IsQueryFault }
{
    let header = pseudo_header(source, destination, payload.len() as u32);
    read_query(Family::V6, &header, payload)
}
