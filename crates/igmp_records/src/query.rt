//! Queries of IGMPv3, both ways.

ghost use Rattle.std.specs.Prelude.{◌≡◌, ◌≤◌, length, IfOk, IfErr, Ok, Err, MatchResult, None, Some};
ghost use Rattle.source_filter.specs.declared.{query.QueryRead.{QueryRead as QueryReadValue}, fault.ReportFault.{ReportFault as ReportFaultValue}};
ghost use Rattle.group_records.specs.Query.{IsQueryFault};
ghost use Rattle.igmp_records.specs.Query.{first_query_fault4, query4_of, written_query4, IsGeneralQuery, IsQuery4};

use amt_values::{Bytes, INPUT_LIMIT};
use group_records::{Family, read_query, write_query};
use source_filter::{QueryFields, QueryRead, ReportFault};
use std::alloc::{AllocError, Global};

/// Writes a General Query: every group, no suppression and no sources (RFC 3376, section 4.1).
pub fn write_query4(alloc: Global, fields: &QueryFields) -> Result<Bytes, AllocError>
    requires code { fields.now.max_code ≤ 255 }
    requires robustness { fields.now.robustness ≤ 7 }
    ensures written { IfOk result (λ bytes. bytes ≡ written_query4 fields.now) }
    ensures read_back { IfOk result (IsGeneralQuery fields.now) }
{
    write_query(alloc, Family::V4, &[], fields)
}

/// Reads a whole payload of at most 16 MiB as one IGMPv3 membership query (RFC 3376, section 4.1).
///
/// The faults are tried in the order of `ReportFault`. The 8 octets of an IGMPv1 or IGMPv2 query are
/// too few (RFC 3376, section 7.1), and sources that aren't all there are `SourceShort(0)`.
pub fn read_query4(payload: &[u8]) -> Result<QueryRead, ReportFault>
    requires { length payload.now ≤ INPUT_LIMIT }

    ensures found { IfOk result (λ query. IsQuery4 query payload.now) }
    ensures only { (query : QueryReadValue) → IsQuery4 query payload.now → result ≡ Ok query }

    ensures refused { MatchResult result
        (λ _. first_query_fault4 payload.now ≡ None)
        (λ fault. first_query_fault4 payload.now ≡ Some fault) }
    ensures fault { (fault : ReportFaultValue) → first_query_fault4 payload.now ≡ Some fault
        → result ≡ Err fault }
    ensures value { result ≡ query4_of payload.now }
    ensures never { IfErr result IsQueryFault }
{
    read_query(Family::V4, &[], payload)
}
