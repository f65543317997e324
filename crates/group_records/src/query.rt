//! A query is read here.

ghost use Rattle.std.specs.Prelude.{◌≡◌, ◌≤◌, ◌%◌, [], ◌∷◌, length, IfOk, IfErr, Ok, Err, MatchResult, None, Some};
ghost use Rattle.source_filter.specs.declared.{query.QueryRead.{QueryRead as QueryReadValue}, fault.ReportFault.{ReportFault as ReportFaultValue}};
ghost use Rattle.amt_values.specs.Conditions.{first_holding};
ghost use Rattle.group_records.specs.Query.{IsQuery, IsQueryFault, first_query_fault, max_code_of, query_values, query_of, least_query_length, stated_query_length, query_type, missing_sources, robustness_in, suppresses};

use crate::family::{Family, first_address, group_end, group_offset, width};
use crate::record::source_count;
use crate::report::sum_fault;
use amt_values::INPUT_LIMIT;
use byteorder::{BigEndian, ByteOrder};
use source_filter::{QueryFields, QueryRead, ReportFault};

// The type of a membership query.
pub fn query_type(family: Family) -> u8
    ensures { result ≡ query_type family }
{
    match family {
        Family::V4 => 0x11,
        Family::V6 => 0x82,
    }
}

// The octets of a query without sources.
fn least_query_length(family: Family) -> usize
    ensures value { result ≡ least_query_length family }
    ensures most { result ≤ 28 }
{
    group_end(family) + 4
}

// The code of the time within which a listener answers.
fn max_code_at(family: Family, payload: &[u8]) -> u16
    requires { least_query_length family ≤ length payload.now }
    ensures { result ≡ max_code_of family payload.now }
{
    match family {
        Family::V4 => u16::from(payload[1]),
        Family::V6 => {
            let (_, field) = payload.split_at(4);
            BigEndian::read_u16(field)
        }
    }
}

// The robustness variable in that octet (RFC 3376, section 4.1.6).
fn robustness_in(flags: u8) -> u8
    ensures { result ≡ robustness_in flags }
{
    flags & 7
}

// Whether the flag S is set in the octet after the group (RFC 3376, section 4.1.5).
fn suppresses(flags: u8) -> bool
    ensures { result ≡ suppresses flags }
{
    flags >> 3 & 1 == 1
}

// The values of the query that stands in the octets.
fn query_values(family: Family, payload: &[u8]) -> QueryRead
    requires { least_query_length family ≤ length payload.now }
    ensures { result ≡ query_values family payload.now }
{
    let (_, group) = payload.split_at(group_offset(family));
    let (_, after_group) = payload.split_at(group_end(family));
    let flags = after_group[0];
    QueryRead {
        fields: QueryFields {
            max_code: max_code_at(family, payload),
            robustness: robustness_in(flags),
            interval_code: after_group[1],
        },
        suppress: suppresses(flags),
        group: first_address(family, group),
        sources: source_count(after_group),
    }
}

// The octets that the query takes with its sources.
fn stated_query_length(family: Family, payload: &[u8]) -> usize
    requires { least_query_length family ≤ length payload.now }
    ensures { result ≡ stated_query_length family payload.now }
{
    let (_, after_group) = payload.split_at(group_end(family));
    least_query_length(family) + usize::from(source_count(after_group)) * width(family)
}

// The fault that the sources aren't all there.
fn sources_fault(family: Family, payload: &[u8]) -> Option<ReportFault>
    requires { least_query_length family ≤ length payload.now }
    ensures { result ≡ first_holding (missing_sources family payload.now ∷ []) }
{
    if payload.len() < stated_query_length(family, payload) {
        return Some(ReportFault::SourceShort(0));
    }
    None
}

// The first fault of a query.
#[tactic(auto, unfolding(crate::specs::Query::first_query_fault))]
fn query_fault(family: Family, pseudo_header: &[u8], payload: &[u8]) -> Option<ReportFault>
    requires pseudo_header_even { length pseudo_header.now % 2 ≡ 0 }
    requires pseudo_header_most { length pseudo_header.now ≤ 65535 }
    requires payload_most { length payload.now ≤ INPUT_LIMIT }
    ensures { result ≡ first_query_fault family pseudo_header.now payload.now }
{
    let least = least_query_length(family);
    if payload.len() < least {
        return Some(ReportFault::Short(least as u32, payload.len() as u32));
    }
    let kind = payload[0];
    if kind != query_type(family) {
        return Some(ReportFault::Kind(kind));
    }
    if let Some(fault) = sum_fault(pseudo_header, payload) {
        return Some(fault);
    }
    sources_fault(family, payload)
}

/// Reads a whole payload of at most 16 MiB as one membership query.
///
/// The pseudo-header is summed before the payload: it is empty in IGMP, and in MLD the 40 octets of
/// RFC 8200, section 8.1. The faults are tried in the order of `ReportFault`; a query of an older
/// version of the protocol has too few octets. Reserved octets and bits, and what follows the
/// sources, may be any.
#[tactic(auto, unfolding(crate::specs::Query::first_query_fault, crate::specs::Query::query_of))]
pub fn read_query(
    family: Family,
    pseudo_header: &[u8],
    payload: &[u8],
) -> Result<QueryRead, ReportFault>
    requires pseudo_header_even { length pseudo_header.now % 2 ≡ 0 }
    requires pseudo_header_most { length pseudo_header.now ≤ 65535 }
    requires payload_most { length payload.now ≤ INPUT_LIMIT }

    ensures found { IfOk result (λ query. IsQuery family pseudo_header.now query payload.now) }
    ensures only { (query : QueryReadValue)
        → IsQuery family pseudo_header.now query payload.now → result ≡ Ok query }

    ensures refused { MatchResult result
        (λ _. first_query_fault family pseudo_header.now payload.now ≡ None)
        (λ fault. first_query_fault family pseudo_header.now payload.now ≡ Some fault) }
    ensures fault { (fault : ReportFaultValue)
        → first_query_fault family pseudo_header.now payload.now ≡ Some fault
        → result ≡ Err fault }
    ensures value { result ≡ query_of family pseudo_header.now payload.now }
    ensures never { IfErr result IsQueryFault }
{
    match query_fault(family, pseudo_header, payload) {
        Some(fault) => Err(fault),
        None => Ok(query_values(family, payload)),
    }
}
