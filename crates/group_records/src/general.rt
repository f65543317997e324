//! A General Query is written here.

ghost use Rattle.std.specs.Prelude.{◌≡◌, ◌≤◌, ◌%◌, ◌∷◌, ◌++◌, [], length, IfOk};
ghost use Rattle.byteorder.specs.Endian.{big_bytes};
ghost use Rattle.group_records.specs.{declared.family.Family.TheVariants.{V4, V6}, Family.{address_in}, Query.{IsGeneralQuery, greatest_code, least_query_length, query_type, query_with_sum, written_query}};

use crate::family::Family;
use crate::query::query_type;
use crate::writing::{append_address, fill_sum};
use amt_values::{Bytes, Ip};
use source_filter::QueryFields;
use std::alloc::{AllocError, Global};

// The group of a General Query, which stands for every group.
fn no_group(family: Family) -> Ip
    ensures { result ≡ address_in family 0 }
{
    match family {
        Family::V4 => Ip::V4(0),
        Family::V6 => Ip::V6(0),
    }
}

// The octets of IGMP before the group, with a zero in place of the checksum.
fn before_group4(max_code: u8) -> [u8; 4]
    ensures { result ≡ query_type V4 ∷ max_code ∷ 0 ∷ 0 ∷ [] }
{
    [query_type(Family::V4), max_code, 0, 0]
}

// Those of MLD.
fn before_group6(max_code: u16) -> [u8; 8]
    ensures { result ≡ query_type V6 ∷ 0 ∷ 0 ∷ 0 ∷ big_bytes 2 max_code ++ 0 ∷ 0 ∷ [] }
{
    let [high, low] = max_code.to_be_bytes();
    [query_type(Family::V6), 0, 0, 0, high, low, 0, 0]
}

// The query with a zero in place of its checksum.
fn unsummed_query(
    alloc: Global,
    family: Family,
    fields: &QueryFields,
) -> Result<Vec<u8>, AllocError>
    requires { fields.now.max_code ≤ greatest_code family }
    ensures { IfOk result (λ octets. octets.items ≡ query_with_sum 0 family fields.now) }
{
    let mut octets = Vec::new(alloc);
    match family {
        Family::V4 => octets.extend_from_slice(&before_group4(fields.max_code as u8))?,
        Family::V6 => octets.extend_from_slice(&before_group6(fields.max_code))?,
    }
    append_address(no_group(family), &mut octets)?;
    octets.extend_from_slice(&[fields.robustness, fields.interval_code, 0, 0])?;
    Ok(octets)
}

/// Writes a General Query: every group, no suppression and no sources (RFC 3376, section 4.1; RFC
/// 3810, section 5.1).
///
/// The pseudo-header is summed before the query: it is empty in IGMP, and in MLD the 40 octets of
/// RFC 8200, section 8.1. The code of the response time has 8 bits in IGMP, and 16 in MLD.
#[tactic(auto, unfolding(crate::specs::Query::written_query))]
pub fn write_query(
    alloc: Global,
    family: Family,
    pseudo_header: &[u8],
    fields: &QueryFields,
) -> Result<Bytes, AllocError>
    requires pseudo_header_even { length pseudo_header.now % 2 ≡ 0 }
    requires pseudo_header_most { length pseudo_header.now ≤ 65535 }
    requires code { fields.now.max_code ≤ greatest_code family }
    requires robustness { fields.now.robustness ≤ 7 }

    ensures written { IfOk result (λ bytes.
        bytes ≡ written_query family pseudo_header.now fields.now) }
    ensures length { IfOk result (λ bytes. length bytes ≡ least_query_length family) }
    ensures read_back { IfOk result (IsGeneralQuery family pseudo_header.now fields.now) }
{
    let mut octets = unsummed_query(alloc, family, fields)?;
    fill_sum(pseudo_header, &mut octets);
    Ok(Bytes::from(octets))
}
