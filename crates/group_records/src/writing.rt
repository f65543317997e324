//! A membership report is written here.

ghost use Rattle.std.specs.{Prelude.{◌≡◌, ◌≤◌, ◌<◌, ◌%◌, ◌∷◌, ◌++◌, length, take, drop, All, IfOk, OnOk}, List.{flat_map}};
ghost use Rattle.byteorder.specs.Endian.{big_bytes};
ghost use Rattle.amt_values.specs.Octets.{AreOctets};
ghost use Rattle.inner_datagrams.specs.Checksum.{internet_sum_of};
ghost use Rattle.group_records.specs.{Family.{report_type}, Report.{IsReport}, Written.{address_octets, kind_number, report_length, report_with_sum, written_record, written_report, FitsOctets, HasFittingAddresses, IsOfFamily}};
ghost use Rattle.source_filter.specs.Record.{item_count};

use crate::family::{Family, report_type, width};
use amt_values::{Bytes, INPUT_LIMIT, Ip};
use byteorder::{BigEndian, ByteOrder};
use inner_datagrams::internet_sum_around;
use source_filter::{Record, RecordKind, Records};
use std::alloc::{AllocError, Global};

/// The most octets of a report that is written. Further records go into further reports (RFC 3376,
/// section 4.2.16).
pub const REPORT_LIMIT: usize = 1_400;

/// The most records and sources together of which the length of a report is computed.
pub const ITEM_LIMIT: usize = 16_777_216;

// The type of a record.
fn kind_number(kind: RecordKind) -> u8
    ensures { result ≡ kind_number kind }
{
    match kind {
        RecordKind::IsIn => 1,
        RecordKind::IsEx => 2,
        RecordKind::ToIn => 3,
        RecordKind::ToEx => 4,
        RecordKind::Allow => 5,
        RecordKind::Block => 6,
    }
}

// Puts the octets of an address at the end.
pub fn append_address(address: Ip, octets: &mut Vec<u8>) -> Result<(), AllocError>
    ensures fits { FitsOctets address }
    ensures ok { OnOk result (octets.new.items ≡ octets.old.items ++ address_octets address) }
{
    match address {
        Ip::V4(number) => octets.extend_from_slice(&number.to_be_bytes()),
        Ip::V6(number) => octets.extend_from_slice(&number.to_be_bytes()),
    }
}

// Puts those of all sources at the end.
fn append_sources(sources: &[Ip], octets: &mut Vec<u8>) -> Result<(), AllocError>
    ensures fit { OnOk result (All FitsOctets sources.now) }
    ensures ok { OnOk result (octets.new.items
        ≡ octets.old.items ++ flat_map address_octets sources.now) }
{
    for source in sources {
        append_address(*source, octets)?;
    }
    Ok(())
}

// The octets before the group. The second one stays zero: no auxiliary data is written.
fn record_head(kind: RecordKind, count: u16) -> [u8; 4]
    ensures { result ≡ kind_number kind ∷ 0 ∷ big_bytes 2 count }
{
    let mut head = [kind_number(kind), 0, 0, 0];
    BigEndian::write_u16(&mut head[2..], count);
    head
}

// Puts those of a record at the end.
fn append_written(group_record: &Record, octets: &mut Vec<u8>) -> Result<(), AllocError>
    requires { length group_record.now.sources < 65536 }
    ensures fit { OnOk result (HasFittingAddresses group_record.now) }
    ensures ok { OnOk result (octets.new.items
        ≡ octets.old.items ++ written_record group_record.now) }
{
    let sources = group_record.sources.as_slice();
    octets.extend_from_slice(&record_head(group_record.kind, sources.len() as u16))?;
    append_address(group_record.group, octets)?;
    append_sources(sources, octets)
}

// Puts those of all records at the end.
fn append_all_written(records: &[Record], octets: &mut Vec<u8>) -> Result<(), AllocError>
    requires { All (λ group_record. length group_record.sources < 65536) records.now }
    ensures fit { OnOk result (All HasFittingAddresses records.now) }
    ensures ok { OnOk result (octets.new.items
        ≡ octets.old.items ++ flat_map written_record records.now) }
{
    for group_record in records {
        append_written(group_record, octets)?;
    }
    Ok(())
}

// The octets of the head, with a zero in place of the checksum.
fn report_head(family: Family, count: u16) -> [u8; 8]
    ensures { result ≡ report_type family ∷ 0 ∷ 0 ∷ 0 ∷ 0 ∷ 0 ∷ big_bytes 2 count }
{
    let mut head = [report_type(family), 0, 0, 0, 0, 0, 0, 0];
    BigEndian::write_u16(&mut head[6..], count);
    head
}

// The report with a zero in place of its checksum.
fn unsummed_report(alloc: Global, family: Family, records: &Records) -> Result<Vec<u8>, AllocError>
    requires { report_length family records.now ≤ REPORT_LIMIT }
    ensures fit { OnOk result (All HasFittingAddresses records.now) }
    ensures written { IfOk result (λ octets. octets.items
        ≡ report_with_sum 0 family records.now) }
{
    let mut octets = Vec::new(alloc);
    octets.extend_from_slice(&report_head(family, records.len() as u16))?;
    append_all_written(records.as_slice(), &mut octets)?;
    Ok(octets)
}

// Fills the checksum of a message in, whose place is still zero while it is taken.
pub fn fill_sum(pseudo_header: &[u8], message: &mut [u8])
    requires pseudo_header_even { length pseudo_header.now % 2 ≡ 0 }
    requires pseudo_header_most { length pseudo_header.now ≤ 65535 }
    requires least { 4 ≤ length message.old }
    requires most { length message.old ≤ INPUT_LIMIT }
    ensures octets { AreOctets message.old }
    ensures filled { message.new ≡ take 2 message.old
        ++ big_bytes 2 (internet_sum_of (pseudo_header.now ++ message.old))
        ++ drop 4 message.old }
{
    let checksum = internet_sum_around(pseudo_header, &[], message);
    BigEndian::write_u16(&mut message[2..], checksum);
}

/// The octets of the report that is written of these records.
///
/// It may be more than a report has: whoever collects records is to learn how much too long they are.
pub fn report_length(family: Family, records: &Records) -> usize
    requires { item_count records.now ≤ ITEM_LIMIT }
    ensures { result ≡ report_length family records.now }
{
    let width = width(family);
    let mut octets = 8;
    for group_record in records.as_slice() {
        octets += 4 + width + group_record.sources.len() * width;
    }
    octets
}

/// Writes one report of these records, in their order, without auxiliary data.
///
/// The pseudo-header is summed before the report: it is empty in IGMP, and in MLD the 40 octets of
/// RFC 8200, section 8.1.
#[tactic(auto, unfolding(crate::specs::Written::written_report))]
pub fn write_report(
    alloc: Global,
    family: Family,
    pseudo_header: &[u8],
    records: &Records,
) -> Result<Bytes, AllocError>
    requires pseudo_header_even { length pseudo_header.now % 2 ≡ 0 }
    requires pseudo_header_most { length pseudo_header.now ≤ 65535 }
    requires family { All (IsOfFamily family) records.now }
    requires most { report_length family records.now ≤ REPORT_LIMIT }

    ensures written { IfOk result (λ bytes.
        bytes ≡ written_report family pseudo_header.now records.now) }
    ensures length { IfOk result (λ bytes. length bytes ≡ report_length family records.now) }
    ensures read_back { IfOk result (IsReport family pseudo_header.now records.now) }
{
    let mut octets = unsummed_report(alloc, family, records)?;
    fill_sum(pseudo_header, &mut octets);
    Ok(Bytes::from(octets))
}
