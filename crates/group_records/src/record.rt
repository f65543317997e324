//! One group record is read here.

ghost use Rattle.std.specs.Prelude.{◌≡◌, ◌≤◌, ◌*◌, ◌++◌, drop, length, map, slice_index, is_some, true, IfOk, OnOk, OnErr};
ghost use Rattle.amt_values.specs.Conditions.{first_holding};
ghost use Rattle.group_records.specs.{Family.{address_in, kind_of, width}, CarriedRecord.{known_record}, Reading.{carried_record_at, head_length, numbers_at, record_faults, record_length, source_count}};

use crate::family::{Family, first_address, width};
use byteorder::{BigEndian, ByteOrder};
use source_filter::{Ips, Record, RecordKind, Records, ReportFault};
use std::alloc::{AllocError, Global};

// What a record of this type is about.
fn kind_of(kind: u8) -> Option<RecordKind>
    ensures { result ≡ kind_of kind }
{
    match kind {
        1 => Some(RecordKind::IsIn),
        2 => Some(RecordKind::IsEx),
        3 => Some(RecordKind::ToIn),
        4 => Some(RecordKind::ToEx),
        5 => Some(RecordKind::Allow),
        6 => Some(RecordKind::Block),
        _ => None,
    }
}

// The number of sources that is stated after two octets, as in a record's head and after a
// query's group.
pub fn source_count(octets: &[u8]) -> u16
    requires { 4 ≤ length octets.now }
    ensures { result ≡ source_count octets.now }
{
    let (_, field) = octets.split_at(2);
    BigEndian::read_u16(field)
}

// The octets that the record at the head takes.
pub fn record_length(family: Family, octets: &[u8]) -> usize
    requires { head_length family ≤ length octets.now }
    ensures { result ≡ record_length family octets.now }
{
    let sources = usize::from(source_count(octets)) * width(family);
    let auxiliary = usize::from(octets[1]) * 4;
    4 + width(family) + sources + auxiliary
}

// What is left after the record at the head.
pub fn after_record(family: Family, octets: &[u8]) -> &[u8]
    requires head { head_length family ≤ length octets.now }
    requires whole { record_length family octets.now ≤ length octets.now }
    ensures { result.now ≡ drop (record_length family octets.now) octets.now }
{
    let (_, rest) = octets.split_at(record_length(family, octets));
    rest
}

// The first fault of the record at the head, which has this number.
pub fn record_fault(family: Family, index: u32, octets: &[u8]) -> Option<ReportFault>
    ensures { result ≡ first_holding (record_faults family index octets.now) }
{
    if octets.len() < 4 + width(family) {
        return Some(ReportFault::RecordShort(index));
    }
    if octets.len() < record_length(family, octets) {
        return Some(ReportFault::SourceShort(index));
    }
    None
}

// So many addresses, one after another.
fn read_sources(alloc: Global, family: Family, count: u16, octets: &[u8]) -> Result<Ips, AllocError>
    requires { count * width family ≤ length octets.now }
    ensures { IfOk result (λ sources. sources
        ≡ map (address_in family) (numbers_at (width family) count octets.now)) }
{
    let mut sources = Ips::new(alloc);
    let mut left = octets;
    for _ in 0..count {
        sources.push(first_address(family, left))?;
        let (_, rest) = left.split_at(width(family));
        left = rest;
    }
    Ok(sources)
}

// Keeps the record at the head, unless it has a type that isn't known: then its sources aren't
// copied either.
pub fn append_record(
    alloc: Global,
    family: Family,
    octets: &[u8],
    records: &mut Records,
) -> Result<(), AllocError>
    requires head { head_length family ≤ length octets.now }
    requires whole { record_length family octets.now ≤ length octets.now }
    ensures asks { OnErr result (is_some (kind_of (slice_index octets.now 0)) ≡ true) }
    ensures kept { OnOk result (records.new
        ≡ records.old ++ known_record family (carried_record_at family octets.now)) }
{
    let Some(kind) = kind_of(octets[0]) else {
        return Ok(());
    };
    let (_, group_and_sources) = octets.split_at(4);
    let (_, sources) = group_and_sources.split_at(width(family));
    records.push(Record {
        kind,
        group: first_address(family, group_and_sources),
        sources: read_sources(alloc, family, source_count(octets), sources)?,
    })
}
