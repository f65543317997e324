//! A membership report is read here.

ghost use Rattle.std.specs.Prelude.{◌≡◌, ◌≤◌, ◌%◌, [], ◌∷◌, List, length, IfOk, Ok, Err, MatchResult, None, Some, true};
ghost use Rattle.amt_values.specs.{Answer.{Tells}, Conditions.{first_holding}};
ghost use Rattle.source_filter.specs.{Record.{item_count}, declared.record.Record.{Record as RecordValue}, declared.fault.{ReadFault.TheVariants.{Memory}, ReportFault.{ReportFault as ReportFaultValue}}};
ghost use Rattle.group_records.specs.{Family.{group_end}, Report.{IsReport, older_record}, Reading.{AsksMemory, GivesRecords, asks_memory, report_fault_in, first_report_fault, missing_group, records_reading, report_head_faults, report_of, unknown_type, wrong_sum}};

use crate::family::{Family, first_address, group_end, group_offset, older_kind, report_type};
use crate::record::{after_record, append_record, record_fault};
use amt_values::INPUT_LIMIT;
use byteorder::{BigEndian, ByteOrder};
use inner_datagrams::internet_sum_around;
use source_filter::{Ips, ReadFault, Record, RecordKind, Records, ReportFault};
use std::alloc::Global;

// The fault of a report's type, and of the group of an older message.
fn type_fault(family: Family, payload: &[u8]) -> Option<ReportFault>
    requires least { 8 ≤ length payload.now }
    requires most { length payload.now ≤ INPUT_LIMIT }
    ensures { result ≡ first_holding (unknown_type family payload.now ∷ missing_group family payload.now ∷ []) }
{
    let kind = payload[0];
    if older_kind(family, kind).is_none() {
        return (kind != report_type(family)).then_some(ReportFault::Kind(kind));
    }
    let need = group_end(family);
    (payload.len() < need).then_some(ReportFault::Short(need as u32, payload.len() as u32))
}

// The checksum that is wanted is taken where the sum of all is wrong, and only there: 0000 and ffff
// are one number to the sum, so a field may be right that isn't the one wanted.
pub fn sum_fault(pseudo_header: &[u8], payload: &[u8]) -> Option<ReportFault>
    requires pseudo_header_even { length pseudo_header.now % 2 ≡ 0 }
    requires pseudo_header_most { length pseudo_header.now ≤ 65535 }
    requires payload_least { 8 ≤ length payload.now }
    requires payload_most { length payload.now ≤ INPUT_LIMIT }
    ensures { result ≡ first_holding (wrong_sum pseudo_header.now payload.now ∷ []) }
{
    if internet_sum_around(pseudo_header, &[], payload) == 0 {
        return None;
    }
    let (prefix, field_and_suffix) = payload.split_at(2);
    let (_, suffix) = field_and_suffix.split_at(2);
    Some(ReportFault::Sum(
        internet_sum_around(pseudo_header, prefix, suffix),
        BigEndian::read_u16(field_and_suffix),
    ))
}

// The first fault of what comes before the records.
fn report_head_fault(family: Family, pseudo_header: &[u8], payload: &[u8]) -> Option<ReportFault>
    requires pseudo_header_even { length pseudo_header.now % 2 ≡ 0 }
    requires pseudo_header_most { length pseudo_header.now ≤ 65535 }
    requires payload_most { length payload.now ≤ INPUT_LIMIT }
    ensures { result ≡ first_holding (report_head_faults family pseudo_header.now payload.now) }
{
    if payload.len() < 8 {
        return Some(ReportFault::Short(8, payload.len() as u32));
    }
    if let Some(fault) = type_fault(family, payload) {
        return Some(fault);
    }
    sum_fault(pseudo_header, payload)
}

// The records of known type among so many, up to the first fault.
fn read_records(
    alloc: Global,
    family: Family,
    count: u16,
    octets: &[u8],
) -> Result<Records, ReadFault>
    ensures value { GivesRecords result (records_reading family count octets.now) }
    ensures memory { result ≡ Err Memory → asks_memory family count octets.now ≡ true }
{
    let mut records = Records::new(alloc);
    let mut left = octets;
    for index in 0..count {
        if let Some(fault) = record_fault(family, u32::from(index), left) {
            return Err(ReadFault::Report(fault));
        }
        let Ok(()) = append_record(alloc, family, left, &mut records) else {
            return Err(ReadFault::Memory);
        };
        left = after_record(family, left);
    }
    Ok(records)
}

// The one record that an older message stands for.
fn read_older(
    alloc: Global,
    family: Family,
    kind: RecordKind,
    payload: &[u8],
) -> Result<Records, ReadFault>
    requires { group_end family ≤ length payload.now }
    ensures value { GivesRecords result (Ok (older_record family kind payload.now ∷ [])) }
{
    let (_, group) = payload.split_at(group_offset(family));
    let mut records = Records::new(alloc);
    let Ok(()) = records.push(Record {
        kind,
        group: first_address(family, group),
        sources: Ips::new(alloc),
    }) else {
        return Err(ReadFault::Memory);
    };
    Ok(records)
}

// The records of a payload, by its first fault.
#[tactic(auto, unfolding(crate::specs::Reading::first_report_fault, crate::specs::Reading::records_reading, crate::specs::Reading::report_of))]
fn read(
    alloc: Global,
    family: Family,
    pseudo_header: &[u8],
    payload: &[u8],
) -> Result<Records, ReadFault>
    requires pseudo_header_even { length pseudo_header.now % 2 ≡ 0 }
    requires pseudo_header_most { length pseudo_header.now ≤ 65535 }
    requires payload_most { length payload.now ≤ INPUT_LIMIT }
    ensures value { GivesRecords result (report_of family pseudo_header.now payload.now) }
    ensures memory { result ≡ Err Memory → AsksMemory family pseudo_header.now payload.now }
{
    if let Some(fault) = report_head_fault(family, pseudo_header, payload) {
        return Err(ReadFault::Report(fault));
    }
    if let Some(kind) = older_kind(family, payload[0]) {
        return read_older(alloc, family, kind, payload);
    }
    let (_, count_and_records) = payload.split_at(6);
    let (_, records) = payload.split_at(8);
    read_records(
        alloc,
        family,
        BigEndian::read_u16(count_and_records),
        records,
    )
}

/// Reads a whole payload of at most 16 MiB as one membership report. One of IGMPv1, IGMPv2 or MLDv1 is one record
/// without sources on its group: IS_EX of a report, TO_IN of a leave or done (RFC 3376, section 7.3.2; RFC 3810,
/// section 8.3.2).
///
/// The pseudo-header is summed before the payload: it is empty in IGMP, and in MLD the 40 octets of
/// RFC 8200, section 8.1. The faults are tried in the order of `ReportFault`. Reserved octets, and
/// what follows the last record or an older message's group, may be any. A record of unknown type is
/// skipped (RFC 3376, section 4.2.12). Memory is asked for the records that are kept; running out may
/// come before a later record's fault.
pub fn read_report(
    alloc: Global,
    family: Family,
    pseudo_header: &[u8],
    payload: &[u8],
) -> Result<Records, ReadFault>
    requires pseudo_header_even { length pseudo_header.now % 2 ≡ 0 }
    requires pseudo_header_most { length pseudo_header.now ≤ 65535 }
    requires payload_most { length payload.now ≤ INPUT_LIMIT }

    ensures found { IfOk result (λ records. IsReport family pseudo_header.now records payload.now) }
    ensures only { (records : List RecordValue)
        → IsReport family pseudo_header.now records payload.now
        → GivesRecords result (Ok records) }

    ensures refused { MatchResult result
        (λ _. first_report_fault family pseudo_header.now payload.now ≡ None)
        (λ fault. Tells (first_report_fault family pseudo_header.now payload.now)
        (report_fault_in fault)) }
    ensures fault { (fault : ReportFaultValue)
        → first_report_fault family pseudo_header.now payload.now ≡ Some fault
        → GivesRecords result (Err fault) }
    ensures memory { result ≡ Err Memory → AsksMemory family pseudo_header.now payload.now }
    ensures value { GivesRecords result (report_of family pseudo_header.now payload.now) }
    ensures few { IfOk result (λ records. item_count records ≤ length payload.now) }
{
    read(alloc, family, pseudo_header, payload)
}
