//! Reports of MLD, both ways.

ghost use Rattle.std.specs.Prelude.{◌≡◌, ◌≤◌, List, length, IfOk, Ok, Err, MatchResult, None, Some};
ghost use Rattle.source_filter.specs.{Record.{item_count}, declared.record.Record.{Record as RecordValue}, declared.fault.{ReadFault.TheVariants.{Memory}, ReportFault.{ReportFault as ReportFaultValue}}};
ghost use Rattle.amt_values.specs.Answer.{Tells};
ghost use Rattle.group_records.specs.Reading.{GivesRecords, report_fault_in};
ghost use Rattle.mld_records.specs.Report.{AreRecords6, AsksMemory6, IsReport6, first_report_fault6, report6_of, report_length6, written_report6};

use crate::header::pseudo_header;
use amt_values::{Bytes, INPUT_LIMIT};
use group_records::{Family, REPORT_LIMIT, read_report, report_length, write_report};
use source_filter::{ReadFault, Records};
use std::alloc::{AllocError, Global};

/// Reads a whole payload of at most 16 MiB, of a datagram between these two addresses, as one membership
/// report (RFC 3810, section 5.2).
///
/// A report of MLDv1 is IS_EX of nothing on its group, a done TO_IN of nothing (section 8.3.2). The addresses
/// and the payload's length are summed with it (RFC 8200, section 8.1). The faults are tried in the order of
/// `ReportFault`. Memory is asked for the records that are kept; running out may come before a later
/// record's fault.
pub fn read_report6(
    alloc: Global,
    source: u128,
    destination: u128,
    payload: &[u8],
) -> Result<Records, ReadFault>
    requires { length payload.now ≤ INPUT_LIMIT }

    ensures found { IfOk result (λ records. IsReport6 source destination records payload.now) }
    ensures only { (records : List RecordValue)
        → IsReport6 source destination records payload.now
        → GivesRecords result (Ok records) }

    ensures refused { MatchResult result
        (λ _. first_report_fault6 source destination payload.now ≡ None)
        (λ fault. Tells (first_report_fault6 source destination payload.now)
        (report_fault_in fault)) }
    ensures fault { (fault : ReportFaultValue)
        → first_report_fault6 source destination payload.now ≡ Some fault
        → GivesRecords result (Err fault) }
    ensures memory { result ≡ Err Memory → AsksMemory6 source destination payload.now }
    ensures value { GivesRecords result (report6_of source destination payload.now) }
    ensures few { IfOk result (λ records. item_count records ≤ length payload.now) }
{
    let header = pseudo_header(source, destination, payload.len() as u32);
    read_report(alloc, Family::V6, &header, payload)
}

/// Writes one MLDv2 membership report of at most 1,400 octets, with these records in their order and
/// without auxiliary data, for a datagram between these two addresses (RFC 3810, section 5.2).
pub fn write_report6(
    alloc: Global,
    source: u128,
    destination: u128,
    records: &Records,
) -> Result<Bytes, AllocError>
    requires family { AreRecords6 records.now }
    requires most { report_length6 records.now ≤ REPORT_LIMIT }

    ensures written { IfOk result (λ bytes.
        bytes ≡ written_report6 source destination records.now) }
    ensures length { IfOk result (λ bytes. length bytes ≡ report_length6 records.now) }
    ensures read_back { IfOk result (IsReport6 source destination records.now) }
{
    let message_length = report_length(Family::V6, records);
    let header = pseudo_header(source, destination, message_length as u32);
    write_report(alloc, Family::V6, &header, records)
}
