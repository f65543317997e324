//! Reports of IGMP, both ways.

ghost use Rattle.std.specs.Prelude.{◌≡◌, ◌≤◌, List, length, IfOk, Ok, Err, MatchResult, None, Some};
ghost use Rattle.source_filter.specs.{Record.{item_count}, declared.record.Record.{Record as RecordValue}, declared.fault.{ReadFault.TheVariants.{Memory}, ReportFault.{ReportFault as ReportFaultValue}}};
ghost use Rattle.amt_values.specs.Answer.{Tells};
ghost use Rattle.group_records.specs.Reading.{GivesRecords, report_fault_in};
ghost use Rattle.igmp_records.specs.Report.{AreRecords4, AsksMemory4, IsReport4, first_report_fault4, report4_of, report_length4, written_report4};

use amt_values::{Bytes, INPUT_LIMIT};
use group_records::{Family, REPORT_LIMIT, read_report, write_report};
use source_filter::{ReadFault, Records};
use std::alloc::{AllocError, Global};

/// Reads a whole payload of at most 16 MiB as one membership report (RFC 3376, section 4.2).
///
/// A report of IGMPv1 or IGMPv2 is IS_EX of nothing on its group, a leave TO_IN of nothing (section 7.3.2). The
/// faults are tried in the order of `ReportFault`. Memory is asked for the records that are kept; running
/// out may come before a later record's fault.
pub fn read_report4(alloc: Global, payload: &[u8]) -> Result<Records, ReadFault>
    requires { length payload.now ≤ INPUT_LIMIT }

    ensures found { IfOk result (λ records. IsReport4 records payload.now) }
    ensures only { (records : List RecordValue) → IsReport4 records payload.now
        → GivesRecords result (Ok records) }

    ensures refused { MatchResult result
        (λ _. first_report_fault4 payload.now ≡ None)
        (λ fault. Tells (first_report_fault4 payload.now) (report_fault_in fault)) }
    ensures fault { (fault : ReportFaultValue) → first_report_fault4 payload.now ≡ Some fault
        → GivesRecords result (Err fault) }
    ensures memory { result ≡ Err Memory → AsksMemory4 payload.now }
    ensures value { GivesRecords result (report4_of payload.now) }
    ensures few { IfOk result (λ records. item_count records ≤ length payload.now) }
{
    read_report(alloc, Family::V4, &[], payload)
}

/// Writes one IGMPv3 membership report of at most 1,400 octets, with these records in their order
/// and without auxiliary data (RFC 3376, section 4.2).
pub fn write_report4(alloc: Global, records: &Records) -> Result<Bytes, AllocError>
    requires family { AreRecords4 records.now }
    requires most { report_length4 records.now ≤ REPORT_LIMIT }

    ensures written { IfOk result (λ bytes. bytes ≡ written_report4 records.now) }
    ensures length { IfOk result (λ bytes. length bytes ≡ report_length4 records.now) }
    ensures read_back { IfOk result (IsReport4 records.now) }
{
    write_report(alloc, Family::V4, &[], records)
}
