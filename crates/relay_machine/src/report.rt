//! The report in an Update: reading it, and the records of it that a relay keeps. It knows no table.
ghost use Rattle.std.specs.Prelude.{◌≡◌, ◌≤◌, length, IfOk};
ghost use Rattle.source_filter.specs.Record.{item_count};
ghost use Rattle.group_records.specs.Reading.{GivesRecords};
ghost use Rattle.relay_machine.specs.{Reading.{Gives}, Updates.{carried_report, forwardable_records, report_in}};

use crate::outcome::Unlawful;
use amt_values::{Ip, forwardable, wire16};
use igmp_records::read_report4;
use inner_datagrams::{Inner, read_inner};
use mld_records::read_report6;
use source_filter::{ReadFault, Records};
use std::alloc::Global;

/// Why no records came of an Update.
#[derive(Clone, Copy, Debug, PartialEq, Eq)]
pub enum Unread {
    Unlawful(Unlawful),
    Memory,
}

// The records of the membership report that a datagram carries: of MLD over IPv6, whose checksum
// counts the datagram's addresses, and else of IGMP.
fn read_carried(alloc: Global, place: &Inner, payload: &[u8]) -> Result<Records, ReadFault>
    requires { length payload.now ≤ 65535 }
    ensures value { GivesRecords result
        (carried_report place.now.source place.now.destination payload.now) }
    ensures few { IfOk result (λ records. item_count records ≤ 65535) }
{
    match place.source {
        Ip::V4(_) => read_report4(alloc, payload),
        Ip::V6(source) => read_report6(alloc, source, wire16(&place.destination), payload),
    }
}

/// The records of the membership report that the inner octets of an Update carry.
pub fn read_report(alloc: Global, inner: &[u8]) -> Result<Records, Unread>
    requires { length inner.now ≤ 65535 }
    ensures value { Gives result (report_in inner.now) }
    ensures few { IfOk result (λ records. item_count records ≤ 65535) }
{
    let place = match read_inner(inner) {
        Ok(place) => place,
        Err(fault) => return Err(Unread::Unlawful(Unlawful::Inner(fault))),
    };
    let (_, payload) = inner.split_at(place.start);
    match read_carried(alloc, &place, payload) {
        Ok(records) => Ok(records),
        Err(ReadFault::Report(fault)) => Err(Unread::Unlawful(Unlawful::Report(fault))),
        Err(ReadFault::Memory) => Err(Unread::Memory),
    }
}

// The records on groups that are forwarded, in their order. No packet of the others is copied, so
// what a host reports of them would take room in the table for nothing. It takes no memory: a report may have
// thousands of records.
pub fn forwardable_records(records: Records) -> Records
    ensures { result ≡ forwardable_records records }
{
    let mut kept = records.into_vec();
    kept.retain(|group_record| forwardable(&group_record.group));
    Records::from(kept)
}
