//! The reports that a gateway sends, as messages to its relay.

ghost use Rattle.std.specs.Prelude.{◌≡◌, ◌≤◌, ◌++◌, length, map, Bool, All, IfOk, OnOk};
ghost use Rattle.group_records.specs.Written.{IsOfFamily, report_length};
ghost use Rattle.socket_merge.specs.{FullReport.{family_by}, Refusal.{family_of}, Sockets.{ForHistory}};
ghost use Rattle.gateway_machine.specs.{Reports.{full_report, report_datagram, teardown, update}, Sends.{datagram_of}, Settings.{HasSourceOfFamily}, State.{IsAtMoment}};

use crate::exchange::{Exchange, LastQuery};
use crate::settings::GatewaySettings;
use crate::short_sends::ShortSends;
use crate::timing::farewell_ms;
use amt_messages::Message;
use amt_values::{Bytes, Ip};
use group_records::REPORT_LIMIT;
use igmp_records::write_report4;
use inner_datagrams::{write_inner4, write_inner6};
use mld_records::write_report6;
use socket_merge::Sockets;
use source_filter::Records;
use std::alloc::{AllocError, Global};

// 224.0.0.22 (RFC 3376, section 4.2.14).
const IGMP_ROUTERS: u32 = 0xe000_0016;

// ff02::16 (RFC 3810, section 5.2.14).
const MLD_ROUTERS: u128 = 0xff02_0000_0000_0000_0000_0000_0000_0016;

// The datagram that carries a report of these records, from an address of their family.
fn report_datagram(alloc: Global, source: &Ip, records: &Records) -> Result<Bytes, AllocError>
    requires family { All (IsOfFamily (family_of source.now)) records.now }
    requires most { report_length (family_of source.now) records.now ≤ REPORT_LIMIT }
    ensures written { IfOk result (λ bytes. bytes ≡ report_datagram source.now records.now) }
    ensures short { IfOk result (λ bytes. length bytes ≤ 65000) }
{
    match source {
        Ip::V4(source) => {
            let report = write_report4(alloc, records)?;
            write_inner4(alloc, *source, IGMP_ROUTERS, report.as_slice())
        }
        Ip::V6(source) => {
            let report = write_report6(alloc, *source, MLD_ROUTERS, records)?;
            write_inner6(alloc, *source, MLD_ROUTERS, report.as_slice())
        }
    }
}

/// Puts the report of these records at the end, if there are any.
pub fn push_update(
    sends: &mut ShortSends,
    alloc: Global,
    settings: &GatewaySettings,
    exchange: &Exchange,
    records: &Records,
) -> Result<(), AllocError>
    requires source { HasSourceOfFamily settings.now }
    requires family { All (IsOfFamily (family_by settings.now.v6)) records.now }
    requires most { report_length (family_by settings.now.v6) records.now ≤ REPORT_LIMIT }
    ensures { (full : Bool) → OnOk result (sends.new.datagrams
        ≡ sends.old.datagrams ++ map datagram_of (update settings.now exchange.now full records.now)) }
{
    if records.len() == 0 {
        return Ok(());
    }
    // The law queries_are_kept excludes that there is none.
    let Some(query) = exchange.query else {
        return Ok(());
    };
    let inner = report_datagram(alloc, &settings.source, records)?;
    let message = Message::Update {
        mac: query.mac,
        nonce: query.nonce,
        inner,
    };
    sends.push(alloc, exchange.relay, &message)
}

/// Puts the report of all that is wanted at the end.
pub fn push_full_report(
    sends: &mut ShortSends,
    alloc: Global,
    settings: &GatewaySettings,
    exchange: &Exchange,
    sockets: &Sockets,
) -> Result<(), AllocError>
    requires { HasSourceOfFamily settings.now }
    ensures { IsAtMoment exchange.now sockets.now → ForHistory sockets.now (λ history. OnOk result
        (sends.new.datagrams
        ≡ sends.old.datagrams ++ map datagram_of (full_report settings.now exchange.now history))) }
{
    let keep_ms = farewell_ms(exchange.query);
    let records = sockets.full_report(alloc, settings.v6, &exchange.moment, keep_ms)?;
    push_update(sends, alloc, settings, exchange, &records)
}

/// Puts the Teardown at the end of the endpoint that the relay saw at the last query, if it sees another
/// one at this.
pub fn push_teardown(
    sends: &mut ShortSends,
    alloc: Global,
    exchange: &Exchange,
    query: &LastQuery,
) -> Result<(), AllocError>
    ensures { OnOk result (sends.new.datagrams
        ≡ sends.old.datagrams ++ map datagram_of (teardown exchange.now.query query.now.seen exchange.now)) }
{
    let Some(last) = exchange.query else {
        return Ok(());
    };
    let (Some(before), Some(seen)) = (last.seen, query.seen) else {
        return Ok(());
    };
    if before == seen {
        return Ok(());
    }
    let message = Message::Teardown {
        mac: last.mac,
        nonce: last.nonce,
        gateway: before,
    };
    sends.push(alloc, exchange.relay, &message)
}
