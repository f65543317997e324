//! Filters, records, queries and messages that no command takes or prints. It knows public calls alone.

ghost use Rattle.std.specs.Prelude.{IfSome};
ghost use Rattle.amt_messages.specs.Messages.{IsSendable};

use amt_messages::{Message, decode, encode};
use amt_values::{Bytes, Ip};
use igmp_records::read_query4;
use source_filter::*;
use std::alloc::{AllocError, Global};

const ONE: Ip = Ip::V4(0x0101_0101);

const TWO: Ip = Ip::V4(0x0202_0202);

// 2001:db8::1.
const SITE: Ip = Ip::V6(0x2001_0db8_0000_0000_0000_0000_0000_0001);

fn merged(alloc: Global, one: &[Ip], other: &[Ip]) -> Result<Filter, AllocError> {
    let mut filters = Vec::new(alloc);
    filters.push(Filter::new(alloc, Mode::Include, one)?)?;
    filters.push(Filter::new(alloc, Mode::Include, other)?)?;
    merge(alloc, &filters)
}

fn includes(answer: Result<Filter, AllocError>, sources: &[Ip]) -> bool {
    match answer {
        Ok(filter) => filter.mode() == Mode::Include && filter.sources() == sources,
        Err(_) => false,
    }
}

#[test]
fn a_filter_lists_each_source_once_with_ipv4_first(rt: HostRuntime) {
    let listed = [SITE, TWO, ONE, SITE, TWO];
    let filter = Filter::new(rt.alloc(), Mode::Include, &listed);
    assert!(rt; includes(filter, &[ONE, TWO, SITE]));
    assert!(rt; includes(merged(rt.alloc(), &[SITE], &[ONE]), &[ONE, SITE]));
}

fn copied(alloc: Global) -> Result<Records, AllocError> {
    let mut records = Records::new(alloc);
    records.push(Record {
        kind: RecordKind::Allow,
        group: ONE,
        sources: Ips::copied(alloc, &[TWO, ONE, TWO])?,
    })?;
    copy_records(alloc, &records)
}

fn is_the_record(answer: Result<Records, AllocError>) -> bool {
    let Ok(records) = answer else {
        return false;
    };
    match records.as_slice() {
        [one] => one.sources.as_slice() == [TWO, ONE, TWO].as_slice() && one.group == ONE,
        _ => false,
    }
}

#[test]
fn a_copy_of_records_keeps_the_repeats_of_sources(rt: HostRuntime) {
    assert!(rt; is_the_record(copied(rt.alloc())));
}

// Of 198.51.100.9 at 239.1.1.2, with the flag S and all reserved bits.
const QUERY4: &[u8] = b"\x11\x0a\xda\x35\xef\x01\x01\x02\xfa\x7d\x00\x01\xc6\x33\x64\x09";

// The flag S of a query, and how many sources it has.
fn asked(query: Result<QueryRead, ReportFault>) -> Option<(bool, u16)> {
    match query {
        Ok(query) => Some((query.suppress, query.sources)),
        Err(_) => None,
    }
}

#[test]
fn a_query_has_a_flag_and_a_number_of_sources(rt: HostRuntime) {
    assert_eq!(rt; asked(read_query4(QUERY4)), Some((true, 1)));
}

// Messages that no end sends, and their one form. The inner datagram of the Query is a bare header.
const FORMS: [(&[u8], &[u8]); 3] = [
    (
        b"\x04\xfe\xa1\xa2\xa3\xa4\xa5\xa6\x0a\x0b\x0c\x0d\x45\x00\x00\x14\x00\x00\x00\x00\x00\x00\x00\x00\x00\x00\x00\x00\x00\x00\x00\x00",
        b"\x04\x02\xa1\xa2\xa3\xa4\xa5\xa6\x0a\x0b\x0c\x0d\x45\x00\x00\x14\x00\x00\x00\x00\x00\x00\x00\x00\x00\x00\x00\x00\x00\x00\x00\x00",
    ),
    (
        b"\x05\xff\xa1\xa2\xa3\xa4\xa5\xa6\x0a\x0b\x0c\x0d",
        b"\x05\x00\xa1\xa2\xa3\xa4\xa5\xa6\x0a\x0b\x0c\x0d",
    ),
    (b"\x06\x01\x46", b"\x06\x00\x46"),
];

fn message_of(alloc: Global, octets: &[u8]) -> Option<Message>
    ensures { IfSome result (λ message. IsSendable message) }
{
    if octets.len() > 66 {
        return None;
    }
    decode(alloc, octets).ok()
}

fn written_again(alloc: Global, octets: &[u8]) -> Option<Bytes> {
    match message_of(alloc, octets) {
        Some(message) => encode(alloc, &message).ok(),
        None => None,
    }
}

fn is_written(alloc: Global, octets: &[u8], canonical: &[u8]) -> bool {
    match written_again(alloc, octets) {
        Some(written) => written.as_slice() == canonical,
        None => false,
    }
}

#[test]
fn a_message_that_no_end_sends_is_written_in_its_one_form(rt: HostRuntime) {
    for (octets, canonical) in FORMS.as_slice() {
        assert!(rt; is_written(rt.alloc(), octets, canonical), "{octets:?}");
    }
}
