//! Calls that no script shows: what is wanted of a group, and entries that a relay hands out to nobody.

ghost use Rattle.std.specs.Prelude.{◌≡◌, ◌≤◌, [], ◌∷◌, ◌++◌, true, IfOk, OnOk};
ghost use Rattle.source_filter.specs.Record.{item_count};
ghost use Rattle.endpoint_membership.specs.Table.{ForLog, Holds, IsWithinLimits};
ghost use Rattle.program_tests.specs.Following.{AreOfOneLog, HasFewItems};

use Mode::{Exclude, Include};
use RecordKind::{IsEx, IsIn};
use amt_upstream::Upstream;
use amt_values::{Endpoint, Ip, Moment};
use endpoint_membership::{Change, Limits, Table};
use source_filter::{Ips, Mode, Record, RecordKind, Records};
use std::alloc::{AllocError, Global};
use std::process::Abort;

// 239.1.1.1 and 239.1.1.2; 198.51.100.1 to 3.
const GROUP: Ip = Ip::V4(0xef01_0101);

const STRANGE: Ip = Ip::V4(0xef01_0102);

const A: Ip = Ip::V4(0xc633_6401);

const B: Ip = Ip::V4(0xc633_6402);

const C: Ip = Ip::V4(0xc633_6403);

const LIMITS: Limits = Limits {
    endpoints: 16,
    groups: 4,
    sources: 8,
};

// An entry: a report of the endpoint with this last octet, its clearing, or a moment.
#[derive(Clone, Copy)]
enum Given {
    Report(u32, RecordKind, &'static [Ip], u64),
    Clear(u32, u64),
    Mark(u64),
}

// What is given, how many records answer it, and what is wanted of 239.1.1.1 then.
const DAY: [(Given, usize, Mode, &[Ip]); 10] = [
    (Given::Clear(9, 0), 0, Include, &[]),
    (Given::Report(7, IsEx, &[A, B], 1000), 1, Exclude, &[A, B]),
    (Given::Report(8, IsEx, &[B, C], 1000), 1, Exclude, &[B]),
    (Given::Report(9, IsIn, &[B], 500), 1, Exclude, &[]),
    (Given::Clear(7, 0), 1, Exclude, &[C]),
    (Given::Clear(7, 0), 0, Exclude, &[C]),
    (Given::Mark(500), 0, Exclude, &[C]),
    (Given::Mark(260_999), 0, Exclude, &[C]),
    (Given::Report(8, IsIn, &[A], 261_000), 1, Include, &[A]),
    (Given::Mark(521_000), 1, Include, &[]),
];

// The records of a report with one record on 239.1.1.1.
fn records_of(
    rt: &impl Abort,
    alloc: Global,
    kind: RecordKind,
    sources: &[Ip],
) -> Result<Records, AllocError>
    ensures { IfOk result (λ records. item_count records ≤ 16777216) }
{
    assert!(rt; sources.len() <= 8);
    let mut records = Records::new(alloc);
    records.push(Record {
        kind,
        group: GROUP,
        sources: Ips::copied(alloc, sources)?,
    })?;
    Ok(records)
}

// Whether a table of limits accepts the entry.
fn accepts(alloc: Global, table: &mut Table, change: &Change) -> bool
    requires within { IsWithinLimits table.old }
    requires items { HasFewItems change.now }
    ensures stands { result ≡ true → ForLog table.old (λ settings log.
        Holds settings table.new (log ++ change.now ∷ [])) }
    ensures within { IsWithinLimits table.new }
{
    match change {
        Change::Reported {
            endpoint,
            records,
            at,
        } => match table.accept(alloc, endpoint, records, at) {
            Ok(()) => true,
            Err(_) => false,
        },
        Change::Clear { endpoint, at } => {
            table.clear(endpoint, at);
            true
        }
        Change::Mark { at } => {
            table.advance(at);
            true
        }
    }
}

// The entry that the table accepts is taken upstream.
fn take(
    rt: &impl Abort,
    alloc: Global,
    table: &mut Table,
    upstream: &mut Upstream,
    change: &Change,
) -> Result<Records, AllocError>
    requires one_log { AreOfOneLog table.old upstream.old }
    requires items { HasFewItems change.now }
    ensures { OnOk result (AreOfOneLog table.new upstream.new) }
{
    if !accepts(alloc, table, change) {
        panic!(rt; "the entry is within the limits");
    }
    upstream.take(alloc, change)
}

// What is wanted of a group.
fn is_wanted(
    rt: &impl Abort,
    alloc: Global,
    upstream: &Upstream,
    group: &Ip,
    mode: Mode,
    sources: &[Ip],
) -> Result<(), AllocError> {
    let found = upstream.interface(alloc, group)?;
    let is = found.mode() == mode && found.sources() == sources;
    assert!(rt; is, "{found:?}");
    Ok(())
}

fn endpoint(number: u32) -> Endpoint {
    Endpoint::named(0xc633_6400 + u128::from(number & 255), 5000)
}

fn change_of(rt: &impl Abort, alloc: Global, given: Given) -> Result<Change, AllocError>
    ensures { IfOk result HasFewItems }
{
    match given {
        Given::Report(number, kind, sources, at) => Ok(Change::Reported {
            endpoint: endpoint(number),
            records: records_of(rt, alloc, kind, sources)?,
            at: moment(rt, at),
        }),
        Given::Clear(number, at) => Ok(Change::Clear {
            endpoint: endpoint(number),
            at: moment(rt, at),
        }),
        Given::Mark(at) => Ok(Change::Mark { at: moment(rt, at) }),
    }
}

fn moment(rt: &impl Abort, ms: u64) -> Moment {
    Moment::new(ms).expect(rt, "moments are below 2^62")
}

fn run(rt: &impl Abort, alloc: Global) -> Result<(), AllocError> {
    let mut table = Table::new(alloc, LIMITS, 260_000)?;
    let mut upstream = Upstream::new(alloc, LIMITS, 260_000)?;
    for (given, count, mode, sources) in &DAY {
        let change = change_of(rt, alloc, *given)?;
        let records = take(rt, alloc, &mut table, &mut upstream, &change)?;
        assert_eq!(rt; records.len(), *count);
        is_wanted(rt, alloc, &upstream, &GROUP, *mode, sources)?;
        is_wanted(rt, alloc, &upstream, &STRANGE, Include, &[])?;
    }
    Ok(())
}

#[test]
fn what_all_want_is_shown_after_each_entry(rt: HostRuntime) {
    assert!(rt; run(&rt, rt.alloc()).is_ok());
}
