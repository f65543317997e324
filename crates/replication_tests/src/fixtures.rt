//! What the tests share: terms, addresses, and entries as a relay makes them.
ghost use Rattle.std.specs.Prelude.{◌≡◌, ◌≤◌, ◌<◌, ◌+◌, ◌^◌, length, IfOk, OnOk};
ghost use Rattle.source_filter.specs.Record.{item_count};
ghost use Rattle.published_table.specs.Publishers.{IsSamePublisher};
ghost use Rattle.replication_tests.specs.Following.{Follows, whole_log};

use amt_values::{Endpoint, Ip, Moment};
use endpoint_membership::{Change, Limits, Table};
use published_table::{Publisher, Terms};
use source_filter::{Ips, Record, RecordKind, Records};
use std::alloc::{AllocError, Global};
use std::process::Abort;
use std::sync::Wait;

pub const ENDPOINTS: u32 = 16;

pub const TERMS: Terms = Terms {
    limits: Limits {
        endpoints: ENDPOINTS,
        groups: 16,
        sources: 16,
    },
    lifetime_ms: 260_000,
};

pub const GROUP: Ip = Ip::V4(0xef01_0101);

pub const SOURCE: Ip = Ip::V4(0xc633_6409);

pub fn moment(rt: &impl Abort, ms: u64) -> Moment {
    Moment::new(ms).expect(rt, "moments are below 2^62")
}

/// The endpoint 198.51.100.HOST:5000.
pub fn endpoint(host: u8) -> Endpoint {
    Endpoint::named(0xc633_6400 | u128::from(host), 5000)
}

fn all_sources(alloc: Global, group: Ip) -> Result<Records, AllocError>
    ensures { IfOk result (λ records. item_count records ≤ 16777216) }
{
    let mut records = Records::new(alloc);
    records.push(Record {
        kind: RecordKind::IsEx,
        group,
        sources: Ips::new(alloc),
    })?;
    Ok(records)
}

/// The endpoint wants all sources of the group.
pub fn take_report_on(
    group: Ip,
    alloc: Global,
    publisher: &mut Publisher,
    table: &mut Table,
    endpoint: Endpoint,
    at: Moment,
) -> Result<(), AllocError>
    requires follows { Follows table.old publisher.old }
    requires few { length (whole_log publisher.old) + 1 < 2 ^ 62 }
    ensures follows { OnOk result (Follows table.new publisher.new) }
    ensures same { IsSamePublisher publisher.old publisher.new }
    ensures longer { OnOk result (length (whole_log publisher.new) ≤ length (whole_log publisher.old) + 1) }
{
    let records = all_sources(alloc, group)?;
    publisher.ready()?;
    let Ok(()) = table.accept(alloc, &endpoint, &records, &at) else {
        return Err(AllocError);
    };
    publisher.take(Change::Reported {
        endpoint,
        records,
        at,
    });
    Ok(())
}

/// Time passes.
pub fn take_mark(publisher: &mut Publisher, table: &mut Table, at: Moment) -> Result<(), AllocError>
    requires follows { Follows table.old publisher.old }
    requires few { length (whole_log publisher.old) + 1 < 2 ^ 62 }
    ensures follows { OnOk result (Follows table.new publisher.new) }
    ensures same { IsSamePublisher publisher.old publisher.new }
    ensures longer { OnOk result (length (whole_log publisher.new) ≤ length (whole_log publisher.old) + 1) }
{
    publisher.ready()?;
    table.advance(&at);
    publisher.take(Change::Mark { at });
    Ok(())
}

/// Publishes, and the log stays the same.
pub fn show<R: Wait>(rt: &R, publisher: &mut Publisher) -> Result<(), AllocError>
    ensures same { IsSamePublisher publisher.old publisher.new }
    ensures log { whole_log publisher.new ≡ whole_log publisher.old }
{
    publisher.publish(rt)
}
