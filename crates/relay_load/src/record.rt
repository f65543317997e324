//! What four words choose of an Update, and the report of it.

ghost use Rattle.std.specs.Prelude.{◌≡◌, ◌<◌, ◌≤◌, length, IfOk};
ghost use Rattle.relay_load.specs.{Generator.{number_after}, Reports.{group_at}, Updates.{chosen_exclude, chosen_group, chosen_nonce, chosen_port, record_with, load_report}};

use crate::generator::Generator;
use amt_values::{Bytes, Ip};
use igmp_records::write_report4;
use inner_datagrams::write_inner4;
use source_filter::{Ips, Record, RecordKind, Records};
use std::alloc::{AllocError, Global};

/// 239.1.0.0, from which the groups count.
pub const GROUP_BASE: u32 = 0xef01_0000;

/// How many groups there are.
pub const GROUPS: u32 = 16;

/// 198.51.100.1, which records list and packets come from.
pub const LOAD_SOURCE: u32 = 0xc633_6401;

/// 10.0.0.2, from which the reports come.
const REPORT_SOURCE: u32 = 0x0a00_0002;

/// 224.0.0.22, to which they go (RFC 3376, section 4.2.14).
const REPORT_DESTINATION: u32 = 0xe000_0016;

/// What four words choose of an Update.
#[derive(Clone, Copy, Debug)]
pub struct Choice {
    pub port: u16,
    pub nonce: u32,
    /// Which of the groups; 239.1.0.1 is 0.
    pub group_index: u32,
    /// The record excludes no source; otherwise it includes one alone.
    pub excludes: bool,
}

/// Draws the four words, in their order.
#[tactic(auto, unfolding(crate::specs::Generator::number_after))]
pub fn draw_choice(generator: &mut Generator) -> Choice
    ensures port { result.port ≡ chosen_port generator.old.number }
    ensures nonce { result.nonce ≡ chosen_nonce generator.old.number }
    ensures group { group_at result.group_index ≡ chosen_group generator.old.number }
    ensures groups { result.group_index < 16 }
    ensures excludes { result.excludes ≡ chosen_exclude generator.old.number }

    ensures number { generator.new.number ≡ number_after generator.old.number 4 }
{
    let first = generator.draw();
    let second = generator.draw();
    let third = generator.draw();
    let fourth = generator.draw();
    Choice {
        port: 1024 + (first % 60_000) as u16,
        nonce: second,
        group_index: third % GROUPS,
        excludes: fourth % 2 == 0,
    }
}

// A record that excludes no source, or includes one alone.
fn record_with(alloc: Global, excludes: bool, group: u32) -> Result<Record, AllocError>
    ensures { IfOk result (λ one. one ≡ record_with excludes group) }
{
    let group = Ip::V4(group);
    if excludes {
        Ok(Record {
            kind: RecordKind::IsEx,
            group,
            sources: Ips::new(alloc),
        })
    } else {
        Ok(Record {
            kind: RecordKind::IsIn,
            group,
            sources: Ips::copied(alloc, &[Ip::V4(LOAD_SOURCE)])?,
        })
    }
}

/// Writes the datagram that carries the report of such a record.
#[tactic(auto, unfolding(gateway_machine::specs::Reports::report_datagram))]
pub fn write_report(alloc: Global, excludes: bool, group: u32) -> Result<Bytes, AllocError>
    ensures written { IfOk result (λ bytes. bytes ≡ load_report (record_with excludes group)) }
    ensures short { IfOk result (λ bytes. length bytes ≤ 100) }
{
    let mut records = Records::with_room(alloc, 1)?;
    records.push(record_with(alloc, excludes, group)?)?;
    let report = write_report4(alloc, &records)?;
    write_inner4(alloc, REPORT_SOURCE, REPORT_DESTINATION, report.as_slice())
}
