//! What an Update comes to: its MAC, its report, the limits. It knows no datagram and no other message.
ghost use Rattle.std.specs.Prelude.{◌≡◌, ◌≤◌, length, IfOk, OnErr};
ghost use Rattle.source_filter.specs.Record.{item_count};
ghost use Rattle.endpoint_membership.specs.{Log.{latest}, Table.{IsWithinLimits, TableSettings, in_force_of, limit_passed}, declared.change.Change.TheVariants.{Reported}};
ghost use Rattle.relay_machine.specs.{EventAnswer.{limited_answer, update_answer}, Logs.{AnswersByLog}, Sends.{AreShort}, Updates.{report_in}};

use crate::outcome::Outcome;
use crate::report::{Unread, forwardable_records, read_report};
use crate::sends::Step;
use amt_values::{Bytes, Endpoint};
use endpoint_membership::{AcceptFault, Change, Table};
use source_filter::Records;
use std::alloc::{AllocError, Global};

// Accepts the records of a source's report at the table's own moment, unless a limit is passed.
fn accept(
    alloc: Global,
    table: &mut Table,
    source: Endpoint,
    records: Records,
) -> Result<Step, AllocError>
    requires within { IsWithinLimits table.old }
    requires items { item_count records ≤ 65535 }
    ensures answers { (terms : TableSettings) → AnswersByLog terms table.old table.new result (λ log.
        limited_answer (limit_passed (in_force_of terms table.old) log source records (latest log))
        (Reported source records (latest log))) }
    ensures err { OnErr result (table.new ≡ table.old) }
    ensures within { IsWithinLimits table.new }
    ensures short { IfOk result (λ step. AreShort step.sends) }
{
    let at = table.now();
    match table.accept(alloc, &source, &records, &at) {
        Ok(()) => {
            let endpoint = source;
            let reported = Change::Reported {
                endpoint,
                records,
                at,
            };
            Ok(Step::entered(alloc, Outcome::Updated, reported))
        }
        Err(AcceptFault::Limit(fault)) => Ok(Step::quiet(alloc, Outcome::Over(fault))),
        Err(AcceptFault::Memory) => Err(AllocError),
    }
}

// What an Update comes to: its MAC is judged first, then the report in it, and then the limits.
pub fn take_update(
    alloc: Global,
    table: &mut Table,
    source: Endpoint,
    good: bool,
    inner: &Bytes,
) -> Result<Step, AllocError>
    requires within { IsWithinLimits table.old }
    requires size { length inner.now ≤ 65535 }
    ensures answers { (terms : TableSettings) → AnswersByLog terms table.old table.new result (λ log.
        update_answer good (report_in inner.now)
        (λ records. limit_passed (in_force_of terms table.old) log source records (latest log))
        source (latest log)) }
    ensures err { OnErr result (table.new ≡ table.old) }
    ensures within { IsWithinLimits table.new }
    ensures short { IfOk result (λ step. AreShort step.sends) }
{
    if !good {
        return Ok(Step::quiet(alloc, Outcome::BadMac));
    }
    let records = match read_report(alloc, inner.as_slice()) {
        Ok(records) => records,
        Err(Unread::Unlawful(fault)) => return Ok(Step::quiet(alloc, Outcome::Unlawful(fault))),
        Err(Unread::Memory) => return Err(AllocError),
    };
    accept(alloc, table, source, forwardable_records(records))
}
