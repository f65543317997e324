//! The lines of a membership report.

ghost use Rattle.std.specs.Prelude.{◌≡◌, ◌≤◌, ◌++◌, length, Ok, OnOk};
ghost use Rattle.relay_machine.specs.Updates.{report_in};
ghost use Rattle.amt_dump.specs.Texts.{line_of, record_words, report_lines};

use crate::line::begin_line;
use crate::query_text::append_fault;
use amt_script::append_group_record;
use amt_values::Bytes;
use relay_machine::{Unread, read_report};
use source_filter::{Record, Records};
use std::alloc::{AllocError, Global};

fn append_record_words(text: &mut Bytes, one: &Record) -> Result<(), AllocError>
    ensures { OnOk result (text.new ≡ text.old ++ record_words one.now) }
{
    text.append(b"record ")?;
    append_group_record(text, one)
}

fn append_record(text: &mut Bytes, number: u32, one: &Record) -> Result<(), AllocError>
    ensures { OnOk result (text.new ≡ text.old ++ line_of number (record_words one.now)) }
{
    begin_line(text, number)?;
    append_record_words(text, one)?;
    text.append(b"\n")
}

fn append_records(text: &mut Bytes, number: u32, records: &Records) -> Result<(), AllocError>
    ensures { OnOk result (text.new ≡ text.old ++ report_lines number (Ok records.now)) }
{
    for one in records.as_slice() {
        append_record(text, number, one)?;
    }
    Ok(())
}

/// Puts the lines of the report at the end that inner octets carry.
pub fn append_carried_report(
    alloc: Global,
    text: &mut Bytes,
    number: u32,
    inner: &[u8],
) -> Result<(), AllocError>
    requires { length inner.now ≤ 65535 }
    ensures { OnOk result (text.new ≡ text.old ++ report_lines number (report_in inner.now)) }
{
    match read_report(alloc, inner) {
        Ok(records) => append_records(text, number, &records),
        Err(Unread::Unlawful(fault)) => append_fault(text, number, &fault),
        Err(Unread::Memory) => Err(AllocError),
    }
}
