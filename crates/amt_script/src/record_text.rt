//! The text of a group record.

ghost use Rattle.std.specs.Prelude.{◌≡◌, ◌++◌, OnOk};
ghost use Rattle.amt_script.specs.Texts.{group_record_text, kind_word};

use crate::row_text::append_sources;
use amt_values::Bytes;
use script_lines::append_ip;
use source_filter::{Record, RecordKind};
use std::alloc::AllocError;

fn kind_word(kind: RecordKind) -> &'static str
    ensures { result.now ≡ kind_word kind }
{
    match kind {
        RecordKind::IsIn => "is_in",
        RecordKind::IsEx => "is_ex",
        RecordKind::ToIn => "to_in",
        RecordKind::ToEx => "to_ex",
        RecordKind::Allow => "allow",
        RecordKind::Block => "block",
    }
}

/// Puts a group record at the end: its type, its group, and its sources in their order and with repeats.
pub fn append_group_record(text: &mut Bytes, one: &Record) -> Result<(), AllocError>
    ensures { OnOk result (text.new ≡ text.old ++ group_record_text one.now) }
{
    text.append(kind_word(one.kind).as_bytes())?;
    text.append(b" ")?;
    append_ip(text, &one.group)?;
    text.append(b" ")?;
    append_sources(text, one.sources.as_slice())
}
