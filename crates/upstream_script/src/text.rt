//! The lines of change records. It knows no script and no sink.

ghost use Rattle.std.specs.Prelude.{◌≡◌, ◌++◌, flat_map, OnOk};
ghost use Rattle.upstream_script.specs.Texts.{change_line};

use amt_script::append_group_record;
use amt_values::Bytes;
use source_filter::{Record, Records};
use std::alloc::AllocError;

#[tactic(auto, unfolding(crate::specs::Texts::change_line))]
fn append_change(text: &mut Bytes, one: &Record) -> Result<(), AllocError>
    ensures { OnOk result (text.new ≡ text.old ++ change_line one.now) }
{
    text.append(b"+ ")?;
    append_group_record(text, one)?;
    text.append(b"\n")
}

/// Puts a line for each change record at the end.
pub fn append_changes(text: &mut Bytes, records: &Records) -> Result<(), AllocError>
    ensures { OnOk result (text.new ≡ text.old ++ flat_map change_line records.now) }
{
    for one in records.as_slice() {
        append_change(text, one)?;
    }
    Ok(())
}
