//! Lists of group records, and copies.

ghost use Rattle.std.specs.Prelude.{◌≡◌, IfOk};

use crate::ips::Ips;
use crate::record::Record;
use amt_values::Items;
use std::alloc::{AllocError, Global};

/// Group records, in the order of their report.
pub type Records = Items<Record>;

/// An equal record that owns its memory.
pub fn copy_record(alloc: Global, group_record: &Record) -> Result<Record, AllocError>
    ensures { IfOk result (λ copy. copy ≡ group_record.now) }
{
    Ok(Record {
        kind: group_record.kind,
        group: group_record.group,
        sources: Ips::copied(alloc, group_record.sources.as_slice())?,
    })
}

/// Equal records that own their memory.
pub fn copy_records(alloc: Global, records: &Records) -> Result<Records, AllocError>
    ensures { IfOk result (λ copy. copy ≡ records.now) }
{
    let mut copies = Records::new(alloc);
    for group_record in records.as_slice() {
        copies.push(copy_record(alloc, group_record)?)?;
    }
    Ok(copies)
}
