//! The datagrams that Updates carry, each written once.

ghost use Rattle.std.specs.Prelude.{◌≡◌, ◌≤◌, ◌<◌, length, IfOk};
ghost use Rattle.relay_load.specs.{Reports.{AreReports, AreReportsOf, group_at}, Updates.{load_report, record_with}};

use crate::record::{Choice, GROUP_BASE, GROUPS, write_report};
use amt_values::{Bytes, Items};
use std::alloc::{AllocError, Global};

/// A report of either kind to each group, in the order of the groups.
///
/// A load has many Updates and only these reports: writing one takes longer than copying it.
#[derive(Debug, Drop)]
pub struct Reports {
    excluding: Items<Bytes>,
    including: Items<Bytes>,
}

// The reports of one kind.
fn reports_of(alloc: Global, excludes: bool) -> Result<Items<Bytes>, AllocError>
    ensures { IfOk result (AreReportsOf excludes) }
{
    let mut reports = Items::with_room(alloc, GROUPS as usize)?;
    for group_index in 0..GROUPS {
        let report = write_report(alloc, excludes, GROUP_BASE + (1 + group_index))?;
        reports.push(report)?;
    }
    Ok(reports)
}

/// Writes every report.
pub fn write_reports(alloc: Global) -> Result<Reports, AllocError>
    ensures { IfOk result AreReports }
{
    Ok(Reports {
        excluding: reports_of(alloc, true)?,
        including: reports_of(alloc, false)?,
    })
}

impl Reports {
    fn of_kind(&self, excludes: bool) -> &[Bytes]
        requires { AreReports self.now }
        ensures { AreReportsOf excludes result.now }
    {
        if excludes {
            self.excluding.as_slice()
        } else {
            self.including.as_slice()
        }
    }

    /// A copy of the one that was chosen.
    pub fn chosen(&self, alloc: Global, choice: &Choice) -> Result<Bytes, AllocError>
        requires reports { AreReports self.now }
        requires group { choice.now.group_index < 16 }
        ensures datagram { IfOk result (λ bytes. bytes
            ≡ load_report (record_with choice.now.excludes (group_at choice.now.group_index))) }
        ensures short { IfOk result (λ bytes. length bytes ≤ 100) }
    {
        let reports = self.of_kind(choice.excludes);
        Bytes::copied(alloc, reports[choice.group_index as usize].as_slice())
    }
}
