//! The text of a run's report. It knows no device.
ghost use Rattle.std.specs.Prelude.{◌≡◌, IfOk};
ghost use Rattle.serving_commands.specs.{RelayTexts.{report_text}, Texts.{IsDone}};

use crate::report::end_text;
use amt_values::Bytes;
use control_lines::append_number;
use relay_serving::ServeReport;
use std::alloc::{AllocError, Global};

/// What is written of a run that ended by its turns, or since the link or the feed was closed: a line for its
/// end, and one for each count.
#[tactic(auto, unfolding(crate::specs::RelayTexts::report_text))]
pub fn report_text(alloc: Global, report: &ServeReport) -> Result<Bytes, AllocError>
    requires done { IsDone report.now.end }
    ensures { IfOk result (λ text. text ≡ report_text report.now) }
{
    let mut text = end_text(alloc, report.end)?;
    report.append_numbers(&mut text)?;
    append_number(&mut text, "apart", report.apart)?;
    Ok(text)
}
