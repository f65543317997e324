//! How a run by a settings file ends, and what is written of it. It knows no arguments, no status and no device.

ghost use Rattle.std.specs.{Prelude.{◌≡◌, ◌≢◌, ◌⊎◌, List, ℕ, IfErr, IfOk, IsErrOf, Ok, OnOk}, Io.KnownBytes.{Appends}};
ghost use Rattle.amt_ports.specs.Causes.{Rose};
ghost use Rattle.serving_commands.specs.Texts.{IsDone, settings_line};
ghost use Rattle.script_lines.specs.Writing.{WritesPrefix};
ghost use Rattle.amt_command.specs.{Ending.{line_of, status_of, status_of_ending}, Serving.{HasLine, Reporting, Shows, ending_of_end, ending_of_fault}};

use crate::ending::Ending;
use crate::writing::write_text;
use amt_config::ConfigFault;
use amt_ports::{End, Sink};
use amt_values::Bytes;
use serving_commands::{ServingFault, settings_line};
use std::alloc::{AllocError, Global};

/// The report of a run.
pub trait Report {
    ghost reporting: { Reporting Self };

    /// Why the run ended.
    fn end(&self) -> End
        ensures { result ≡ reporting.end_of self.now };

    /// The counts of a run that ended well, each on a line.
    fn text(&self, alloc: Global) -> Result<Bytes, AllocError>
        requires done { IsDone (reporting.end_of self.now) }
        ensures { IfOk result (λ text. text ≡ reporting.text_of self.now) };
}

// The line of the settings' fault, which isn't that memory ran out.
fn ending_of_settings(alloc: Global, fault: &ConfigFault) -> Ending
    requires fault { fault.now ≢ ConfigFault.Memory }
    ensures { (result ≡ Ending.Fault (settings_line fault.now)) ⊎ (result ≡ Ending.Memory) }
{
    match settings_line(alloc, fault) {
        Ok(line) => Ending::Fault(line),
        Err(_) => Ending::Memory,
    }
}

/// Why there was no run.
pub fn ending_of_fault(alloc: Global, fault: &ServingFault) -> Ending
    requires told { HasLine fault.now }
    ensures { (result ≡ ending_of_fault fault.now)
        ⊎ ((result ≡ Ending.Memory) × (status_of_ending (ending_of_fault fault.now) ≡ 3)) }
{
    match fault {
        ServingFault::NotRead => Ending::ReadFault,
        ServingFault::TooLong => Ending::TooLong,
        ServingFault::Settings(fault) => ending_of_settings(alloc, fault),
        ServingFault::NotOpened => Ending::LinkFault,
        ServingFault::Memory => Ending::Memory,
    }
}

// Why a run ended.
fn ending_of_end(end: End) -> Result<(), Ending>
    ensures { result ≡ ending_of_end end }
{
    match end {
        End::Turns | End::Closed => Ok(()),
        End::LinkFault | End::FeedFault | End::SpawnFault => Err(Ending::LinkFault),
        End::WordsFault => Err(Ending::RandomFault),
        End::Memory => Err(Ending::Memory),
    }
}

fn write_counts<R: Report, O: Sink>(alloc: Global, report: &R, out: &mut O) -> Result<(), Ending>
    requires done { IsDone (R.reporting.end_of report.now) }
    ensures done { OnOk result
        (Appends (O.written out.old) (O.written out.new) (R.reporting.text_of report.now)) }
    ensures begun { IsErrOf result Ending.WriteFault
        → WritesPrefix (O.written out.old) (O.written out.new) (R.reporting.text_of report.now) }
    ensures only { IfErr result (λ ending. (ending ≡ Ending.WriteFault) ⊎ (ending ≡ Ending.Memory)) }
    ensures memory { IsErrOf result Ending.Memory → out.new ≡ out.old }
    ensures write { IsErrOf result Ending.WriteFault → Rose (O.faults out.old) (O.faults out.new) }
    ensures calm { ¬ IsErrOf result Ending.WriteFault → O.faults out.new ≡ O.faults out.old }
{
    let Ok(text) = report.text(alloc) else {
        return Err(Ending::Memory);
    };
    match write_text(out, text.as_slice()) {
        Ok(()) => Ok(()),
        Err(_) => Err(Ending::WriteFault),
    }
}

/// Writes the counts where the run ended well, and nothing where it didn't.
pub fn write_report<R: Report, O: Sink>(
    alloc: Global,
    report: &R,
    out: &mut O,
) -> Result<(), Ending>
    ensures shows { Shows R.reporting (Ok report.now) O.written out.old out.new (status_of result) (line_of result) }
    ensures write { IsErrOf result Ending.WriteFault → Rose (O.faults out.old) (O.faults out.new) }
    ensures calm { ¬ IsErrOf result Ending.WriteFault → O.faults out.new ≡ O.faults out.old }
    ensures no_line { (line : List ℕ) → IsErrOf result (Ending.Fault line) → ⊥ }
{
    match ending_of_end(report.end()) {
        Ok(()) => write_counts(alloc, report, out),
        Err(ending) => Err(ending),
    }
}
