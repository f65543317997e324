//! Serves as the relay that a file's settings say, and writes the counts of the run. It knows no arguments and
//! no status.

ghost use Rattle.std.specs.Prelude.{◌≡◌, List, ℕ, IsErrOf, Result};
ghost use Rattle.amt_config.specs.declared.fault.ConfigFault.{ConfigFault as FaultValue};
ghost use Rattle.amt_ports.specs.Causes.{Rose};
ghost use Rattle.amt_words.specs.Line.{AreWorkers, IsTurns};
ghost use Rattle.relay_serving.specs.declared.plan.ServeReport.{ServeReport as AnswerReport};
ghost use Rattle.serving_commands.specs.{Lives.{tells}, Texts.{settings_line}, declared.fault.ServingFault.{ServingFault as AnswerFault}};
ghost use Rattle.amt_command.specs.{Ending.{line_of, status_of}, Running.{relay_reporting, relay_service}, Serving.{ComesTo, Shows}};

use crate::ending::Ending;
use crate::serving::{Report, ending_of_fault, write_report};
use amt_ports::{End, Files, Sink};
use amt_values::Bytes;
use relay_serving::ServeReport;
use serving_commands::Live;
use serving_commands::relay::{report_text, run_relay};
use std::alloc::{AllocError, Global};
use std::sync::Wait;

impl Report for ServeReport {
    ghost reporting = { relay_reporting };

    fn end(&self) -> End {
        self.end
    }

    fn text(&self, alloc: Global) -> Result<Bytes, AllocError> {
        report_text(alloc, self)
    }
}

/// Runs the relay of the file, and writes the counts of its run.
#[tactic(auto, using(crate::proofs::Shown::shown))]
pub fn serve_relay_file<F: Files, O: Sink, V: Live>(
    rt: &impl Wait,
    alloc: Global,
    file: &str,
    turns: u64,
    workers: Option<u32>,
    files: &mut F,
    out: &mut O,
    live: &mut V,
) -> Result<(), Ending>
    requires turns { IsTurns turns }
    requires workers { AreWorkers workers }
    ensures answered { (answer : Result AnswerReport AnswerFault)
        × ComesTo F.Files V.Live (relay_service
        (tells V.Live V.Relay.seen V.Gateway.seen) turns workers)
        file.now files.old files.new live.old live.new answer
        × Shows relay_reporting answer O.written out.old out.new (status_of result) (line_of result) }
    ensures no_usage { IsErrOf result Ending.Usage → ⊥ }
    ensures no_difference { (line : List ℕ) → IsErrOf result (Ending.Difference line) → ⊥ }
    ensures fault { (line : List ℕ) → IsErrOf result (Ending.Fault line)
        → (fault : FaultValue) × (line ≡ settings_line fault) }

    ensures write { IsErrOf result Ending.WriteFault → Rose (O.faults out.old) (O.faults out.new) }
    ensures calm { ¬ IsErrOf result Ending.WriteFault → O.faults out.new ≡ O.faults out.old }
{
    match run_relay(rt, alloc, file, turns, workers, files, live) {
        Ok(report) => write_report(alloc, &report, out),
        Err(fault) => Err(ending_of_fault(alloc, &fault)),
    }
}
