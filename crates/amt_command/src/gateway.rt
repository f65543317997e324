//! Serves as the gateway that a file's settings say, and writes the counts of the run. It knows no arguments and
//! no status.

ghost use Rattle.std.specs.Prelude.{◌≡◌, List, ℕ, IsErrOf, Result};
ghost use Rattle.amt_config.specs.declared.fault.ConfigFault.{ConfigFault as FaultValue};
ghost use Rattle.amt_ports.specs.Causes.{Rose};
ghost use Rattle.amt_words.specs.Line.{IsTurns};
ghost use Rattle.gateway_serving.specs.declared.served.GatewayServed.{GatewayServed as AnswerReport};
ghost use Rattle.serving_commands.specs.{Lives.{tells}, Texts.{settings_line}, declared.fault.ServingFault.{ServingFault as AnswerFault}};
ghost use Rattle.amt_command.specs.{Ending.{line_of, status_of}, Running.{gateway_reporting, gateway_service}, Serving.{ComesTo, Shows}};

use crate::ending::Ending;
use crate::serving::{Report, ending_of_fault, write_report};
use amt_ports::{End, Files, Sink};
use amt_values::Bytes;
use gateway_serving::GatewayServed;
use serving_commands::Live;
use serving_commands::gateway::{report_text, run_gateway};
use std::alloc::{AllocError, Global};

impl Report for GatewayServed {
    ghost reporting = { gateway_reporting };

    fn end(&self) -> End {
        self.end
    }

    fn text(&self, alloc: Global) -> Result<Bytes, AllocError> {
        report_text(alloc, self)
    }
}

/// Runs the gateway of the file, and writes the counts of its run.
pub fn serve_gateway_file<F: Files, O: Sink, V: Live>(
    alloc: Global,
    file: &str,
    turns: u64,
    files: &mut F,
    out: &mut O,
    live: &mut V,
) -> Result<(), Ending>
    requires turns { IsTurns turns }
    ensures answered { (answer : Result AnswerReport AnswerFault)
        × ComesTo F.Files V.Live (gateway_service
        (tells V.Live V.Relay.seen V.Gateway.seen) turns)
        file.now files.old files.new live.old live.new answer
        × Shows gateway_reporting answer O.written out.old out.new (status_of result) (line_of result) }
    ensures no_usage { IsErrOf result Ending.Usage → ⊥ }
    ensures no_difference { (line : List ℕ) → IsErrOf result (Ending.Difference line) → ⊥ }
    ensures fault { (line : List ℕ) → IsErrOf result (Ending.Fault line)
        → (fault : FaultValue) × (line ≡ settings_line fault) }

    ensures write { IsErrOf result Ending.WriteFault → Rose (O.faults out.old) (O.faults out.new) }
    ensures calm { ¬ IsErrOf result Ending.WriteFault → O.faults out.new ≡ O.faults out.old }
{
    match run_gateway(alloc, file, turns, files, live) {
        Ok(report) => write_report(alloc, &report, out),
        Err(fault) => Err(ending_of_fault(alloc, &fault)),
    }
}
