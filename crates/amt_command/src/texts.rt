//! Datagrams are told and vectors are run: the whole text is made before any of it is written. It knows no
//! message.

ghost use Rattle.amt_command.specs.Command.{dump_task, vectors_task};

use crate::fault::line_fault;
use crate::task::{HasTask, TaskFault};
use crate::writing::write_text;
use amt_dump::dump_lines;
use amt_ports::Sink;
use amt_values::Bytes;
use amt_vectors::{SuiteReport, run_suite};
use script_lines::RunFault;
use std::alloc::{AllocError, Global};

/// Lines of hexadecimal digits.
#[derive(Drop)]
pub struct Dump {}

impl HasTask for Dump {
    // The text, which is made as the lines are read.
    type Value = Bytes;

    ghost task = { λ task. dump_task };

    ghost CanWrite = { λ text. Unit {0} };

    fn read(&self, alloc: Global, bytes: &[u8]) -> Result<Bytes, TaskFault> {
        match dump_lines(alloc, bytes) {
            Ok(value) => Ok(value),
            Err(error) => Err(line_fault(alloc, error)),
        }
    }

    fn difference(&self, _alloc: Global, _text: &Bytes) -> Result<Option<Bytes>, AllocError> {
        Ok(None)
    }

    fn write<O: Sink>(&self, _alloc: Global, text: &Bytes, out: &mut O) -> Result<(), RunFault> {
        write_text(out, text.as_slice())
    }
}

/// Vector rows.
#[derive(Drop)]
pub struct Vectors {}

impl HasTask for Vectors {
    type Value = SuiteReport;

    ghost task = { λ task. vectors_task };

    ghost CanWrite = { λ report. Unit {0} };

    fn read(&self, alloc: Global, bytes: &[u8]) -> Result<SuiteReport, TaskFault> {
        match run_suite(alloc, bytes) {
            Ok(value) => Ok(value),
            Err(error) => Err(line_fault(alloc, error)),
        }
    }

    fn difference(&self, alloc: Global, report: &SuiteReport) -> Result<Option<Bytes>, AllocError> {
        report.difference(alloc)
    }

    fn write<O: Sink>(
        &self,
        alloc: Global,
        report: &SuiteReport,
        out: &mut O,
    ) -> Result<(), RunFault> {
        let Ok(text) = report.text(alloc) else {
            return Err(RunFault::Memory);
        };
        write_text(out, text.as_slice())
    }
}
