//! Runs a command's work over its devices. It knows no arguments and no status.

ghost use Rattle.std.specs.Prelude.{◌≡◌, ◌⊎◌, ℕ, ◌≤◌, List, OnOk, Some, None, IsErrOf, IfErr, IfOk};
ghost use Rattle.amt_ports.specs.{Causes.{Rose}, Reading.{TakesAtMost, TakesMore}};
ghost use Rattle.amt_values.specs.declared.bytes.TheConstants.{INPUT_LIMIT};
ghost use Rattle.relay_load.specs.{Counts.{summary_of}, Script.{load_script_of}, Texts.{load_text}};
ghost use Rattle.amt_command.specs.{Task.{IsInput, making, reading, error_line}, Ending.{EndsFor, LeavesDevices, TellsWhy}};

use crate::ending::Ending;
use crate::fault::{ending_of_difference, ending_of_fault};
use crate::task::{HasTask, TaskFault};
use crate::writing::write_text;
use amt_ports::{ReadAllFault, Sink, Source, read_all};
use relay_load::load;
use script_lines::RunFault;
use std::alloc::Global;

// Reads the input to its end, and then as what the command reads.
fn read_value<T: HasTask, S: Source>(
    task: &T,
    alloc: Global,
    input: &mut S,
) -> Result<T::Value, Ending>
    ensures found { IfOk result (λ value. IsInput (T.task task.now) (S.left input.old) (S.left input.new) value) }
    ensures writes { IfOk result (λ value. T.CanWrite value) }

    ensures no_usage { IsErrOf result Ending.Usage → ⊥ }
    ensures no_write { IsErrOf result Ending.WriteFault → ⊥ }
    ensures why { IfErr result (TellsWhy (T.task task.now) (S.left input.old) (S.left input.new)) }
    ensures read { IsErrOf result Ending.ReadFault
        → Rose (S.faults input.old) (S.faults input.new) }
    ensures calm { ¬ IsErrOf result Ending.ReadFault
        → S.faults input.new ≡ S.faults input.old }
    ensures too_long { IsErrOf result Ending.TooLong
        → TakesMore INPUT_LIMIT (S.left input.old) (S.left input.new) }
    ensures within { (IsErrOf result Ending.TooLong → ⊥)
        → TakesAtMost INPUT_LIMIT (S.left input.old) (S.left input.new) }
{
    let bytes = match read_all(alloc, input) {
        Ok(bytes) => bytes,
        Err(ReadAllFault::ReadFault) => return Err(Ending::ReadFault),
        Err(ReadAllFault::TooLong) => return Err(Ending::TooLong),
        Err(ReadAllFault::Memory) => return Err(Ending::Memory),
    };
    match task.read(alloc, bytes.as_slice()) {
        Ok(value) => Ok(value),
        Err(TaskFault::Fault(text)) => Err(ending_of_fault(alloc, text.as_slice())),
        Err(TaskFault::Memory) => Err(Ending::Memory),
    }
}

// The value is as it should be, or its difference ends the run.
fn check_value<T: HasTask>(task: &T, alloc: Global, value: &T::Value) -> Result<(), Ending>
    ensures agrees { OnOk result ((T.task task.now).difference value.now ≡ None) }
    ensures differs { IfErr result (λ ending. (ending ≡ Ending.Memory)
        ⊎ ((difference : List ℕ) × ((T.task task.now).difference value.now ≡ Some difference)
        × (ending ≡ Ending.Difference (error_line difference)))) }
{
    match task.difference(alloc, value) {
        Ok(None) => Ok(()),
        Ok(Some(difference)) => Err(ending_of_difference(alloc, difference.as_slice())),
        Err(_) => Err(Ending::Memory),
    }
}

/// Reads the input to its end and as what the command reads; only then something is written to `out`.
pub fn run_task<T: HasTask, S: Source, O: Sink>(
    task: &T,
    alloc: Global,
    input: &mut S,
    out: &mut O,
) -> Result<(), Ending>
    ensures no_usage { IsErrOf result Ending.Usage → ⊥ }
    ensures ends { EndsFor (reading T.Value (T.task task.now)) S.left S.faults O.written O.faults
        input.old input.new out.old out.new result }
    ensures devices { LeavesDevices S.left S.faults O.faults input.old input.new out.old out.new
        result }
{
    let value = match read_value(task, alloc, input) {
        Ok(value) => value,
        Err(ending) => return Err(ending),
    };
    match check_value(task, alloc, &value) {
        Ok(()) => {}
        Err(difference) => return Err(difference),
    }
    match task.write(alloc, &value, out) {
        Ok(()) => Ok(()),
        Err(RunFault::Write) => Err(Ending::WriteFault),
        Err(RunFault::Memory) => Err(Ending::Memory),
    }
}

/// Makes the relay script of a number, runs it, and writes the summary of its run.
pub fn write_load<S: Source, O: Sink>(
    alloc: Global,
    seed: u32,
    count: u32,
    input: &mut S,
    out: &mut O,
) -> Result<(), Ending>
    requires least { 1 ≤ count }
    requires most { count ≤ 65536 }
    ensures ends { EndsFor (making (load_text (summary_of (load_script_of seed count)))) S.left S.faults O.written O.faults
        input.old input.new out.old out.new result }
    ensures devices { LeavesDevices S.left S.faults O.faults input.old input.new out.old out.new
        result }
{
    let Ok(text) = load(alloc, seed, count) else {
        return Err(Ending::Memory);
    };
    match write_text(out, text.as_slice()) {
        Ok(()) => Ok(()),
        Err(_) => Err(Ending::WriteFault),
    }
}
