//! Runs over rows. It knows no line.

ghost use Rattle.std.specs.Prelude.{◌≡◌, ◌+◌, ◌++◌, ◌≤◌, length, All, IfOk, IfErr, MatchOption};
ghost use Rattle.script_lines.specs.Script.{IsErrorOf, RulesOutScripts, HasOneFault};
ghost use Rattle.amt_vectors.specs.{declared.report.SuiteReport.{SuiteReport as ReportValue}, Kind.{vector_kind}, Reading.{CanAsk, IsOther, IsReportAfter}, Report.{IsBadRow, IsReportOf, IsVectorsReport, Passes}};

use crate::answer::answer;
use crate::built_in::built_in_rows;
use crate::reading::read_rows;
use crate::report::{Bad, SuiteReport};
use crate::row::Row;
use amt_values::Bytes;
use script_lines::ScriptError;
use std::alloc::{AllocError, Global};

// The answer that is there, where it isn't the one that the row wants.
fn other_answer(alloc: Global, row: &Row) -> Result<Option<Bytes>, AllocError>
    requires { CanAsk row.now }
    ensures { IfOk result (λ other. MatchOption other (Passes row.now) (IsOther row.now)) }
{
    let have = answer(alloc, &row.question)?;
    if have.as_slice() == row.want.as_slice() {
        Ok(None)
    } else {
        Ok(Some(have))
    }
}

// What is reported of a row of this number that has another answer.
fn bad_row(alloc: Global, number: u32, row: &Row, have: Bytes) -> Result<Bad, AllocError>
    requires { IsOther row.now have }
    ensures { IfOk result (IsBadRow number row.now) }
{
    let want = Bytes::copied(alloc, row.want.as_slice())?;
    Ok(Bad { number, want, have })
}

// The report of rows, where so many rows have passed before them.
fn report_after(alloc: Global, count: u32, rows: &[Row]) -> Result<SuiteReport, AllocError>
    requires few { count + length rows.now ≤ 4294967294 }
    requires asks { All CanAsk rows.now }
    ensures { IfOk result (IsReportAfter count rows.now) }
{
    let mut passed = count;
    for row in rows {
        match other_answer(alloc, row)? {
            None => passed += 1,
            Some(have) => {
                let bad = bad_row(alloc, passed + 1, row, have)?;
                return Ok(SuiteReport {
                    passed,
                    bad: Some(bad),
                });
            }
        }
    }
    Ok(SuiteReport { passed, bad: None })
}

// The report of rows that are given first, and then of others.
fn report_of_both(alloc: Global, given: &[Row], rows: &[Row]) -> Result<SuiteReport, AllocError>
    requires given_few { length given.now ≤ 1001 }
    requires given_ask { All CanAsk given.now }
    requires few { length rows.now ≤ 16777217 }
    requires ask { All CanAsk rows.now }
    ensures { IfOk result (IsReportOf (given.now ++ rows.now)) }
{
    let report = report_after(alloc, 0, given)?;
    match report.bad {
        Some(_) => Ok(report),
        None => report_after(alloc, report.passed, rows),
    }
}

/// Runs the built-in rows, and then those that these octets spell, of which there are at most 16,777,216.
///
/// A row that doesn't pass ends the run; octets that spell no rows are an error, whatever the built-in rows give.
pub fn run_suite(alloc: Global, rows: &[u8]) -> Result<SuiteReport, ScriptError>
    requires { length rows.now ≤ 16777216 }
    ensures found { IfOk result (λ report. IsVectorsReport report rows.now) }
    ensures fault { IfErr result (IsErrorOf vector_kind rows.now) }
    ensures none { IfErr result (RulesOutScripts vector_kind rows.now) }

    // The octets alone decide which report is made, or which line and reason are reported.
    ensures one_report { (one other : ReportValue) → IsVectorsReport one rows.now → IsVectorsReport other rows.now → one ≡ other }
    ensures one_fault { HasOneFault vector_kind }
{
    let read = match read_rows(alloc, rows) {
        Ok(read) => read,
        Err(error) => return Err(error),
    };
    let Ok(given) = built_in_rows(alloc) else {
        return Err(ScriptError::Memory);
    };
    match report_of_both(alloc, given.as_slice(), read.as_slice()) {
        Ok(report) => Ok(report),
        Err(_) => Err(ScriptError::Memory),
    }
}
