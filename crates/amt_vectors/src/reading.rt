//! Rows as a kind of script. It knows no answer.

ghost use Rattle.std.specs.Prelude.{◌≤◌, ◌+◌, length, All, IfOk, IfErr};
ghost use Rattle.script_lines.specs.Script.{Spells, IsErrorOf, RulesOutScripts, HasOneScript, HasOneFault};
ghost use Rattle.amt_vectors.specs.{Kind.{vector_kind}, Reading.{CanAsk}};

use crate::line::read_row;
use crate::row::Rows;
use script_lines::{LineError, Reason, ScriptError, ScriptKind, read_script};
use std::alloc::Global;

/// The rows so far.
#[derive(Debug, Drop)]
struct VectorLines {
    rows: Rows,
}

impl ScriptKind for VectorLines {
    ghost use Rattle.std.specs.Prelude.{◌≡◌};
    ghost use Rattle.amt_vectors.specs.{declared.row.Row.{Row as RowValue}, Kind.{vector_kind}};

    type Script = Rows;

    ghost Statement = { RowValue };

    ghost kind = { vector_kind };

    ghost HasHeard = { λ lines said. lines.rows ≡ said };

    fn start(alloc: Global) -> Self {
        VectorLines {
            rows: Rows::new(alloc),
        }
    }

    fn take(&mut self, alloc: Global, first: &[u8], rest: &[u8]) -> Result<(), LineError> {
        match read_row(alloc, first, rest) {
            Ok(row) => match self.rows.push(row) {
                Ok(()) => Ok(()),
                Err(_) => Err(LineError::Memory),
            },
            Err(error) => Err(error),
        }
    }

    fn finish(self) -> Result<Rows, Reason> {
        Ok(self.rows)
    }
}

/// Reads rows, of at most 16,777,216 octets.
pub fn read_rows(alloc: Global, bytes: &[u8]) -> Result<Rows, ScriptError>
    requires { length bytes.now ≤ 16777216 }
    ensures found { IfOk result (λ rows. Spells vector_kind rows bytes.now) }
    ensures asks { IfOk result (All CanAsk) }
    ensures count { IfOk result (λ rows. length rows ≤ length bytes.now + 1) }
    ensures fault { IfErr result (IsErrorOf vector_kind bytes.now) }
    ensures none { IfErr result (RulesOutScripts vector_kind bytes.now) }

    // The octets alone decide which rows are read, or which line and reason are reported.
    ensures one_list { HasOneScript vector_kind }
    ensures one_fault { HasOneFault vector_kind }
{
    read_script::<VectorLines>(alloc, bytes)
}
