//! What a run over rows reports, and its texts. It knows no row.

ghost use Rattle.std.specs.Prelude.{◌≡◌, IfOk};
ghost use Rattle.amt_vectors.specs.Texts.{bad_text, difference_of, suite_text};

use amt_values::{Bytes, append_numeral};
use std::alloc::{AllocError, Global};

/// The first row that doesn't pass.
#[derive(Debug, Drop)]
pub struct Bad {
    /// Its number, counted from 1 over the built-in rows and then those given.
    pub number: u32,
    /// The text of the answer that it wants.
    pub want: Bytes,
    /// That of the answer that is there.
    pub have: Bytes,
}

/// What a run over rows reports.
#[derive(Debug, Drop)]
pub struct SuiteReport {
    /// How many rows pass before the first that doesn't, or all.
    pub passed: u32,
    pub bad: Option<Bad>,
}

fn print_bad(alloc: Global, bad: &Bad) -> Result<Bytes, AllocError>
    ensures { IfOk result (λ text. text ≡ bad_text bad.now) }
{
    let mut text = Bytes::copied(alloc, b"vector ")?;
    append_numeral(&mut text, u64::from(bad.number))?;
    text.append(b" want ")?;
    text.append(bad.want.as_slice())?;
    text.append(b" have ")?;
    text.append(bad.have.as_slice())?;
    Ok(text)
}

impl SuiteReport {
    ghost use Rattle.std.specs.Prelude.{◌≡◌, IfOk};
    ghost use Rattle.amt_vectors.specs.Texts.{difference_of, suite_text};

    /// `passed N` and a line feed: the line of a run in which all rows pass.
    pub fn text(&self, alloc: Global) -> Result<Bytes, AllocError>
        ensures { IfOk result (λ text. text ≡ suite_text self.now) }
    {
        let mut text = Bytes::copied(alloc, b"passed ")?;
        append_numeral(&mut text, u64::from(self.passed))?;
        text.push(b'\n')?;
        Ok(text)
    }

    /// `vector K want TEXT have TEXT`, without a line feed, of the row that doesn't pass.
    pub fn difference(&self, alloc: Global) -> Result<Option<Bytes>, AllocError>
        ensures { IfOk result (λ text. text ≡ difference_of self.now) }
    {
        match &self.bad {
            None => Ok(None),
            Some(bad) => match print_bad(alloc, bad) {
                Ok(text) => Ok(Some(text)),
                Err(error) => Err(error),
            },
        }
    }
}
