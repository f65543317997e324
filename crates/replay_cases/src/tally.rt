//! How many cases there were.

use std::process::ExitCode;

#[derive(Clone, Copy)]
pub struct Tally {
    pub cases: u64,
    /// The cases that differ, and the files that have none.
    pub differing: u64,
}

impl Tally {
    pub fn new() -> Tally {
        Tally {
            cases: 0,
            differing: 0,
        }
    }

    pub fn count(&mut self, differs: bool) {
        self.cases = self.cases.saturating_add(1);
        if differs {
            self.differing = self.differing.saturating_add(1);
        }
    }

    pub fn exit_code(&self) -> ExitCode {
        if self.differing == 0 {
            ExitCode::SUCCESS
        } else {
            ExitCode::FAILURE
        }
    }
}
