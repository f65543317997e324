//! The status that a process ends with. No call outside makes one.

ghost use Rattle.std.specs.{Prelude.{◌≡◌}, Process.{exit_status}};
ghost use Rattle.amt_command.specs.Exit.{status_in};

use std::io::Eprint;
use std::process::{ExitCode, Termination};

/// The status that a run of `amt` ended with, as the process ends with it.
///
/// No call outside this crate makes one, so a `main` that answers an `Exit` can't make up a status.
#[derive(Drop)]
pub struct Exit {
    status: u8,
}

impl Exit {
    pub(crate) fn of(status: u8) -> Exit
        ensures { status_in result ≡ status }
    {
        Exit { status }
    }
}

impl Termination for Exit {
    fn report<R: Eprint>(self, _rt: &R) -> ExitCode
        ensures { exit_status result ≡ status_in self }
    {
        ExitCode::from(self.status)
    }
}
