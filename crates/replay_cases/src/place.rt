//! Where a case stands.

use std::fmt;
use std::fmt::{Display, Formatter};

#[derive(Clone, Copy)]
pub struct Place<'a> {
    pub file: &'a str,
    pub name: &'a str,
}

impl<'a> Display for Place<'a> {
    fn fmt<W: fmt::Write>(&self, f: &mut Formatter<W>) -> fmt::Result {
        write!(f, "{}: {}", self.file, self.name)
    }
}
