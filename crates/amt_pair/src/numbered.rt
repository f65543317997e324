//! Items with numbers.

ghost use Rattle.std.specs.Prelude.{◌≡◌, [], ◌++◌, length, OnOk, OnErr, option_copied};
ghost use Rattle.amt_pair.specs.Schedule.{numbered};

use std::alloc::{AllocError, Global};
use std::marker::Model;

/// Items in order, of which the first has number 1.
#[derive(Debug, Drop)]
pub struct Numbered<T> {
    items: Vec<T>,
}

impl<T> Model for Numbered<T> {
    ghost use Rattle.std.specs.Prelude.{List};

    ghost Value = { List T };

    ghost view = { λ numbered. numbered.items.items };
}

impl<T: Drop> Numbered<T> {
    pub fn new(alloc: Global) -> Self
        ensures { result ≡ [] }
    {
        Numbered {
            items: Vec::new(alloc),
        }
    }

    pub fn len(&self) -> usize
        ensures { result ≡ length self.now }
    {
        self.items.len()
    }

    /// The item of this number.
    pub fn get(&self, number: u64) -> Option<&T>
        ensures { option_copied result ≡ numbered self.now number }
    {
        if number == 0 {
            return None;
        }
        self.items.get((number - 1) as usize)
    }

    /// Puts more items at the end. Out of memory nothing changes.
    pub fn append(&mut self, more: Vec<T>) -> Result<(), AllocError>
        ensures ok { OnOk result (self.new ≡ self.old ++ more.items) }
        ensures err { OnErr result (self.new ≡ self.old) }
    {
        let mut more = more;
        self.items.append(&mut more)
    }
}
