//! The numbers of the lines that say something.

ghost use Rattle.std.specs.{Prelude.{◌≡◌, ◌≤◌, ◌++◌, length, IfOk, OnOk}, Str.Lines.{lines}};
ghost use Rattle.amt_dump.specs.Lines.{number_that_says, numbers_that_say};

use amt_values::Items;
use script_lines::{next_line, split_statement};
use std::alloc::{AllocError, Global};

/// Numbers of lines, ascending.
pub type Numbers = Items<u32>;

// Puts the number of a line at the end, where the line says something.
fn note_line(numbers: &mut Numbers, number: u32, line: &[u8]) -> Result<(), AllocError>
    ensures { OnOk result (numbers.new ≡ numbers.old ++ number_that_says number line.now) }
{
    match split_statement(line) {
        Some(_) => numbers.push(number),
        None => Ok(()),
    }
}

/// The numbers of the lines that say something, counted from 1.
pub fn numbers_that_say(alloc: Global, bytes: &[u8]) -> Result<Numbers, AllocError>
    requires { length bytes.now ≤ 16777216 }
    ensures { IfOk result (λ numbers. numbers ≡ numbers_that_say 1 (lines bytes.now)) }
{
    let mut numbers = Numbers::new(alloc);
    let mut number = 1;
    let mut left = bytes;
    while !left.is_empty() {
        let (line, rest) = next_line(left);
        note_line(&mut numbers, number, line)?;
        number += 1;
        left = rest;
    }
    Ok(numbers)
}
