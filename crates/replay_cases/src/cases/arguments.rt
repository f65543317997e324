//! The arguments of a command line.

use crate::cases::LineFault;
use std::alloc::{AllocError, Global};

fn push_argument(
    alloc: Global,
    arguments: &mut Vec<String>,
    argument: &str,
) -> Result<(), AllocError> {
    arguments.push(String::from_str(alloc, argument)?)?;
    Ok(())
}

fn push_words(alloc: Global, arguments: &mut Vec<String>, words: &str) -> Result<(), AllocError> {
    for word in words.split_whitespace() {
        push_argument(alloc, arguments, word)?;
    }
    Ok(())
}

/// Words between spaces; and between two marks `'` one argument, which may be empty or have spaces.
pub fn read_arguments(alloc: Global, line: &str) -> Result<Vec<String>, LineFault> {
    let mut arguments = Vec::new(alloc);
    let mut is_quoted = false;
    for part in line.split('\'') {
        if is_quoted {
            push_argument(alloc, &mut arguments, part)?;
        } else {
            push_words(alloc, &mut arguments, part)?;
        }
        is_quoted = !is_quoted;
    }
    // The part after the last mark is no quoted one.
    if is_quoted {
        Ok(arguments)
    } else {
        Err(LineFault::Malformed)
    }
}
