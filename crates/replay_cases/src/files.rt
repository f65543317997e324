//! The files that have cases.

use std::alloc::{AllocError, Global};
use std::rt::{Env, Files};
use std::{env, fs, io};

/// What the arguments name, or without arguments each file of this folder that ends in `.cases`, in the
/// order of their names.
pub fn case_files<R: Env + Files + AllocGlobal + Clone + Drop>(rt: &R) -> io::Result<Vec<String>> {
    let named = arguments(rt)?;
    if named.is_empty() {
        return lying_here(rt);
    }
    Ok(named)
}

/// A file's text, after a line end: so a case that is the first line begins as any other does.
pub fn text_of<R: Files + AllocGlobal>(rt: &R, file: &str) -> io::Result<String> {
    let text = fs::read_to_string(rt, file)?;
    Ok(format!(in rt.alloc(); "\n{text}")?)
}

fn arguments<R: Env + AllocGlobal>(rt: &R) -> io::Result<Vec<String>> {
    let mut arguments = Vec::new(rt.alloc());
    for argument in env::args(rt)?.skip(1) {
        arguments.push(argument)?;
    }
    Ok(arguments)
}

fn lying_here<R: Files + AllocGlobal + Clone + Drop>(rt: &R) -> io::Result<Vec<String>> {
    let mut names = Vec::new(rt.alloc());
    for entry in fs::read_dir(rt, ".")? {
        push_case_file(rt.alloc(), &mut names, entry?.file_name())?;
    }
    names.sort_unstable();
    Ok(names)
}

fn push_case_file(alloc: Global, names: &mut Vec<String>, name: &str) -> Result<(), AllocError> {
    if name.ends_with(".cases") {
        names.push(String::from_str(alloc, name)?)?;
    }
    Ok(())
}
