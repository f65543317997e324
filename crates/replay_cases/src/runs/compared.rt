//! The lines of an output that a case compares.

use amt_values::Bytes;
use std::alloc::{AllocError, Global};

fn has_a_text(line: &str, texts: &[String]) -> bool {
    texts.iter().any(|text| line.contains(text.as_str()))
}

fn append_if_compared(kept: &mut Bytes, line: &str, texts: &[String]) -> Result<(), AllocError> {
    if has_a_text(line, texts) {
        kept.append(line.as_bytes())?;
        kept.push(b'\n')?;
    }
    Ok(())
}

fn lines_with(alloc: Global, output: &str, texts: &[String]) -> Result<Bytes, AllocError> {
    let mut kept = Bytes::new(alloc);
    for line in output.lines() {
        append_if_compared(&mut kept, line, texts)?;
    }
    Ok(kept)
}

/// The lines that have one of these texts, or without texts the whole output.
pub fn compared(alloc: Global, output: &[u8], texts: &[String]) -> Result<Bytes, AllocError> {
    if texts.is_empty() {
        return Bytes::copied(alloc, output);
    }
    let output = String::from_utf8_lossy(alloc, output)?;
    lines_with(alloc, output.as_str(), texts)
}
