//! The order of what devices sent.

use amt_values::Bytes;
use std::alloc::{AllocError, Global};

// The most links out that a relay has.
const MOST_OUTS: u8 = 64;

// The lines with this mark.
fn append_marked(text: &mut Bytes, lines: &[u8], mark: &str) -> Result<(), AllocError> {
    for line in lines.split(|octet| *octet == b'\n') {
        if line.starts_with(mark.as_bytes()) {
            text.append(line)?;
            text.push(b'\n')?;
        }
    }
    Ok(())
}

fn append_out(alloc: Global, text: &mut Bytes, lines: &[u8], number: u8) -> Result<(), AllocError> {
    let mark = format!(in alloc; "={number} ")?;
    append_marked(text, lines, mark.as_str())
}

/// The lines of the link, then those of each link out, and then the answers of a control socket.
pub fn in_order_of_devices(alloc: Global, lines: &[u8]) -> Result<Bytes, AllocError> {
    let mut text = Bytes::new(alloc);
    append_marked(&mut text, lines, "= ")?;
    for number in 1..=MOST_OUTS {
        append_out(alloc, &mut text, lines, number)?;
    }
    append_marked(&mut text, lines, "=? ")?;
    Ok(text)
}
