//! Calls that are to succeed, since there is enough memory.

use std::process::Abort;

// It is called where memory ran out, since a test that returns a result is proved twice.
pub fn is_out_of_memory(rt: &impl Abort, what: &str) {
    assert!(rt; false, "out of memory: {what}");
}
