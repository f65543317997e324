//! Headers and payload as one datagram.

ghost use Rattle.std.specs.Prelude.{◌≡◌, ◌≤◌, ◌++◌, length, IfOk};

use amt_values::Bytes;
use std::alloc::{AllocError, Global};

/// The most bytes of payload that a datagram is written with; with its headers they fit the 16 bits
/// of either version's length.
pub const PAYLOAD_LIMIT: usize = 60_000;

// The bytes of a datagram: its headers, and then its payload.
pub fn written_after(alloc: Global, headers: &[u8], payload: &[u8]) -> Result<Bytes, AllocError>
    requires headers_limit { length headers.now ≤ 60 }
    requires payload_limit { length payload.now ≤ PAYLOAD_LIMIT }
    ensures { IfOk result (λ bytes. bytes ≡ headers.now ++ payload.now) }
{
    let mut bytes = Vec::with_capacity(alloc, headers.len() + payload.len())?;
    bytes.extend_from_slice(headers)?;
    bytes.extend_from_slice(payload)?;
    Ok(Bytes::from(bytes))
}
