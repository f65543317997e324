//! The octets of a Request.

ghost use Rattle.std.specs.Prelude.{◌≡◌, ◌∷◌, ◌≤◌, length, IfOk};
ghost use Rattle.byteorder.specs.Endian.{big_bytes};
ghost use Rattle.amt_messages.specs.declared.message.Message.TheVariants.{Request};
ghost use Rattle.gateway_machine.specs.Sends.{octets_of};

use amt_messages::{Message, encode};
use amt_values::Bytes;
use std::alloc::{AllocError, Global};

// How a Request for MLD that is for a Linux relay begins: its type, and the P flag at the other end of its octet.
const LINUX_HEAD: [u8; 4] = [3, 0x80, 0, 0];

fn write_for_linux(alloc: Global, nonce: u32) -> Result<Bytes, AllocError>
    ensures { IfOk result (λ bytes. bytes ≡ 3 ∷ 0x80 ∷ 0 ∷ 0 ∷ big_bytes 4 nonce) }
{
    let mut bytes = Bytes::with_room(alloc, 8)?;
    bytes.append(&LINUX_HEAD)?;
    bytes.append(&nonce.to_be_bytes())?;
    Ok(bytes)
}

/// The octets of a Request for MLD or for IGMP, which may be for a Linux relay.
pub fn write_request(
    alloc: Global,
    v6: bool,
    nonce: u32,
    for_linux: bool,
) -> Result<Bytes, AllocError>
    ensures written { IfOk result (λ bytes. bytes ≡ octets_of (Request v6 nonce) for_linux) }
    ensures most { IfOk result (λ bytes. length bytes ≤ 65535) }
{
    if v6 && for_linux {
        return write_for_linux(alloc, nonce);
    }
    encode(alloc, &Message::Request { v6, nonce })
}
