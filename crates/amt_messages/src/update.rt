//! An Update of octets, and the octets of an Update.

ghost use Rattle.std.specs.Prelude.{◌≡◌, ◌≤◌, length, Ok, IfOk};
ghost use Rattle.amt_values.specs.Answer.{Gives};
ghost use Rattle.amt_messages.specs.{declared.message.Message.TheVariants.{Update}, Layout.{IsCanonical, spelling_of}, Refusal.{TakesMemory, refusal_in, update_at}};

use crate::fields::mac_at;
use crate::head::write_head;
use crate::message::Message;
use crate::refusal::DecodeFault;
use amt_values::{Bytes, Mac48, u32_at};
use std::alloc::{AllocError, Global};

pub fn read_update(alloc: Global, bytes: &[u8]) -> Result<Message, DecodeFault>
    requires { 12 ≤ length bytes.now }
    ensures { Gives refusal_in TakesMemory result (Ok (update_at bytes.now)) }
{
    let (_, datagram) = bytes.split_at(12);
    let Ok(inner) = Bytes::copied(alloc, datagram) else {
        return Err(DecodeFault::Memory);
    };
    Ok(Message::Update {
        mac: mac_at(bytes, 2),
        nonce: u32_at(bytes, 8),
        inner,
    })
}

#[tactic(auto, using(crate::proofs::Written::written_update))]
pub fn write_update(
    alloc: Global,
    mac: &Mac48,
    nonce: u32,
    inner: &Bytes,
) -> Result<Bytes, AllocError>
    ensures written { IfOk result (λ bytes. bytes ≡ spelling_of
        (Update mac.now nonce inner.now)) }
    ensures canonical { IfOk result (λ bytes. IsCanonical
        (Update mac.now nonce inner.now) bytes) }
{
    let mut bytes = write_head(alloc, 5, 0, mac, nonce)?;
    bytes.append(inner.as_slice())?;
    Ok(bytes)
}
