//! Multicast Data of octets, and its octets.

ghost use Rattle.std.specs.Prelude.{◌≡◌, ◌≤◌, length, Ok, IfOk};
ghost use Rattle.amt_values.specs.Answer.{Gives};
ghost use Rattle.amt_messages.specs.{declared.message.Message.TheVariants.{Multicast}, Layout.{IsCanonical, spelling_of}, Refusal.{TakesMemory, multicast_at, refusal_in}};

use crate::message::Message;
use crate::refusal::DecodeFault;
use amt_values::Bytes;
use std::alloc::{AllocError, Global};

pub fn read_multicast(alloc: Global, bytes: &[u8]) -> Result<Message, DecodeFault>
    requires { 2 ≤ length bytes.now }
    ensures { Gives refusal_in TakesMemory result (Ok (multicast_at bytes.now)) }
{
    let (_, rest) = bytes.split_at(2);
    let Ok(packet) = Bytes::copied(alloc, rest) else {
        return Err(DecodeFault::Memory);
    };
    Ok(Message::Multicast { packet })
}

pub fn write_multicast(alloc: Global, packet: &Bytes) -> Result<Bytes, AllocError>
    ensures written { IfOk result (λ bytes. bytes ≡ spelling_of (Multicast packet.now)) }
    ensures canonical { IfOk result (λ bytes. IsCanonical (Multicast packet.now) bytes) }
{
    let mut bytes = Bytes::with_room(alloc, packet.len().saturating_add(2))?;
    bytes.append(&[6, 0])?;
    bytes.append(packet.as_slice())?;
    Ok(bytes)
}
