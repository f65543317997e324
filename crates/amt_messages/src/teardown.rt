//! A Teardown of octets, and the octets of a Teardown.

ghost use Rattle.std.specs.Prelude.{◌≡◌, ◌≤◌, length, IfOk};
ghost use Rattle.amt_messages.specs.{declared.message.Message.TheVariants.{Teardown}, Layout.{IsCanonical, spelling_of}, Refusal.{teardown_at}};

use crate::fields::{gateway_at, mac_at};
use crate::head::{append_gateway, write_head};
use crate::message::Message;
use amt_values::{Bytes, Endpoint, Mac48, u32_at};
use std::alloc::{AllocError, Global};

pub fn read_teardown(bytes: &[u8]) -> Message
    requires { 30 ≤ length bytes.now }
    ensures { result ≡ teardown_at bytes.now }
{
    Message::Teardown {
        mac: mac_at(bytes, 2),
        nonce: u32_at(bytes, 8),
        gateway: gateway_at(bytes, 0),
    }
}

#[tactic(auto, using(crate::proofs::Written::written_teardown))]
pub fn write_teardown(
    alloc: Global,
    mac: &Mac48,
    nonce: u32,
    gateway: &Endpoint,
) -> Result<Bytes, AllocError>
    ensures written { IfOk result (λ bytes. bytes ≡ spelling_of
        (Teardown mac.now nonce gateway.now)) }
    ensures canonical { IfOk result (λ bytes. IsCanonical
        (Teardown mac.now nonce gateway.now) bytes) }
{
    let mut bytes = write_head(alloc, 7, 0, mac, nonce)?;
    append_gateway(&mut bytes, gateway)?;
    Ok(bytes)
}
