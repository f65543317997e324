//! Octets read as a message.

ghost use Rattle.std.specs.Prelude.{◌≡◌, ◌≤◌, ◌↔◌, ◌⊎◌, length, IfOk, Ok, MatchResult, None};
ghost use Rattle.amt_values.specs.Answer.{Gives};
ghost use Rattle.amt_messages.specs.{declared.message.Message.{Message as MessageValue}, Messages.{IsMessage, IsSendable}, Layout.{Spells, spelling_of}, Refusal.{TakesMemory, advertisement_at, discovery_at, first_refusal, message_at, message_of, refusal_in, request_at}};

use crate::fields::{asks_for_ipv6, relay_at};
use crate::message::Message;
use crate::multicast::read_multicast;
use crate::query::read_query;
use crate::refusal::{DecodeFault, first_refusal};
use crate::teardown::read_teardown;
use crate::update::read_update;
use amt_values::u32_at;
use std::alloc::Global;

fn read_discovery(bytes: &[u8]) -> Message
    requires { 8 ≤ length bytes.now }
    ensures { result ≡ discovery_at bytes.now }
{
    Message::Discovery {
        nonce: u32_at(bytes, 4),
    }
}

fn read_advertisement(bytes: &[u8]) -> Message
    requires { (length bytes.now ≡ 12) ⊎ (length bytes.now ≡ 24) }
    ensures { result ≡ advertisement_at bytes.now }
{
    Message::Advertisement {
        nonce: u32_at(bytes, 4),
        relay: relay_at(bytes),
    }
}

fn read_request(bytes: &[u8]) -> Message
    requires { 8 ≤ length bytes.now }
    ensures { result ≡ request_at bytes.now }
{
    Message::Request {
        v6: asks_for_ipv6(bytes),
        nonce: u32_at(bytes, 4),
    }
}

// The message of octets that nothing refuses.
fn read_unrefused(alloc: Global, bytes: &[u8]) -> Result<Message, DecodeFault>
    requires { first_refusal bytes.now ≡ None }
    ensures { Gives refusal_in TakesMemory result (Ok (message_at bytes.now)) }
{
    match bytes[0] {
        1 => Ok(read_discovery(bytes)),
        2 => Ok(read_advertisement(bytes)),
        3 => Ok(read_request(bytes)),
        4 => read_query(alloc, bytes),
        5 => read_update(alloc, bytes),
        6 => read_multicast(alloc, bytes),
        _ => Ok(read_teardown(bytes)),
    }
}

#[tactic(auto, unfolding(crate::specs::Refusal::message_of))]
fn read(alloc: Global, bytes: &[u8]) -> Result<Message, DecodeFault>
    requires { length bytes.now ≤ 65535 }
    ensures { Gives refusal_in TakesMemory result (message_of bytes.now) }
{
    match first_refusal(bytes) {
        Some(refusal) => Err(DecodeFault::Refused(refusal)),
        None => read_unrefused(alloc, bytes),
    }
}

/// Reads a whole datagram of at most 65,535 octets as one message.
///
/// Reserved bits are ignored. The refusals are tried in the order of `Refused`. Memory is asked for
/// the inner datagram of a Query or an Update, and for the packet of Multicast Data; for nothing else.
#[tactic(auto, using(crate::proofs::Answered::answers))]
pub fn decode(alloc: Global, bytes: &[u8]) -> Result<Message, DecodeFault>
    requires { length bytes.now ≤ 65535 }
    ensures found { IfOk result (λ message. Spells message bytes.now) }
    ensures only { (message : MessageValue) → Spells message bytes.now
        → Gives refusal_in TakesMemory result (Ok message) }
    ensures back { (message : MessageValue) → IsMessage message → IsSendable message
        → bytes.now ≡ spelling_of message
        → Gives refusal_in TakesMemory result (Ok message) }
    ensures sendable { IfOk result (λ message. IsSendable message) }
    ensures one { (message other : MessageValue) → Spells message bytes.now → Spells other bytes.now
        → message ≡ other }

    ensures refused { MatchResult result (λ _. first_refusal bytes.now ≡ None)
        (λ fault. first_refusal bytes.now ≡ refusal_in fault) }
    ensures value { Gives refusal_in TakesMemory result (message_of bytes.now) }

    // Of the octets alone, whatever is answered, also where there is no memory: nothing refuses them
    // exactly where some message spells them, and that message is the one that is read.
    ensures spelled { (first_refusal bytes.now ≡ None)
        ↔ ((message : MessageValue) × Spells message bytes.now) }
    ensures exact { (message : MessageValue)
        → (Spells message bytes.now ↔ (message_of bytes.now ≡ Ok message)) }
{
    read(alloc, bytes)
}
