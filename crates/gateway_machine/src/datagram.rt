//! What a datagram comes to: its octets, its type, and the message by its own file.

ghost use Rattle.std.specs.Prelude.{◌≤◌, length, IsOk, Ok};
ghost use Rattle.amt_messages.specs.{Messages.{IsSendable}, Refusal.{TakesMemory, message_of}};
ghost use Rattle.socket_merge.specs.Sockets.{ForHistory};
ghost use Rattle.gateway_machine.specs.{Answers.{datagram_answer}, Outcomes.{IsRefused}, Taken.{Replies}};

use crate::advertisement::take_advertisement;
use crate::multicast::take_packet;
use crate::outcome::Ignored;
use crate::query::take_query;
use crate::reply::Reply;
use crate::situation::Situation;
use amt_messages::{DecodeFault, Message, decode};
use amt_values::Peer;
use std::alloc::{AllocError, Global};

// What a message from this peer comes to.
fn take_message(
    alloc: Global,
    here: &Situation<'_>,
    from: &Peer,
    message: Message,
) -> Result<Reply, AllocError>
    requires { IsSendable message }
    ensures answers { Replies here.now.sockets.now result (λ history.
        datagram_answer here.now.settings here.now.exchange history from.now (Ok message)) }
    ensures ignored { ForHistory here.now.sockets.now (λ history. IsRefused
        (datagram_answer here.now.settings here.now.exchange history from.now (Ok message)).outcome
        → (¬ TakesMemory (Ok message)) → IsOk result) }
{
    let exchange = &here.exchange;
    match message {
        Message::Advertisement { nonce, relay } => {
            take_advertisement(alloc, &here.settings, exchange, nonce, relay)
        }
        Message::Query {
            mac,
            nonce,
            inner,
            seen,
            ..
        } => {
            let inner = inner.as_slice();
            take_query(alloc, here, from, mac, nonce, inner, seen)
        }
        Message::Multicast { packet } => Ok(take_packet(alloc, here, from, packet)),
        Message::Discovery { .. } => Ok(Reply::ignored(alloc, exchange, Ignored::Kind(1))),
        Message::Request { .. } => Ok(Reply::ignored(alloc, exchange, Ignored::Kind(3))),
        Message::Update { .. } => Ok(Reply::ignored(alloc, exchange, Ignored::Kind(5))),
        Message::Teardown { .. } => Ok(Reply::ignored(alloc, exchange, Ignored::Kind(7))),
    }
}

/// What a datagram comes to.
pub fn take_datagram(
    alloc: Global,
    here: &Situation<'_>,
    from: &Peer,
    bytes: &[u8],
) -> Result<Reply, AllocError>
    requires { length bytes.now ≤ 65535 }
    ensures answers { Replies here.now.sockets.now result (λ history.
        datagram_answer here.now.settings here.now.exchange history from.now (message_of bytes.now)) }
    ensures ignored { ForHistory here.now.sockets.now (λ history. IsRefused
        (datagram_answer here.now.settings here.now.exchange history from.now (message_of bytes.now)).outcome
        → (¬ TakesMemory (message_of bytes.now)) → IsOk result) }
{
    match decode(alloc, bytes) {
        Err(DecodeFault::Memory) => Err(AllocError),
        Err(DecodeFault::Refused(refusal)) => {
            Ok(Reply::ignored(alloc, &here.exchange, Ignored::Undecoded(refusal)))
        }
        Ok(message) => take_message(alloc, here, from, message),
    }
}
