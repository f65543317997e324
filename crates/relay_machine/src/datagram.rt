//! What a datagram comes to: its source, its octets, its type, and the message by its own file.
ghost use Rattle.std.specs.Prelude.{◌≡◌, ◌≤◌, length, IfOk, OnErr};
ghost use Rattle.amt_messages.specs.{Messages.{IsSendable}, Refusal.{message_of}};
ghost use Rattle.amt_values.specs.{Endpoint.{endpoint_of}, Octets.{AreOctets}};
ghost use Rattle.endpoint_membership.specs.{Log.{latest}, Table.{IsWithinLimits}};
ghost use Rattle.relay_machine.specs.{EventAnswer.{datagram_answer, message_answer}, Logs.{AnswersByLog, settings_in_force}, Sends.{AreShort}, Settings.{table_settings_of}};

use crate::discovery::take_discovery;
use crate::outcome::Outcome;
use crate::request::take_request;
use crate::sends::Step;
use crate::setup::Setup;
use crate::teardown::take_teardown;
use crate::update::take_update;
use amt_messages::{DecodeFault, Message, decode};
use amt_values::{Bytes, Endpoint, Peer};
use endpoint_membership::Table;
use response_mac::Secrets;
use std::alloc::{AllocError, Global};

// An Update needs the MAC of its source, and a Teardown that of the endpoint that it names, whatever
// its source.
fn take_message(
    alloc: Global,
    setup: &Setup,
    secrets: &Secrets,
    table: &mut Table,
    octets: &[u8],
    source: Endpoint,
    message: &Message,
) -> Result<Step, AllocError>
    requires sendable { IsSendable message.now }
    requires within { IsWithinLimits table.old }
    ensures answers { AnswersByLog (table_settings_of setup.now.settings) table.old table.new result (λ log.
        message_answer (settings_in_force setup.now.settings table.old) secrets.now (latest log) log
        octets.now source message.now) }
    ensures err { OnErr result (table.new ≡ table.old) }
    ensures within { IsWithinLimits table.new }
    ensures short { IfOk result (λ step. AreShort step.sends) }
{
    match message {
        Message::Discovery { nonce } => take_discovery(alloc, setup, source, *nonce),
        Message::Request { v6, nonce } => {
            let mld = setup.asks_for_mld(octets, *v6);
            take_request(alloc, setup, secrets, table, source, mld, *nonce)
        }
        Message::Update { mac, nonce, inner } => {
            let good = secrets.matches(&source, *nonce, mac);
            take_update(alloc, table, source, good, inner)
        }
        Message::Teardown {
            mac,
            nonce,
            gateway,
        } => {
            let good = secrets.matches(gateway, *nonce, mac);
            Ok(take_teardown(alloc, table, *gateway, good))
        }
        Message::Advertisement { .. } => Ok(Step::quiet(alloc, Outcome::WrongKind(2))),
        Message::Query { .. } => Ok(Step::quiet(alloc, Outcome::WrongKind(4))),
        Message::Multicast { .. } => Ok(Step::quiet(alloc, Outcome::WrongKind(6))),
    }
}

// What a datagram comes to: its source is judged first, then its octets, then its type.
pub fn take_datagram(
    alloc: Global,
    setup: &Setup,
    secrets: &Secrets,
    table: &mut Table,
    from: &Peer,
    bytes: &Bytes,
) -> Result<Step, AllocError>
    requires size { length bytes.now ≤ 65535 }
    requires within { IsWithinLimits table.old }
    ensures answers { AnswersByLog (table_settings_of setup.now.settings) table.old table.new result (λ log.
        datagram_answer (settings_in_force setup.now.settings table.old) secrets.now (latest log) log
        bytes.now (endpoint_of from.now) (message_of bytes.now)) }
    ensures err { OnErr result (table.new ≡ table.old) }
    ensures within { IsWithinLimits table.new }
    ensures short { IfOk result (λ step. AreShort step.sends) }
    ensures octets { AreOctets bytes.now }
{
    let octets = bytes.as_slice();
    let Some(source) = Endpoint::of(from) else {
        return Ok(Step::quiet(alloc, Outcome::BadSource));
    };
    match decode(alloc, octets) {
        Err(DecodeFault::Memory) => Err(AllocError),
        Err(DecodeFault::Refused(refusal)) => Ok(Step::quiet(alloc, Outcome::Undecoded(refusal))),
        Ok(message) => take_message(alloc, setup, secrets, table, octets, source, &message),
    }
}
