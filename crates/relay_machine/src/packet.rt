//! To whom a packet is copied. It reads the packet's head, and leaves the relay as it was.
ghost use Rattle.std.specs.Prelude.{◌≡◌, ◌≤◌, [], length, nat_lt, IfOk};
ghost use Rattle.endpoint_membership.specs.{Log.{latest}, Table.{ForLogBy, IsWithinLimits, TableSettings}};
ghost use Rattle.relay_machine.specs.{EventAnswer.{packet_answer}, Logs.{AnswersByLog, IfOkForLogBy}, Packets.{copies, head_to_copy, targets_at}, Sends.{AreShort}, Settings.{table_settings_of}, State.{HasLog}};

use crate::outcome::{NotForwarded, Outcome};
use crate::sends::{OneSend, Sends, Step};
use crate::setup::Setup;
use amt_messages::{Message, encode};
use amt_values::{Bytes, Endpoint, forwardable};
use endpoint_membership::{Table, Targets};
use inner_datagrams::{Head, packet_head};
use std::alloc::{AllocError, Global};

fn is_too_big(limit: u32, packet: &[u8]) -> bool
    ensures { result ≡ nat_lt limit (length packet.now) }
{
    packet.len() > limit as usize
}

// The source and the group of a packet that is copied: it isn't too long, and begins with a head
// whose group is forwarded.
fn head_to_copy(limit: u32, packet: &[u8]) -> Result<Head, Outcome>
    requires { length packet.now ≤ 65535 }
    ensures { result ≡ head_to_copy limit packet.now }
{
    if is_too_big(limit, packet) {
        return Err(Outcome::TooBig(packet.len() as u32));
    }
    match packet_head(packet) {
        Err(fault) => Err(Outcome::NotForwarded(NotForwarded::Head(fault))),
        Ok(head) => {
            if forwardable(&head.group) {
                Ok(head)
            } else {
                Err(Outcome::NotForwarded(NotForwarded::Scope(head.group)))
            }
        }
    }
}

// Puts in the endpoints that want the source in the group at the table's moment. There is room for
// them all, so this takes no memory.
fn find_targets(table: &Table, head: &Head, targets: &mut Targets)
    requires within { IsWithinLimits table.now }
    requires room { table.now.limits.endpoints ≤ targets.old.room }
    ensures wanted { (terms : TableSettings) → ForLogBy terms table.now (λ log.
        targets.new.endpoints ≡ targets_at terms log (latest log) head.now) }
    ensures few { length targets.new.endpoints ≤ table.now.limits.endpoints }
    ensures room { targets.new.room ≡ targets.old.room }
{
    table.admitting_into(&head.group, &head.source, &table.now(), targets);
}

// The packet to each of these endpoints. What carries it is the same for all, and is written once.
#[tactic(auto, using(crate::proofs::Copies::copies_are_short))]
fn copies(alloc: Global, targets: &[Endpoint], packet: &[u8]) -> Result<Sends, AllocError>
    requires { length packet.now ≤ 65000 }
    ensures copies { IfOk result (λ sends. sends ≡ copies targets.now packet.now) }
    ensures short { IfOk result AreShort }
{
    let packet = Bytes::copied(alloc, packet)?;
    let data = encode(alloc, &Message::Multicast { packet })?;
    let mut sends = Sends::with_room(alloc, targets.len())?;
    for to in targets {
        let bytes = Bytes::copied(alloc, data.as_slice())?;
        sends.push(OneSend { to: *to, bytes })?;
    }
    Ok(sends)
}

// The packet to each endpoint that wants its source in its group at the table's moment. No target is
// kept, not even where memory ran out, since a relay that keeps any isn't as before.
fn copies_for(
    alloc: Global,
    table: &Table,
    targets: &mut Targets,
    head: &Head,
    packet: &[u8],
) -> Result<Sends, AllocError>
    requires within { IsWithinLimits table.now }
    requires room { table.now.limits.endpoints ≤ targets.old.room }
    requires size { length packet.now ≤ 65000 }
    ensures copies { (terms : TableSettings) → IfOkForLogBy terms table.now result (λ log sends.
        sends ≡ copies (targets_at terms log (latest log) head.now) packet.now) }
    ensures few { IfOk result (λ sends. length sends ≤ table.now.limits.endpoints) }
    ensures short { IfOk result AreShort }
    ensures empty { targets.new.endpoints ≡ [] }
    ensures room { targets.new.room ≡ targets.old.room }
{
    find_targets(table, head, targets);
    let sends = copies(alloc, targets.as_slice(), packet);
    targets.clear();
    sends
}

// What a packet comes to: a copy for each endpoint that wants it. The packet goes as it came: its TTL
// isn't lowered, and a fragment is copied as any other packet.
pub fn take_packet(
    alloc: Global,
    setup: &Setup,
    table: &Table,
    targets: &mut Targets,
    packet: &Bytes,
) -> Result<Step, AllocError>
    requires within { IsWithinLimits table.now }
    requires has_log { ∥ HasLog (table_settings_of setup.now.settings) table.now ∥₁ }
    requires room { setup.now.settings.limits.endpoints ≤ targets.old.room }
    requires empty { targets.old.endpoints ≡ [] }
    requires size { length packet.now ≤ 65535 }
    ensures answers { AnswersByLog (table_settings_of setup.now.settings) table.now table.now result (λ log.
        packet_answer (targets_at (table_settings_of setup.now.settings) log (latest log)) packet.now
        (head_to_copy setup.now.settings.packet_limit packet.now)) }
    ensures short { IfOk result (λ step. AreShort step.sends) }
    ensures same { targets.new ≡ targets.old }
{
    let packet = packet.as_slice();
    let head = match head_to_copy(setup.settings.packet_limit, packet) {
        Ok(head) => head,
        Err(outcome) => return Ok(Step::quiet(alloc, outcome)),
    };
    let sends = copies_for(alloc, table, targets, &head, packet)?;
    let copied = sends.len() as u32;
    Ok(Step {
        outcome: Outcome::Copied(copied),
        sends,
        change: None,
    })
}
