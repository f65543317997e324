//! The lines that say what happens to a relay and its gateways, by what follows their first word. It knows
//! no gateway.

ghost use Rattle.std.specs.Prelude.{[], ◌∷◌, ℕ, List, IfOk, IfErr};
ghost use Rattle.amt_script.specs.{Fault.{FailsAs as RelayFails}, Says.{SaysItem as RelaySays}};
ghost use Rattle.amt_script.specs.declared.kind.Kind.TheVariants as kinds;
ghost use Rattle.script_lines.specs.{Lines.{fields}, Reading.{FailsFirst}};
ghost use Rattle.pair_script.specs.{Fault.{FailsAfterOpening, FailsAsNumber, order_of_reasons}, Opening.{IsItemOpening, opening_word}, Reading.{IsNumberOf, IsSharedEvent, IsSharedItem, NamesNoGateway}, Says.{SaysEventAfter, SaysItemAfter}};
ghost use Rattle.amt_script.specs.declared.script.RelayItem.TheVariants as relay_items;
ghost use Rattle.pair_script.specs.declared.opening.Opening.TheVariants as openings;
ghost use Rattle.pair_script.specs.declared.script.PairItem.TheVariants.{Event as EventItem};

use crate::opening::Opening;
use crate::script::PairItem;
use amt_pair::PairEvent;
use amt_script::{RelayItem, read_moment_item, read_packet, read_rotation, read_show};
use relay_machine::Event;
use script_lines::{LineError, Reason, only_field, read_moment};
use std::alloc::Global;

// What a line of a relay's script says of a pair. No line of a pair's script says a datagram or new limits.
fn shared_event(event: Event) -> PairEvent
    requires { IsSharedEvent event }
    ensures says { (line : List (List ℕ)) → RelaySays (relay_items.Event event) line
        → SaysEventAfter [] result line }
    ensures unnamed { NamesNoGateway (EventItem result) }
{
    match event {
        Event::Moment(at) => PairEvent::Moment(at),
        Event::Rotate(secret) => PairEvent::Rotate(secret),
        Event::Packet { bytes } => PairEvent::Packet { bytes },
        Event::Datagram { .. } => unreachable!(),
        Event::Limits(_) => unreachable!(),
    }
}

fn shared_item(item: RelayItem) -> PairItem
    requires { IsSharedItem item }
    ensures says { (line : List (List ℕ)) → RelaySays item line
        → SaysItemAfter [] result line }
    ensures unnamed { NamesNoGateway result }
{
    match item {
        RelayItem::Event(event) => PairItem::Event(shared_event(event)),
        RelayItem::Show => PairItem::Show,
    }
}

// The item of a line `at MS`.
fn read_moment_line(values: &[u8]) -> Result<PairItem, LineError>
    ensures found { IfOk result (λ item.
        SaysItemAfter [] item (opening_word openings.Moment ∷ fields values.now)) }
    ensures unnamed { IfOk result NamesNoGateway }
    ensures reason { IfErr result (FailsFirst (RelayFails kinds.Moment (fields values.now)) order_of_reasons) }
{
    match read_moment_item(values) {
        Ok(item) => Ok(shared_item(item)),
        Err(reason) => Err(LineError::Bad(reason)),
    }
}

// The item of a line `secret HEX`.
fn read_secret_line(values: &[u8]) -> Result<PairItem, LineError>
    ensures found { IfOk result (λ item.
        SaysItemAfter [] item (opening_word openings.Secret ∷ fields values.now)) }
    ensures unnamed { IfOk result NamesNoGateway }
    ensures reason { IfErr result (FailsFirst (RelayFails kinds.Secret (fields values.now)) order_of_reasons) }
{
    match read_rotation(values) {
        Ok(item) => Ok(shared_item(item)),
        Err(reason) => Err(LineError::Bad(reason)),
    }
}

// The item of a line `mc HEX`.
fn read_packet_line(alloc: Global, values: &[u8]) -> Result<PairItem, LineError>
    ensures found { IfOk result (λ item.
        SaysItemAfter [] item (opening_word openings.Packet ∷ fields values.now)) }
    ensures unnamed { IfOk result NamesNoGateway }
    ensures reason { IfErr result (FailsFirst (RelayFails kinds.Packet (fields values.now)) order_of_reasons) }
{
    match read_packet(alloc, values) {
        Ok(item) => Ok(shared_item(item)),
        Err(error) => Err(error),
    }
}

// The item of a line `show`.
fn read_show_line(values: &[u8]) -> Result<PairItem, LineError>
    ensures found { IfOk result (λ item.
        SaysItemAfter [] item (opening_word openings.Show ∷ fields values.now)) }
    ensures unnamed { IfOk result NamesNoGateway }
    ensures reason { IfErr result (FailsFirst (RelayFails kinds.Show (fields values.now)) order_of_reasons) }
{
    match read_show(values) {
        Ok(item) => Ok(shared_item(item)),
        Err(reason) => Err(LineError::Bad(reason)),
    }
}

// The number of a datagram in a line `up K` or `down K`.
fn read_datagram_number(values: &[u8]) -> Result<u64, LineError>
    ensures found { IfOk result (IsNumberOf (fields values.now)) }
    ensures reason { IfErr result (FailsFirst (FailsAsNumber (fields values.now)) order_of_reasons) }
{
    let Some(text) = only_field(values) else {
        return Err(LineError::Bad(Reason::Count));
    };
    match read_moment(text) {
        Some(number) => Ok(number.ms()),
        None => Err(LineError::Bad(Reason::Number)),
    }
}

/// The item of a line that begins with this word, by what follows the word. It is the same whatever stands above
/// the line, which names no gateway.
pub fn read_item(alloc: Global, opening: Opening, values: &[u8]) -> Result<PairItem, LineError>
    requires { IsItemOpening opening }
    ensures found { IfOk result (λ item.
        SaysItemAfter [] item (opening_word opening ∷ fields values.now)) }
    ensures unnamed { IfOk result NamesNoGateway }
    ensures reason { IfErr result
        (FailsFirst (FailsAfterOpening [] [] [] opening (fields values.now)) order_of_reasons) }
{
    match opening {
        Opening::Moment => read_moment_line(values),
        Opening::Secret => read_secret_line(values),
        Opening::Packet => read_packet_line(alloc, values),
        Opening::Show => read_show_line(values),
        Opening::Up => {
            let number = read_datagram_number(values)?;
            Ok(PairItem::Event(PairEvent::Up(number)))
        }
        Opening::Down => {
            let number = read_datagram_number(values)?;
            Ok(PairItem::Event(PairEvent::Down(number)))
        }
        Opening::Set => unreachable!(),
        Opening::Gateway => unreachable!(),
    }
}
