//! What a line of a script of dual gateways says after the lines before it. It knows no text.

ghost use Rattle.std.specs.Prelude.{◌≤◌, ◌∷◌, length, List, ℕ, [], IfOk, IfErr};
ghost use Rattle.script_lines.specs.{Lines.{fields}, Reading.{FailsFirst}};
ghost use Rattle.pair_script.specs.{Fault.{order_of_reasons}, Opening.{opening_word}, Reading.{NamesNoGateway}, Says.{SaysEventAfter as PairSaysEvent, SaysItemAfter as PairSaysItem}, declared.script.PairItem.TheVariants.{Event as EventItem}};
ghost use Rattle.amt_dual_script.specs.{Fault.{FailsAfter, FailsAfterOpening}, Says.{SaysEventAfter, SaysItemAfter}, Script.{SaysAfter}, declared.script.DualGateway.{DualGateway as GatewayValue}};

use crate::call_line::read_call;
use crate::gateway_line::read_gateway_line;
use crate::script::{DualGateway, DualItem};
use crate::statement::DualStatement;
use amt_dual::DualPairEvent;
use amt_pair::PairEvent;
use amt_script::{Setting, read_set_line};
use pair_script::{Opening, PairItem, opening_of, read_item};
use script_lines::LineError;
use std::alloc::Global;

// What a line of a pair's script that names no gateway says here.
fn shared_event(event: PairEvent) -> DualPairEvent
    requires { NamesNoGateway (EventItem event) }
    ensures { (gateways : List GatewayValue) (line : List (List ℕ)) → PairSaysEvent [] event line
        → SaysEventAfter gateways result line }
{
    match event {
        PairEvent::Moment(at) => DualPairEvent::Moment(at),
        PairEvent::Rotate(secret) => DualPairEvent::Rotate(secret),
        PairEvent::Packet { bytes } => DualPairEvent::Packet { bytes },
        PairEvent::Up(number) => DualPairEvent::Up(number),
        PairEvent::Down(number) => DualPairEvent::Down(number),
        PairEvent::Socket { .. } => unreachable!(),
    }
}

fn shared_item(item: PairItem) -> DualItem
    requires { NamesNoGateway item }
    ensures { (gateways : List GatewayValue) (line : List (List ℕ)) → PairSaysItem [] item line
        → SaysItemAfter gateways result line }
{
    match item {
        PairItem::Event(event) => DualItem::Event(shared_event(event)),
        PairItem::Show => DualItem::Show,
    }
}

// What a line with this first word says, by what follows the word.
fn read_opened(
    alloc: Global,
    given: &[Setting],
    gateways: &[DualGateway],
    items: &[DualItem],
    opening: Opening,
    values: &[u8],
) -> Result<DualStatement, LineError>
    ensures found { IfOk result (λ statement. SaysAfter given.now gateways.now items.now statement
        (opening_word opening ∷ fields values.now)) }
    ensures reason { IfErr result (FailsFirst (FailsAfterOpening given.now gateways.now items.now opening
        (fields values.now)) order_of_reasons) }
{
    match opening {
        Opening::Set => match read_set_line(given, items, values) {
            Ok(setting) => Ok(DualStatement::Setting(setting)),
            Err(reason) => Err(LineError::Bad(reason)),
        },
        Opening::Gateway => match read_gateway_line(alloc, gateways, items, values) {
            Ok(gateway) => Ok(DualStatement::Gateway(gateway)),
            Err(error) => Err(error),
        },
        _ => match read_item(alloc, opening, values) {
            Ok(item) => Ok(DualStatement::Item(shared_item(item))),
            Err(error) => Err(error),
        },
    }
}

/// What a line of this first field says, after lines that said these settings, gateways and items.
pub fn read_statement(
    alloc: Global,
    given: &[Setting],
    gateways: &[DualGateway],
    items: &[DualItem],
    word: &[u8],
    rest: &[u8],
) -> Result<DualStatement, LineError>
    requires { length rest.now ≤ 140000 }
    ensures found { IfOk result (λ statement.
        SaysAfter given.now gateways.now items.now statement (word.now ∷ fields rest.now)) }
    ensures reason { IfErr result (FailsFirst
        (FailsAfter given.now gateways.now items.now (word.now ∷ fields rest.now)) order_of_reasons) }
{
    match opening_of(word) {
        Some(opening) => match read_opened(alloc, given, gateways, items, opening, rest) {
            Ok(statement) => Ok(statement),
            Err(error) => Err(error),
        },
        None => match read_call(alloc, gateways, word, rest) {
            Ok(event) => Ok(DualStatement::Item(DualItem::Event(event))),
            Err(error) => Err(error),
        },
    }
}
