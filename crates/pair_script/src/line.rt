//! What a line of a pair's script says after the lines before it. It knows no text.

ghost use Rattle.std.specs.Prelude.{◌≤◌, ◌∷◌, length, IfOk, IfErr};
ghost use Rattle.script_lines.specs.{Lines.{fields}, Reading.{FailsFirst}};
ghost use Rattle.pair_script.specs.{Fault.{FailsAfter, FailsAfterOpening, order_of_reasons}, Opening.{opening_word}, Script.{SaysAfter}};

use crate::call_line::read_call;
use crate::gateway_line::read_gateway_line;
use crate::item_line::read_item;
use crate::opening::{Opening, opening_of};
use crate::script::{PairGateway, PairItem};
use crate::statement::PairStatement;
use amt_pair::PairEvent;
use amt_script::{Setting, read_set_line};
use script_lines::LineError;
use std::alloc::Global;

// What a line with this first word says, by what follows the word.
fn read_opened(
    alloc: Global,
    given: &[Setting],
    gateways: &[PairGateway],
    items: &[PairItem],
    opening: Opening,
    values: &[u8],
) -> Result<PairStatement, LineError>
    ensures found { IfOk result (λ statement. SaysAfter given.now gateways.now items.now statement
        (opening_word opening ∷ fields values.now)) }
    ensures reason { IfErr result (FailsFirst (FailsAfterOpening given.now gateways.now items.now opening
        (fields values.now)) order_of_reasons) }
{
    match opening {
        Opening::Set => match read_set_line(given, items, values) {
            Ok(setting) => Ok(PairStatement::Setting(setting)),
            Err(reason) => Err(LineError::Bad(reason)),
        },
        Opening::Gateway => match read_gateway_line(alloc, gateways, items, values) {
            Ok(gateway) => Ok(PairStatement::Gateway(gateway)),
            Err(error) => Err(error),
        },
        _ => match read_item(alloc, opening, values) {
            Ok(item) => Ok(PairStatement::Item(item)),
            Err(error) => Err(error),
        },
    }
}

/// What a line of this first field says, after lines that said these settings, gateways and items.
pub fn read_statement(
    alloc: Global,
    given: &[Setting],
    gateways: &[PairGateway],
    items: &[PairItem],
    word: &[u8],
    rest: &[u8],
) -> Result<PairStatement, LineError>
    requires { length rest.now ≤ 140000 }
    ensures found { IfOk result (λ statement.
        SaysAfter given.now gateways.now items.now statement (word.now ∷ fields rest.now)) }
    ensures reason { IfErr result (FailsFirst
        (FailsAfter given.now gateways.now items.now (word.now ∷ fields rest.now)) order_of_reasons) }
{
    match opening_of(word) {
        Some(opening) => match read_opened(alloc, given, gateways, items, opening, rest) {
            Ok(statement) => Ok(statement),
            Err(error) => Err(error),
        },
        None => match read_call(alloc, gateways, word, rest) {
            Ok(event) => Ok(PairStatement::Item(PairItem::Event(event))),
            Err(error) => Err(error),
        },
    }
}
