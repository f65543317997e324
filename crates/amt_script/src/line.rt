//! What a line of a relay's script says after the lines before it. It knows no text.

ghost use Rattle.std.specs.{Prelude.{◌≡◌, ◌∷◌, Ok, Err, IfOk, IfErr, MatchResult}, List.{AllByRecursion}};
ghost use Rattle.script_lines.specs.{Lines.{fields}, Reading.{FailsFirst}};
ghost use Rattle.amt_script.specs.{Fault.{FailsAfter, order_of_reasons}, Reading.{IsAllowed}, Script.{SaysAfter}};

use crate::kind::{Kind, NoKind, kind_of_line};
use crate::limits_line::read_limits;
use crate::script::RelayItem;
use crate::set_line::{read_set, reason_of_set_alone};
use crate::setting::Setting;
use crate::settling::limits_given;
use crate::statement::{read_datagram, read_moment_item, read_packet, read_rotation, read_show};
use script_lines::{LineError, Reason};
use std::alloc::Global;

/// What a line says.
#[derive(Debug, Drop)]
pub enum RelayStatement {
    Setting(Setting),
    Item(RelayItem),
}

// What a line says whose reading takes no memory.
fn item_of(read: Result<RelayItem, Reason>) -> Result<RelayStatement, LineError>
    ensures { MatchResult read (λ item. result ≡ Ok (RelayStatement.Item item))
        (λ reason. result ≡ Err (LineError.Bad reason)) }
{
    match read {
        Ok(item) => Ok(RelayStatement::Item(item)),
        Err(reason) => Err(LineError::Bad(reason)),
    }
}

/// What a line of this first field says, after lines that said these settings, each number of which is in
/// its range, and items.
pub fn read_statement(
    alloc: Global,
    given: &[Setting],
    items: &[RelayItem],
    word: &[u8],
    rest: &[u8],
) -> Result<RelayStatement, LineError>
    ensures found { AllByRecursion IsAllowed given.now
        → IfOk result (λ statement. SaysAfter given.now items.now statement (word.now ∷ fields rest.now)) }
    ensures reason { AllByRecursion IsAllowed given.now
        → IfErr result (FailsFirst (FailsAfter given.now items.now (word.now ∷ fields rest.now)) order_of_reasons) }
{
    match kind_of_line(word, rest) {
        Err(NoKind::Unknown) => Err(LineError::Bad(Reason::Word)),
        Err(NoKind::SetAlone) => { Err(LineError::Bad(reason_of_set_alone(items))) }
        Ok((Kind::Set(key), values)) => match read_set(given, items, key, values) {
            Ok(setting) => Ok(RelayStatement::Setting(setting)),
            Err(reason) => Err(LineError::Bad(reason)),
        },
        Ok((Kind::Moment, values)) => item_of(read_moment_item(values)),
        Ok((Kind::Secret, values)) => item_of(read_rotation(values)),
        Ok((Kind::Limits, values)) => item_of(read_limits(&limits_given(given), values)),
        Ok((Kind::Datagram, values)) => Ok(RelayStatement::Item(read_datagram(alloc, values)?)),
        Ok((Kind::Packet, values)) => Ok(RelayStatement::Item(read_packet(alloc, values)?)),
        Ok((Kind::Show, values)) => item_of(read_show(values)),
    }
}
