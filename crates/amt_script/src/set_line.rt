//! What a `set` line says after the settings and the items before it. It knows no kind of item.

ghost use Rattle.std.specs.Prelude.{◌≡◌, ◌≢◌, [], ◌∷◌, ◌++◌, codes, IfOk, IfErr};
ghost use Rattle.amt_values.specs.Conditions.{First};
ghost use Rattle.script_lines.specs.Lines.{fields};
ghost use Rattle.amt_script.specs.declared.kind.Kind.TheVariants as kinds;
ghost use Rattle.amt_script.specs.{Fault.{order_of_reasons, order_of_values}, Reading.{IsAllowed}, Row.{words_of}, Says.{SaysSetting}, Script.{MaySet}, SetLine.{FailsToSet, FailsToSetKey}};

use crate::kind::{Key, NoKind, key_after_set};
use crate::setting::{Setting, is_given};
use crate::statement::read_setting;
use script_lines::Reason;

/// What is wrong with the word `set` alone.
pub fn reason_of_set_alone<I>(items: &[I]) -> Reason
    ensures late { items.now ≢ [] → result ≡ Reason.Late }
    ensures count { items.now ≡ [] → result ≡ Reason.Count }
{
    if items.is_empty() {
        Reason::Count
    } else {
        Reason::Late
    }
}

/// The setting of a key, by what follows it.
pub fn read_set<I>(
    given: &[Setting],
    items: &[I],
    key: Key,
    values: &[u8],
) -> Result<Setting, Reason>
    ensures may { IfOk result (MaySet given.now items.now) }
    ensures found { IfOk result (λ setting. SaysSetting setting (words_of (kinds.Set key) ++ fields values.now)) }
    ensures reason { IfErr result (λ reason. First (FailsToSetKey given.now items.now key (fields values.now))
        (Reason.Late ∷ Reason.Twice ∷ order_of_values) reason) }
{
    if !items.is_empty() {
        return Err(Reason::Late);
    }
    if is_given(given, key) {
        return Err(Reason::Twice);
    }
    match read_setting(key, values) {
        Ok(setting) => Ok(setting),
        Err(reason) => Err(reason),
    }
}

/// The setting of a line `set KEY VALUE`, by what follows its first word.
pub fn read_set_line<I>(given: &[Setting], items: &[I], rest: &[u8]) -> Result<Setting, Reason>
    ensures may { IfOk result (MaySet given.now items.now) }
    ensures found { IfOk result (λ setting. SaysSetting setting (codes "set" ∷ fields rest.now)) }
    ensures allowed { IfOk result IsAllowed }
    ensures reason { IfErr result (λ reason. First (FailsToSet given.now items.now (fields rest.now)) order_of_reasons reason) }
{
    match key_after_set(rest) {
        Ok((key, values)) => match read_set(given, items, key, values) {
            Ok(setting) => Ok(setting),
            Err(reason) => Err(reason),
        },
        Err(NoKind::SetAlone) => Err(reason_of_set_alone(items)),
        Err(NoKind::Unknown) => Err(Reason::Word),
    }
}
