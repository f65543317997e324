//! What a line `limits E G S` says. It knows no line before but the limits that are set.

ghost use Rattle.std.specs.Prelude.{[], ◌∷◌, ◌++◌, IfOk, IfErr, IfSome, IfNone};
ghost use Rattle.amt_values.specs.{Conditions.{First}, Numeral.{IsNumeral}};
ghost use Rattle.script_lines.specs.{Form.{Fails}, Lines.{fields}};
ghost use Rattle.amt_script.specs.declared.kind.Kind.TheVariants as kinds;
ghost use Rattle.amt_script.specs.{Fault.{FailsAs, order_of_values}, LimitsLine.{AreLimitTexts, FailsToLimit}, Row.{a_limit, words_of}, Says.{IsLimitText, SaysItem}, Script.{MayCome}};

use crate::script::RelayItem;
use endpoint_membership::Limits;
use relay_machine::Event;
use script_lines::{Reason, is_number, read_number, three_fields};

// A limit by its digits.
fn limit_of_number(text: &[u8]) -> Option<u32>
    requires { IsNumeral text.now }
    ensures found { IfSome result (λ limit. IsLimitText limit text.now) }
    ensures none { IfNone result (Fails a_limit text.now Reason.Range) }
{
    match read_number(text, 1, u32::MAX) {
        Ok(limit) => Some(limit),
        Err(_) => None,
    }
}

// The limits of three fields. What is no number is told before what is out of range.
fn limits_of_texts(endpoints: &[u8], groups: &[u8], sources: &[u8]) -> Result<Limits, Reason>
    ensures found { IfOk result (AreLimitTexts endpoints.now groups.now sources.now) }
    ensures reason { IfErr result (λ reason. First (FailsAs kinds.Limits
        (endpoints.now ∷ groups.now ∷ sources.now ∷ [])) order_of_values reason) }
{
    if !is_number(endpoints) {
        return Err(Reason::Number);
    }
    if !is_number(groups) {
        return Err(Reason::Number);
    }
    if !is_number(sources) {
        return Err(Reason::Number);
    }
    let Some(most_endpoints) = limit_of_number(endpoints) else {
        return Err(Reason::Range);
    };
    let Some(most_groups) = limit_of_number(groups) else {
        return Err(Reason::Range);
    };
    match limit_of_number(sources) {
        Some(most_sources) => Ok(Limits {
            endpoints: most_endpoints,
            groups: most_groups,
            sources: most_sources,
        }),
        None => Err(Reason::Range),
    }
}

/// The item of a line `limits E G S`, by what follows its first word, after settings of these limits.
pub fn read_limits(given: &Limits, values: &[u8]) -> Result<RelayItem, Reason>
    ensures may { IfOk result (MayCome given.now) }
    ensures found { IfOk result (λ item. SaysItem item (words_of kinds.Limits ++ fields values.now)) }
    ensures reason { IfErr result (λ reason. First (FailsToLimit given.now (fields values.now)) order_of_values reason) }
{
    let Some((endpoints, groups, sources)) = three_fields(values) else {
        return Err(Reason::Count);
    };
    let limits = match limits_of_texts(endpoints, groups, sources) {
        Ok(limits) => limits,
        Err(reason) => return Err(reason),
    };
    if !given.allow(&limits) {
        return Err(Reason::Range);
    }
    Ok(RelayItem::Event(Event::Limits(limits)))
}
