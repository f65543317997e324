//! The lines that make socket calls, by the fields after their first word. It knows no line before.

ghost use Rattle.std.specs.Prelude.{◌≡◌, ◌≤◌, ◌<◌, ◌∷◌, ◌++◌, length, Option, IfOk, IfErr, IfSome, IfNone};
ghost use Rattle.amt_values.specs.Conditions.{First};
ghost use Rattle.group_records.specs.declared.family.Family.{Family as FamilyValue};
ghost use Rattle.script_lines.specs.{Lines.{fields}, Reading.{FailsFirst}};
ghost use Rattle.gateway_script.specs.declared.kind.LineKind.TheVariants as kinds;
ghost use Rattle.gateway_script.specs.{Fault.{FailsAs, order_of_values}, Reading.{IsEventBy}, Row.{words_of}, Says.{SaysEvent}};

use crate::filter_fields::read_sources;
use amt_values::Bytes;
use gateway_machine::GatewayEvent;
use group_records::Family;
use script_lines::{LineError, Reason, is_name, next_field, only_field, read_group, read_mode};
use source_filter::Filter;
use std::alloc::Global;

/// The event of a line `open NAME GROUP MODE ADDRESS..`. The addresses are read first, since their
/// reason comes before those of the fields to their left.
pub fn read_open(
    alloc: Global,
    family: Option<Family>,
    values: &[u8],
) -> Result<GatewayEvent, LineError>
    requires { length values.now ≤ 140000 }
    ensures found { IfOk result (λ event. SaysEvent family event (words_of kinds.Open ++ fields values.now)) }
    ensures may { IfOk result (IsEventBy family) }
    ensures reason { IfErr result (FailsFirst (FailsAs family kinds.Open (fields values.now)) order_of_values) }
{
    let Some((name, group, mode, addresses)) = three_fields(values) else {
        return Err(LineError::Bad(Reason::Count));
    };
    let sources = match read_sources(alloc, family, addresses) {
        Ok(sources) => sources,
        Err(error) => return Err(error),
    };
    if !is_name(name) {
        return Err(LineError::Bad(Reason::Name));
    }
    let Some(mode) = read_mode(mode) else {
        return Err(LineError::Bad(Reason::Mode));
    };
    let Some(group) = read_group(family, group) else {
        return Err(LineError::Bad(Reason::Group));
    };
    let Ok(filter) = Filter::new(alloc, mode, sources.as_slice()) else {
        return Err(LineError::Memory);
    };
    let Ok(name) = Bytes::copied(alloc, name) else {
        return Err(LineError::Memory);
    };
    Ok(GatewayEvent::Open {
        name,
        group,
        filter,
    })
}

/// The event of a line `change NAME MODE ADDRESS..`.
pub fn read_change(
    alloc: Global,
    family: Option<Family>,
    values: &[u8],
) -> Result<GatewayEvent, LineError>
    requires { length values.now ≤ 140000 }
    ensures found { IfOk result (λ event. SaysEvent family event (words_of kinds.Change ++ fields values.now)) }
    ensures may { IfOk result (IsEventBy family) }
    ensures reason { IfErr result (FailsFirst (FailsAs family kinds.Change (fields values.now)) order_of_values) }
{
    let Some((name, mode, addresses)) = leading_two(values) else {
        return Err(LineError::Bad(Reason::Count));
    };
    let sources = match read_sources(alloc, family, addresses) {
        Ok(sources) => sources,
        Err(error) => return Err(error),
    };
    if !is_name(name) {
        return Err(LineError::Bad(Reason::Name));
    }
    let Some(mode) = read_mode(mode) else {
        return Err(LineError::Bad(Reason::Mode));
    };
    let Ok(filter) = Filter::new(alloc, mode, sources.as_slice()) else {
        return Err(LineError::Memory);
    };
    let Ok(name) = Bytes::copied(alloc, name) else {
        return Err(LineError::Memory);
    };
    Ok(GatewayEvent::Change { name, filter })
}

// The first two fields, and the octets after them.
fn leading_two(values: &[u8]) -> Option<(&[u8], &[u8], &[u8])>
    ensures found { IfSome result (λ parts. fields values.now ≡ parts.0.now ∷ parts.1.now ∷ fields parts.2.now) }
    ensures none { IfNone result (length (fields values.now) < 2) }
{
    let Some((first, rest)) = next_field(values) else {
        return None;
    };
    match next_field(rest) {
        None => None,
        Some((second, rest)) => Some((first, second, rest)),
    }
}

// The first three fields, and the octets after them.
fn three_fields(values: &[u8]) -> Option<(&[u8], &[u8], &[u8], &[u8])>
    ensures found { IfSome result (λ parts. fields values.now
        ≡ parts.0.now ∷ parts.1.now ∷ parts.2.now ∷ fields parts.3.now) }
    ensures none { IfNone result (length (fields values.now) < 3) }
{
    let Some((first, rest)) = next_field(values) else {
        return None;
    };
    match leading_two(rest) {
        None => None,
        Some((second, third, rest)) => Some((first, second, third, rest)),
    }
}

/// The event of a line `close NAME`.
pub fn read_close(alloc: Global, values: &[u8]) -> Result<GatewayEvent, LineError>
    ensures found { (family : Option FamilyValue)
        → IfOk result (λ event. SaysEvent family event (words_of kinds.Close ++ fields values.now)) }
    ensures may { (family : Option FamilyValue) → IfOk result (IsEventBy family) }
    ensures reason { (family : Option FamilyValue)
        → IfErr result (FailsFirst (FailsAs family kinds.Close (fields values.now)) order_of_values) }
{
    let Some(name) = only_field(values) else {
        return Err(LineError::Bad(Reason::Count));
    };
    if !is_name(name) {
        return Err(LineError::Bad(Reason::Name));
    }
    match Bytes::copied(alloc, name) {
        Ok(name) => Ok(GatewayEvent::Close { name }),
        Err(_) => Err(LineError::Memory),
    }
}

/// The event of a line `leave`.
pub fn read_leave(values: &[u8]) -> Result<GatewayEvent, Reason>
    ensures found { (family : Option FamilyValue)
        → IfOk result (λ event. SaysEvent family event (words_of kinds.Leave ++ fields values.now)) }
    ensures may { (family : Option FamilyValue) → IfOk result (IsEventBy family) }
    ensures reason { (family : Option FamilyValue)
        → IfErr result (λ reason. First (FailsAs family kinds.Leave (fields values.now)) order_of_values reason) }
{
    match next_field(values) {
        None => Ok(GatewayEvent::LeaveAll),
        Some(_) => Err(Reason::Count),
    }
}
