//! What a line of a gateway's script says after the lines before it. It knows no text.

ghost use Rattle.std.specs.Prelude.{◌≡◌, ◌≤◌, ◌∷◌, ◌++◌, Ok, Err, length, IfOk, IfErr, MatchResult};
ghost use Rattle.amt_values.specs.Conditions.{First};
ghost use Rattle.script_lines.specs.{Lines.{fields}, Reading.{FailsFirst}};
ghost use Rattle.gateway_script.specs.declared.kind.LineKind.TheVariants as kinds;
ghost use Rattle.gateway_script.specs.{Fault.{FailsAfter, FailsAs, order_of_reasons, order_of_values}, Reading.{FailsToSet, IsEventBy, IsEventKind}, Row.{words_of}, Says.{SaysEvent, SaysSetting}, Script.{MaySet, SaysAfter}, Setting.{key_of}};

use crate::call_line::{read_change, read_close, read_leave, read_open};
use crate::kind::{Key, LineKind, NoKind, kind_of_line};
use crate::setting::{Setting, is_given};
use crate::settling::family_of;
use crate::statement::{
    lacks_family, read_datagram, read_moment_event, read_nonce_event, setting_of_text,
};
use gateway_machine::GatewayEvent;
use group_records::Family;
use script_lines::{LineError, Reason, only_field};
use std::alloc::Global;

/// What a line says.
#[derive(Debug, Drop)]
pub enum GatewayStatement {
    Setting(Setting),
    Event(GatewayEvent),
}

fn read_set(
    given: &[Setting],
    events: &[GatewayEvent],
    key: Key,
    values: &[u8],
) -> Result<Setting, Reason>
    ensures key { IfOk result (λ setting. key_of setting ≡ key) }
    ensures may { IfOk result (MaySet given.now events.now) }
    ensures found { IfOk result (λ setting. SaysSetting setting (words_of (kinds.Set key) ++ fields values.now)) }
    ensures reason { IfErr result (λ reason. First (FailsToSet given.now events.now key (fields values.now))
        (Reason.Word ∷ Reason.Late ∷ Reason.Twice ∷ order_of_values) reason) }
{
    if lacks_family(key, values) {
        return Err(Reason::Word);
    }
    if !events.is_empty() {
        return Err(Reason::Late);
    }
    if is_given(given, key) {
        return Err(Reason::Twice);
    }
    let Some(text) = only_field(values) else {
        return Err(Reason::Count);
    };
    match setting_of_text(key, text) {
        Ok(setting) => Ok(setting),
        Err(reason) => Err(reason),
    }
}

// An event whose reading takes no memory.
fn event_of(read: Result<GatewayEvent, Reason>) -> Result<GatewayEvent, LineError>
    ensures { MatchResult read (λ event. result ≡ Ok event) (λ reason. result ≡ Err (LineError.Bad reason)) }
{
    match read {
        Ok(event) => Ok(event),
        Err(reason) => Err(LineError::Bad(reason)),
    }
}

/// The event of a line of this kind, which is no setting, by the fields after its word.
pub fn read_event(
    alloc: Global,
    family: Option<Family>,
    kind: LineKind,
    values: &[u8],
) -> Result<GatewayEvent, LineError>
    requires short { length values.now ≤ 140000 }
    requires event { IsEventKind kind }
    ensures found { IfOk result (λ event. SaysEvent family event (words_of kind ++ fields values.now)) }
    ensures may { IfOk result (IsEventBy family) }
    ensures reason { IfErr result (FailsFirst (FailsAs family kind (fields values.now)) order_of_values) }
{
    match kind {
        LineKind::Moment => event_of(read_moment_event(values)),
        LineKind::Nonce => event_of(read_nonce_event(values)),
        LineKind::Datagram => read_datagram(alloc, values),
        LineKind::Open => read_open(alloc, family, values),
        LineKind::Change => read_change(alloc, family, values),
        LineKind::Close => read_close(alloc, values),
        LineKind::Leave => event_of(read_leave(values)),
        LineKind::Set(_) => unreachable!(),
    }
}

/// What a line of this first field says, after lines that said these settings and events.
pub fn read_statement(
    alloc: Global,
    given: &[Setting],
    events: &[GatewayEvent],
    word: &[u8],
    rest: &[u8],
) -> Result<GatewayStatement, LineError>
    requires { length rest.now ≤ 140000 }
    ensures found { IfOk result (λ statement. SaysAfter given.now events.now statement (word.now ∷ fields rest.now)) }
    ensures reason { IfErr result (FailsFirst (FailsAfter given.now events.now (word.now ∷ fields rest.now)) order_of_reasons) }
{
    match kind_of_line(word, rest) {
        Err(NoKind::Unknown) => Err(LineError::Bad(Reason::Word)),
        Err(NoKind::SetAlone) => {
            if events.is_empty() {
                Err(LineError::Bad(Reason::Count))
            } else {
                Err(LineError::Bad(Reason::Late))
            }
        }
        Ok((LineKind::Set(key), values)) => match read_set(given, events, key, values) {
            Ok(setting) => Ok(GatewayStatement::Setting(setting)),
            Err(reason) => Err(LineError::Bad(reason)),
        },
        Ok((kind, values)) => match read_event(alloc, family_of(given), kind, values) {
            Ok(event) => Ok(GatewayStatement::Event(event)),
            Err(error) => Err(error),
        },
    }
}
