//! The settings and events of lines, by their kind and the fields after its words. It knows no line before.

ghost use Rattle.std.specs.Prelude.{◌≡◌, [], ◌∷◌, ◌++◌, ◌↔◌, Option, None, IfOk, IfErr, IsTrue};
ghost use Rattle.amt_values.specs.Conditions.{First};
ghost use Rattle.group_records.specs.declared.family.Family.{Family as FamilyValue};
ghost use Rattle.script_lines.specs.{Lines.{fields}, Reading.{FailsFirst}};
ghost use Rattle.gateway_script.specs.declared.kind.LineKind.TheVariants as kinds;
ghost use Rattle.gateway_script.specs.{Fault.{FailsAs, order_of_values}, Reading.{IsEventBy, order_with_word}, Row.{words_of}, Says.{SaysEvent, SaysSetting}, Setting.{key_of}};

use crate::kind::Key;
use crate::setting::Setting;
use amt_values::{parse_ip, parse_peer};
use gateway_machine::GatewayEvent;
use script_lines::{
    LineError, OctetsError, Reason, next_field, only_field, read_family, read_flag, read_moment,
    read_nonce, read_number, read_octets, two_fields,
};
use std::alloc::Global;

// The first of these fields, where there is one, is no family.
fn begins_with_no_family(values: &[u8]) -> bool
    ensures { IsTrue result ↔ FailsAs None (kinds.Set Key.Family) (fields values.now) Reason.Word }
{
    match next_field(values) {
        Some((text, _)) => read_family(text).is_none(),
        None => false,
    }
}

/// The word after `set family` is no family, however many fields follow it.
pub fn lacks_family(key: Key, values: &[u8]) -> bool
    ensures { (family : Option FamilyValue)
        → IsTrue result ↔ FailsAs family (kinds.Set key) (fields values.now) Reason.Word }
{
    match key {
        Key::Family => begins_with_no_family(values),
        Key::Discovery | Key::Source | Key::Relay | Key::Port | Key::Nonce | Key::LinuxRelay =>
            false,
    }
}

/// The setting of a key by the text of its one field.
pub fn setting_of_text(key: Key, text: &[u8]) -> Result<Setting, Reason>
    ensures key { IfOk result (λ setting. key_of setting ≡ key) }
    ensures found { IfOk result (λ setting. SaysSetting setting (words_of (kinds.Set key) ++ text.now ∷ [])) }
    ensures reason { (family : Option FamilyValue) → IfErr result (λ reason.
        First (FailsAs family (kinds.Set key) (text.now ∷ [])) order_with_word reason) }
{
    match key {
        Key::Family => match read_family(text) {
            Some(family) => Ok(Setting::Family(family)),
            None => Err(Reason::Word),
        },
        Key::Discovery => match parse_peer(text) {
            Some(peer) => Ok(Setting::Discovery(peer)),
            None => Err(Reason::Peer),
        },
        Key::Source => match parse_ip(text) {
            Some(source) => Ok(Setting::Source(source)),
            None => Err(Reason::Address),
        },
        Key::Relay => match parse_peer(text) {
            Some(peer) => Ok(Setting::Relay(peer)),
            None => Err(Reason::Peer),
        },
        Key::Port => match read_number(text, 0, 65_535) {
            Ok(port) => Ok(Setting::Port(port as u16)),
            Err(reason) => Err(reason),
        },
        Key::Nonce => match read_nonce(text) {
            Some(nonce) => Ok(Setting::Nonce(nonce)),
            None => Err(Reason::Hex),
        },
        Key::LinuxRelay => match read_flag(text) {
            Some(flag) => Ok(Setting::LinuxRelay(flag)),
            None => Err(Reason::Range),
        },
    }
}

/// The event of a line `at MS`, by what follows its first word.
pub fn read_moment_event(values: &[u8]) -> Result<GatewayEvent, Reason>
    ensures found { (family : Option FamilyValue) → IfOk result (λ event.
        SaysEvent family event (words_of kinds.Moment ++ fields values.now)) }
    ensures may { (family : Option FamilyValue) → IfOk result (IsEventBy family) }
    ensures reason { (family : Option FamilyValue) → IfErr result (λ reason.
        First (FailsAs family kinds.Moment (fields values.now)) order_of_values reason) }
{
    let Some(text) = only_field(values) else {
        return Err(Reason::Count);
    };
    match read_moment(text) {
        Some(moment) => Ok(GatewayEvent::Moment(moment)),
        None => Err(Reason::Number),
    }
}

/// The event of a line `nonce HEX`, by what follows its first word.
pub fn read_nonce_event(values: &[u8]) -> Result<GatewayEvent, Reason>
    ensures found { (family : Option FamilyValue) → IfOk result (λ event.
        SaysEvent family event (words_of kinds.Nonce ++ fields values.now)) }
    ensures may { (family : Option FamilyValue) → IfOk result (IsEventBy family) }
    ensures reason { (family : Option FamilyValue) → IfErr result (λ reason.
        First (FailsAs family kinds.Nonce (fields values.now)) order_of_values reason) }
{
    let Some(text) = only_field(values) else {
        return Err(Reason::Count);
    };
    match read_nonce(text) {
        Some(nonce) => Ok(GatewayEvent::Nonce(nonce)),
        None => Err(Reason::Hex),
    }
}

/// The event of a line `dg PEER HEX`, by what follows its first word. The octets are read first,
/// since their reason comes before the peer's.
pub fn read_datagram(alloc: Global, values: &[u8]) -> Result<GatewayEvent, LineError>
    ensures found { (family : Option FamilyValue) → IfOk result (λ event.
        SaysEvent family event (words_of kinds.Datagram ++ fields values.now)) }
    ensures may { (family : Option FamilyValue) → IfOk result (IsEventBy family) }
    ensures reason { (family : Option FamilyValue) → IfErr result
        (FailsFirst (FailsAs family kinds.Datagram (fields values.now)) order_of_values) }
{
    let Some((peer, octets)) = two_fields(values) else {
        return Err(LineError::Bad(Reason::Count));
    };
    let bytes = match read_octets(alloc, octets) {
        Ok(bytes) => bytes,
        Err(OctetsError::NotHex) => return Err(LineError::Bad(Reason::Hex)),
        Err(OctetsError::Memory) => return Err(LineError::Memory),
    };
    match parse_peer(peer) {
        Some(from) => Ok(GatewayEvent::Datagram { from, bytes }),
        None => Err(LineError::Bad(Reason::Peer)),
    }
}
