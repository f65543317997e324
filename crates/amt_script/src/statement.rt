//! The settings and items of lines, by their kind and the fields after its words. It knows no line before.

ghost use Rattle.std.specs.Prelude.{◌≡◌, [], ◌∷◌, ◌++◌, IfOk, IfErr};
ghost use Rattle.amt_script.specs.declared.kind.Kind.TheVariants as kinds;
ghost use Rattle.amt_values.specs.Conditions.{First};
ghost use Rattle.relay_machine.specs.declared.settings.Settings.{Settings as SettingsValue};
ghost use Rattle.script_lines.specs.{Lines.{fields}, Reading.{FailsFirst}};
ghost use Rattle.amt_script.specs.{Fault.{FailsAs, order_of_values}, Row.{words_of}, Running.{IsItem}, Says.{SaysItem, SaysSetting}, Setting.{key_of}};

use crate::kind::Key;
use crate::script::RelayItem;
use crate::setting::Setting;
use amt_values::{parse_ip, parse_peer};
use relay_machine::{Event, NumberKey};
use script_lines::{
    LineError, OctetsError, Reason, next_field, only_field, read_address4, read_address6,
    read_flag, read_moment, read_number, read_octets, read_secret, two_fields,
};
use std::alloc::Global;

fn number_of_text(key: NumberKey, text: &[u8]) -> Result<Setting, Reason>
    ensures key { IfOk result (λ setting. key_of setting ≡ Key.Number key) }
    ensures found { IfOk result (λ setting. SaysSetting setting (words_of (kinds.Set (Key.Number key)) ++ text.now ∷ [])) }
    ensures reason { IfErr result (λ reason. First (FailsAs (kinds.Set (Key.Number key)) (text.now ∷ [])) order_of_values reason) }
{
    let range = key.range();
    match read_number(text, range.least, range.most) {
        Ok(number) => Ok(Setting::Number(key, number)),
        Err(reason) => Err(reason),
    }
}

fn setting_of_text(key: Key, text: &[u8]) -> Result<Setting, Reason>
    ensures key { IfOk result (λ setting. key_of setting ≡ key) }
    ensures found { IfOk result (λ setting. SaysSetting setting (words_of (kinds.Set key) ++ text.now ∷ [])) }
    ensures reason { IfErr result (λ reason. First (FailsAs (kinds.Set key) (text.now ∷ [])) order_of_values reason) }
{
    match key {
        Key::Relay => match parse_ip(text) {
            Some(relay) => Ok(Setting::Relay(relay)),
            None => Err(Reason::Address),
        },
        Key::Query4 => match read_address4(text) {
            Some(address) => Ok(Setting::Query4(address)),
            None => Err(Reason::Address),
        },
        Key::Query6 => match read_address6(text) {
            Some(address) => Ok(Setting::Query6(address)),
            None => Err(Reason::Address),
        },
        Key::Number(key) => number_of_text(key, text),
        Key::Secret => match read_secret(text) {
            Some(secret) => Ok(Setting::Secret(secret)),
            None => Err(Reason::Hex),
        },
        Key::LinuxGateways => match read_flag(text) {
            Some(flag) => Ok(Setting::LinuxGateways(flag)),
            None => Err(Reason::Range),
        },
    }
}

/// The setting of a line, by its key and what follows the key.
pub fn read_setting(key: Key, values: &[u8]) -> Result<Setting, Reason>
    ensures key { IfOk result (λ setting. key_of setting ≡ key) }
    ensures found { IfOk result (λ setting. SaysSetting setting (words_of (kinds.Set key) ++ fields values.now)) }
    ensures reason { IfErr result (λ reason. First (FailsAs (kinds.Set key) (fields values.now)) order_of_values reason) }
{
    match only_field(values) {
        Some(text) => setting_of_text(key, text),
        None => Err(Reason::Count),
    }
}

/// The item of a line `at MS`, by what follows its first word.
pub fn read_moment_item(values: &[u8]) -> Result<RelayItem, Reason>
    ensures found { IfOk result (λ item. SaysItem item (words_of kinds.Moment ++ fields values.now)) }
    ensures sized { (settings : SettingsValue) → IfOk result (IsItem settings) }
    ensures reason { IfErr result (λ reason. First (FailsAs kinds.Moment (fields values.now)) order_of_values reason) }
{
    let Some(text) = only_field(values) else {
        return Err(Reason::Count);
    };
    match read_moment(text) {
        Some(moment) => Ok(RelayItem::Event(Event::Moment(moment))),
        None => Err(Reason::Number),
    }
}

/// The item of a line `secret HEX`, by what follows its first word.
pub fn read_rotation(values: &[u8]) -> Result<RelayItem, Reason>
    ensures found { IfOk result (λ item. SaysItem item (words_of kinds.Secret ++ fields values.now)) }
    ensures sized { (settings : SettingsValue) → IfOk result (IsItem settings) }
    ensures reason { IfErr result (λ reason. First (FailsAs kinds.Secret (fields values.now)) order_of_values reason) }
{
    let Some(text) = only_field(values) else {
        return Err(Reason::Count);
    };
    match read_secret(text) {
        Some(secret) => Ok(RelayItem::Event(Event::Rotate(secret))),
        None => Err(Reason::Hex),
    }
}

/// The item of a line `dg PEER HEX`, by what follows its first word. The octets are read first,
/// since their reason comes before the peer's.
pub fn read_datagram(alloc: Global, values: &[u8]) -> Result<RelayItem, LineError>
    ensures found { IfOk result (λ item. SaysItem item (words_of kinds.Datagram ++ fields values.now)) }
    ensures reason { IfErr result (FailsFirst (FailsAs kinds.Datagram (fields values.now)) order_of_values) }
{
    let Some((peer, octets)) = two_fields(values) else {
        return Err(LineError::Bad(Reason::Count));
    };
    let bytes = match read_octets(alloc, octets) {
        Ok(bytes) => bytes,
        Err(OctetsError::NotHex) => return Err(LineError::Bad(Reason::Hex)),
        Err(OctetsError::Memory) => return Err(LineError::Memory),
    };
    match parse_peer(peer) {
        Some(from) => Ok(RelayItem::Event(Event::Datagram { from, bytes })),
        None => Err(LineError::Bad(Reason::Peer)),
    }
}

/// The item of a line `mc HEX`, by what follows its first word.
pub fn read_packet(alloc: Global, values: &[u8]) -> Result<RelayItem, LineError>
    ensures found { IfOk result (λ item. SaysItem item (words_of kinds.Packet ++ fields values.now)) }
    ensures sized { (settings : SettingsValue) → IfOk result (IsItem settings) }
    ensures reason { IfErr result (FailsFirst (FailsAs kinds.Packet (fields values.now)) order_of_values) }
{
    let Some(octets) = only_field(values) else {
        return Err(LineError::Bad(Reason::Count));
    };
    match read_octets(alloc, octets) {
        Ok(bytes) => Ok(RelayItem::Event(Event::Packet { bytes })),
        Err(OctetsError::NotHex) => Err(LineError::Bad(Reason::Hex)),
        Err(OctetsError::Memory) => Err(LineError::Memory),
    }
}

/// The item of a line `show`, by what follows the word, which is nothing.
pub fn read_show(values: &[u8]) -> Result<RelayItem, Reason>
    ensures found { IfOk result (λ item. SaysItem item (words_of kinds.Show ++ fields values.now)) }
    ensures sized { (settings : SettingsValue) → IfOk result (IsItem settings) }
    ensures reason { IfErr result (λ reason. First (FailsAs kinds.Show (fields values.now)) order_of_values reason) }
{
    match next_field(values) {
        None => Ok(RelayItem::Show),
        Some(_) => Err(Reason::Count),
    }
}
