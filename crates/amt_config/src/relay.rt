//! The settings file of a relay.

ghost use Rattle.std.specs.Prelude.{◌≡◌, codes, ◌≤◌, ◌<◌, ◌*◌, ◌⊎◌, IfOk, IfErr, IfNone, IfSome, IsTrue, IsFalse, OnOk, Ok, Err};
ghost use Rattle.amt_values.specs.Conditions.{First};
ghost use Rattle.relay_machine.specs.{declared.number_key.NumberKey.{NumberKey as AnyNumber, TheVariants.{Endpoints, QuerySeconds, ResponseTenths}}, Settings.{AreLawfulSettings, IsInKeyRange, number_at as number_in}};
ghost use Rattle.amt_script.specs.Row.{number_word};
ghost use Rattle.toml.specs.View.{table_view};
ghost use Rattle.amt_config.specs.{declared.{config.RelayConfig.{RelayConfig as Config}, fault.ConfigFault.{ConfigFault as Fault}}, Key.{HasBoolean, HasOptional, HasWholeNumber, IsRight, a_guarded_peer, optional}, Loopback.{IsGuardedText}, Reading.{MayFail, MayFailFirst}, Relay.{FailsTogether, HasValues, IsFaultTogether, IsRelayFault, IsRelayFile, RelayConfigOf, number_key, range_of, relay_keys, settings_of, table_anywhere, together_order}, Table.{AreKnown, IsValueFault}, Words.{words_in}};

use crate::config::RelayConfig;
use crate::fault::{ConfigFault, KeyFault, told};
use crate::flags::flag_at;
use crate::forms::{Address, Address4, Address6, Place};
use crate::key::FileKey;
use crate::loopback::guarded_at;
use crate::numbers::{REPORT_SECONDS, number_at};
use crate::table::{TableKind, check_keys, read_table};
use crate::texts::{required, value_or};
use amt_values::Peer;
use relay_machine::{NumberKey, NumberRange, SOURCE_LIMIT, Settings, has_code};
use std::alloc::Global;
use toml::Table;

const ROTATE_SECONDS: NumberRange = NumberRange {
    least: 1,
    most: 1_000_000,
    default: 7200,
};

const WORKERS: NumberRange = NumberRange {
    least: 0,
    most: 64,
    default: 4,
};

fn number_of(alloc: Global, table: &Table, key: NumberKey) -> Result<u32, ConfigFault>
    ensures found { IfOk result (HasWholeNumber (number_word key) (range_of key) (table_view table.now)) }
    ensures right { OnOk result (IsRight (table_view table.now) (number_key key)) }
    ensures fault { IfErr result (MayFail (table_view table.now) (number_key key)) }
{
    number_at(alloc, table, FileKey::Number(key), key.range())
}

// The peer of the control socket, if there is one, by what the table says of where it may be.
fn control_at(alloc: Global, table: &Table, anywhere: bool) -> Result<Option<Peer>, ConfigFault>
    requires { HasBoolean (codes "control_anywhere") (table_view table.now) anywhere }
    ensures found { IfOk result (HasOptional (codes "control") (table_view table.now) (IsGuardedText anywhere)) }
    ensures right { OnOk result (IsRight (table_view table.now) (optional (codes "control") (a_guarded_peer (table_anywhere (table_view table.now))))) }
    ensures fault { IfErr result (MayFail (table_view table.now) (optional (codes "control") (a_guarded_peer (table_anywhere (table_view table.now))))) }
{
    guarded_at(alloc, table, FileKey::Control, anywhere)
}

// The values of all keys, each of which is one that its key wants.
fn read_values(alloc: Global, table: &Table) -> Result<RelayConfig, ConfigFault>
    ensures found { IfOk result (HasValues (table_view table.now)) }
    ensures fault { IfErr result (MayFailFirst (relay_keys (table_anywhere (table_view table.now))) (table_view table.now) ⊥) }
{
    let relay = required(alloc, table, FileKey::Relay, &Address)?;
    let listen = required(alloc, table, FileKey::Listen, &Place)?;
    let feed = required(alloc, table, FileKey::Feed, &Place)?;
    let control_anywhere = flag_at(alloc, table, FileKey::ControlAnywhere)?;
    let control = control_at(alloc, table, control_anywhere)?;
    let defaults = Settings::of_relay(relay);
    Ok(RelayConfig {
        relay,
        listen,
        feed,
        control_anywhere,
        control,
        query4: value_or(alloc, table, FileKey::Query4, &Address4, defaults.query4)?,
        query6: value_or(alloc, table, FileKey::Query6, &Address6, defaults.query6)?,
        robustness: number_of(alloc, table, NumberKey::Robustness)? as u8,
        query_seconds: number_of(alloc, table, NumberKey::QuerySeconds)?,
        response_tenths: number_of(alloc, table, NumberKey::ResponseTenths)?,
        endpoints: number_of(alloc, table, NumberKey::Endpoints)?,
        groups: number_of(alloc, table, NumberKey::Groups)?,
        sources: number_of(alloc, table, NumberKey::Sources)?,
        packet_limit: number_of(alloc, table, NumberKey::PacketLimit)?,
        rotate_seconds: number_at(alloc, table, FileKey::RotateSeconds, ROTATE_SECONDS)?,
        secrets: number_of(alloc, table, NumberKey::Secrets)?,
        workers: number_at(alloc, table, FileKey::Workers, WORKERS)?,
        linux_gateways: flag_at(alloc, table, FileKey::LinuxGateways)?,
        report_seconds: number_at(alloc, table, FileKey::ReportSeconds, REPORT_SECONDS)?,
    })
}

// Whether the limits allow more sources in all than a relay keeps.
fn allows_too_many(config: &RelayConfig) -> bool
    requires endpoints { config.now.endpoints ≤ 65536 }
    requires groups { config.now.groups ≤ 256 }
    requires sources { config.now.sources ≤ 64 }
    ensures more { IsTrue result → 16777216 < config.now.endpoints * config.now.groups * config.now.sources }
    ensures within { IsFalse result → config.now.endpoints * config.now.groups * config.now.sources ≤ 16777216 }
{
    config.endpoints * config.groups * config.sources > SOURCE_LIMIT
}

// The first number that a relay may not have beside the others, though it is in its own range.
fn fault_together(config: &RelayConfig) -> Option<NumberKey>
    requires { (key : AnyNumber) → IsInKeyRange key (number_in (settings_of config.now) key) }
    ensures found { IfSome result (First (FailsTogether config.now) together_order) }
    ensures none { IfNone result (AreLawfulSettings (settings_of config.now)) }
{
    if allows_too_many(config) {
        return Some(NumberKey::Endpoints);
    }
    if !has_code(config.query_seconds) {
        return Some(NumberKey::QuerySeconds);
    }
    if !config.settings().lawful() {
        return Some(NumberKey::ResponseTenths);
    }
    None
}

fn read_config(alloc: Global, table: &Table) -> Result<RelayConfig, ConfigFault>
    requires { AreKnown (words_in TableKind.Relay) (table_view table.now) }
    ensures found { IfOk result (RelayConfigOf (table_view table.now)) }
    ensures fault { IfErr result (λ fault. IsValueFault (relay_keys (table_anywhere (table_view table.now))) IsFaultTogether (table_view table.now) fault
        ⊎ (fault ≡ ConfigFault.Memory)) }
{
    let config = match read_values(alloc, table) {
        Ok(config) => config,
        Err(fault) => return Err(fault),
    };
    match fault_together(&config) {
        None => Ok(config),
        Some(key) => Err(told(alloc, FileKey::Number(key), KeyFault::Range)),
    }
}

// The configuration of a file.
fn read_file(alloc: Global, bytes: &[u8]) -> Result<RelayConfig, ConfigFault>
    ensures found { IfOk result (λ config. IsRelayFile config bytes.now) }
    ensures fault { IfErr result (λ fault. IsRelayFault fault bytes.now ⊎ (fault ≡ ConfigFault.Memory)) }
{
    let table = match read_table(alloc, bytes) {
        Ok(table) => table,
        Err(fault) => return Err(fault),
    };
    match check_keys(alloc, &table, TableKind::Relay) {
        Ok(()) => {}
        Err(fault) => return Err(fault),
    }
    match read_config(alloc, &table) {
        Ok(config) => Ok(config),
        Err(fault) => Err(fault),
    }
}

/// The configuration that the octets of a relay's settings file say, or their first fault. No octets say two
/// configurations, or have two first faults, or one of each.
pub fn relay_settings(alloc: Global, bytes: &[u8]) -> Result<RelayConfig, ConfigFault>
    ensures found { IfOk result (λ config. IsRelayFile config bytes.now) }
    ensures only { (config : Config) → IsRelayFile config bytes.now
        → (result ≡ Ok config) ⊎ (result ≡ Err ConfigFault.Memory) }

    ensures fault { IfErr result (λ fault. IsRelayFault fault bytes.now ⊎ (fault ≡ ConfigFault.Memory)) }
    ensures first { (fault : Fault) → IsRelayFault fault bytes.now
        → (result ≡ Err fault) ⊎ (result ≡ Err ConfigFault.Memory) }
{
    read_file(alloc, bytes)
}
