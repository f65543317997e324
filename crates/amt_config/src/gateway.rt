//! The settings file of a gateway.

ghost use Rattle.std.specs.Prelude.{◌≡◌, ◌⊎◌, drop, IfOk, IfErr, Ok, Err, Some};
ghost use Rattle.script_lines.specs.Form.{IsFamilyText};
ghost use Rattle.gateway_script.specs.Settling.{is_v6};
ghost use Rattle.toml.specs.View.{table_view};
ghost use Rattle.amt_config.specs.{declared.{config.GatewayConfig.{GatewayConfig as Config}, fault.ConfigFault.{ConfigFault as Fault}}, FileKey.{word_of}, Gateway.{HasGatewayValues, IsFaultInJoins, IsGatewayFault, IsGatewayFile, gateway_keys, table_family}, Key.{HasText}, Reading.{MayFailFirst}, Table.{IsValueFault}};

use crate::arrays::tables_at;
use crate::config::GatewayConfig;
use crate::fault::ConfigFault;
use crate::flags::flag_at;
use crate::forms::{AddressOf, FamilyWord, Place};
use crate::joins::read_joins;
use crate::key::FileKey;
use crate::numbers::{REPORT_SECONDS, number_at};
use crate::table::{TableKind, check_keys, read_table};
use crate::texts::{optional, required};
use amt_values::AMT_PORT;
use group_records::Family;
use relay_machine::NumberRange;
use std::alloc::Global;
use toml::Table;

const PORT: NumberRange = NumberRange {
    least: 0,
    most: 65_535,
    default: AMT_PORT as u32,
};

fn is_v6(family: Family) -> bool
    ensures { result ≡ is_v6 family }
{
    family == Family::V6
}

// The values of all keys, by that of the first.
fn read_of_family(
    alloc: Global,
    table: &Table,
    family: Family,
) -> Result<GatewayConfig, ConfigFault>
    requires { HasText (word_of FileKey.Family) (table_view table.now) (IsFamilyText family) }
    ensures found { IfOk result (HasGatewayValues (table_view table.now)) }
    ensures fault { IfErr result (λ fault. MayFailFirst (drop 1 (gateway_keys (Some family))) (table_view table.now)
        (IsFaultInJoins (table_view table.now) fault) fault) }
{
    let listen = required(alloc, table, FileKey::Listen, &Place)?;
    let deliver = required(alloc, table, FileKey::Deliver, &Place)?;
    let control = required(alloc, table, FileKey::Control, &Place)?;
    let discovery = required(alloc, table, FileKey::Discovery, &Place)?;
    let source = required(alloc, table, FileKey::Source, &AddressOf(family))?;
    let relay = optional(alloc, table, FileKey::Relay, &Place)?;
    let port = number_at(alloc, table, FileKey::Port, PORT)?;
    let linux_relay = flag_at(alloc, table, FileKey::LinuxRelay)?;
    let report_seconds = number_at(alloc, table, FileKey::ReportSeconds, REPORT_SECONDS)?;
    let items = tables_at(alloc, table, FileKey::Join)?;
    let joins = match read_joins(alloc, family, items) {
        Ok(joins) => joins,
        Err(fault) => return Err(fault),
    };
    Ok(GatewayConfig {
        v6: is_v6(family),
        listen,
        deliver,
        control,
        discovery,
        source,
        relay,
        port: port as u16,
        linux_relay,
        report_seconds,
        joins,
    })
}

// The values of all keys.
fn read_values(alloc: Global, table: &Table) -> Result<GatewayConfig, ConfigFault>
    ensures found { IfOk result (HasGatewayValues (table_view table.now)) }
    ensures fault { IfErr result (λ fault. IsValueFault (gateway_keys (table_family (table_view table.now))) IsFaultInJoins (table_view table.now) fault
        ⊎ (fault ≡ ConfigFault.Memory)) }
{
    let family = match required(alloc, table, FileKey::Family, &FamilyWord) {
        Ok(family) => family,
        Err(fault) => return Err(fault),
    };
    match read_of_family(alloc, table, family) {
        Ok(config) => Ok(config),
        Err(fault) => Err(fault),
    }
}

// The configuration of a file.
fn read_file(alloc: Global, bytes: &[u8]) -> Result<GatewayConfig, ConfigFault>
    ensures found { IfOk result (λ config. IsGatewayFile config bytes.now) }
    ensures fault { IfErr result (λ fault. IsGatewayFault fault bytes.now ⊎ (fault ≡ ConfigFault.Memory)) }
{
    let table = match read_table(alloc, bytes) {
        Ok(table) => table,
        Err(fault) => return Err(fault),
    };
    match check_keys(alloc, &table, TableKind::Gateway) {
        Ok(()) => {}
        Err(fault) => return Err(fault),
    }
    match read_values(alloc, &table) {
        Ok(config) => Ok(config),
        Err(fault) => Err(fault),
    }
}

/// The configuration that the octets of a gateway's settings file say, or their first fault. No octets say two
/// configurations, or have two first faults, or one of each.
pub fn gateway_settings(alloc: Global, bytes: &[u8]) -> Result<GatewayConfig, ConfigFault>
    ensures found { IfOk result (λ config. IsGatewayFile config bytes.now) }
    ensures only { (config : Config) → IsGatewayFile config bytes.now
        → (result ≡ Ok config) ⊎ (result ≡ Err ConfigFault.Memory) }

    ensures fault { IfErr result (λ fault. IsGatewayFault fault bytes.now ⊎ (fault ≡ ConfigFault.Memory)) }
    ensures first { (fault : Fault) → IsGatewayFault fault bytes.now
        → (result ≡ Err fault) ⊎ (result ≡ Err ConfigFault.Memory) }
{
    read_file(alloc, bytes)
}
