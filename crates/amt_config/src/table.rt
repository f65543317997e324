//! The table of a settings file, its unknown keys, and what it has under a key.

ghost use Rattle.std.specs.Prelude.{◌≡◌, ◌⊎◌, IfOk, IfErr, IfSome, IfNone, OnOk, option_map};
ghost use Rattle.toml.specs.{Data.{get_member}, View.{table_view, view}};
ghost use Rattle.amt_config.specs.{FileKey.{word_of}, Table.{AreKnown, HasNoTable, IsLeastUnknown, IsTableOf, IsUnknownFault, is_among}, Words.{words_in}};

use crate::fault::ConfigFault;
use crate::key::FileKey;
use amt_values::Bytes;
use std::alloc::Global;
use toml::{Table, Value};

/// The tables of settings files.
#[derive(Clone, Copy, Debug, PartialEq, Eq)]
pub enum TableKind {
    Relay,
    Gateway,
    /// One join of a gateway.
    Join,
}

impl TableKind {
    ghost use Rattle.std.specs.Prelude.{◌≡◌};
    ghost use Rattle.amt_config.specs.{Table.{is_among}, Words.{words_in}};

    fn has_key(self, name: &str) -> bool
        ensures { result ≡ is_among (words_in self) name.now }
    {
        match self {
            TableKind::Relay => is_relay_key(name),
            TableKind::Gateway => is_gateway_key(name),
            TableKind::Join => is_join_key(name),
        }
    }
}

fn is_relay_key(name: &str) -> bool
    ensures { result ≡ is_among (words_in TableKind.Relay) name.now }
{
    match name {
        "relay" | "listen" | "feed" | "control_anywhere" | "control" => true,
        "query4" | "query6" => true,
        "robustness" | "query_seconds" | "response_tenths" => true,
        "endpoints" | "groups" | "sources" | "packet_limit" => true,
        "rotate_seconds" | "secrets" | "workers" => true,
        "linux_gateways" | "report_seconds" => true,
        _ => false,
    }
}

fn is_gateway_key(name: &str) -> bool
    ensures { result ≡ is_among (words_in TableKind.Gateway) name.now }
{
    match name {
        "family" | "listen" | "deliver" | "control" | "discovery" | "source" => true,
        "relay" | "port" | "linux_relay" | "report_seconds" | "join" => true,
        _ => false,
    }
}

fn is_join_key(name: &str) -> bool
    ensures { result ≡ is_among (words_in TableKind.Join) name.now }
{
    match name {
        "name" | "group" | "mode" | "sources" => true,
        _ => false,
    }
}

/// The table that TOML reads.
pub fn read_table(alloc: Global, bytes: &[u8]) -> Result<Table, ConfigFault>
    ensures found { IfOk result (λ table. IsTableOf (table_view table) bytes.now) }
    ensures fault { IfErr result (λ fault. (HasNoTable bytes.now × (fault ≡ ConfigFault.NotToml))
        ⊎ (fault ≡ ConfigFault.Memory)) }
{
    match toml::table_from_slice(alloc, bytes) {
        Ok(table) => Ok(table),
        Err(error) => {
            if error.is_memory() {
                Err(ConfigFault::Memory)
            } else {
                Err(ConfigFault::NotToml)
            }
        }
    }
}

/// The value of a key, if the key is there.
pub fn value_at(table: &Table, key: FileKey) -> Option<&Value>
    ensures { option_map (λ value. view value.now) result ≡ get_member (word_of key) (table_view table.now) }
{
    table.get(key.word())
}

// The table's least key that is none of this kind: its keys ascend.
fn least_unknown<'a>(table: &'a Table, kind: TableKind) -> Option<&'a str>
    ensures found { IfSome result (λ key. IsLeastUnknown (words_in kind) (table_view table.now) key.now) }
    ensures none { IfNone result (AreKnown (words_in kind) (table_view table.now)) }
{
    for key in table.keys() {
        if !kind.has_key(key.as_str()) {
            return Some(key.as_str());
        }
    }
    None
}

/// Whether all keys are known; else the fault of the least one that isn't.
pub fn check_keys(alloc: Global, table: &Table, kind: TableKind) -> Result<(), ConfigFault>
    ensures known { OnOk result (AreKnown (words_in kind) (table_view table.now)) }
    ensures unknown { IfErr result (λ fault. IsUnknownFault (words_in kind) (table_view table.now) fault
        ⊎ (fault ≡ ConfigFault.Memory)) }
{
    let Some(key) = least_unknown(table, kind) else {
        return Ok(());
    };
    match Bytes::copied(alloc, key.as_bytes()) {
        Ok(key) => Err(ConfigFault::Unknown(key)),
        Err(_) => Err(ConfigFault::Memory),
    }
}
