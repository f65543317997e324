//! Keys whose values are booleans. It knows no key.

ghost use Rattle.std.specs.Prelude.{◌≡◌, IfOk, IfErr, OnOk};
ghost use Rattle.toml.specs.View.{table_view};
ghost use Rattle.amt_config.specs.{FileKey.{word_of}, Key.{HasBoolean, IsRight, a_boolean, optional}, Reading.{MayFail}};

use crate::fault::{ConfigFault, KeyFault, told};
use crate::key::FileKey;
use crate::table::value_at;
use std::alloc::Global;
use toml::Table;

/// The boolean of a key; false where the key isn't there.
pub fn flag_at(alloc: Global, table: &Table, key: FileKey) -> Result<bool, ConfigFault>
    ensures found { IfOk result (HasBoolean (word_of key) (table_view table.now)) }
    ensures right { OnOk result (IsRight (table_view table.now) (optional (word_of key) a_boolean)) }
    ensures fault { IfErr result (MayFail (table_view table.now) (optional (word_of key) a_boolean)) }
{
    let value = match value_at(table, key) {
        Some(value) => value,
        None => return Ok(false),
    };
    match value.as_bool() {
        Some(flag) => Ok(flag),
        None => Err(told(alloc, key, KeyFault::Kind)),
    }
}
