//! Keys whose values are arrays. It knows no key.

ghost use Rattle.std.specs.Prelude.{◌≡◌, IfOk, IfErr, OnOk, Some, option_map};
ghost use Rattle.script_lines.specs.Form.{Form};
ghost use Rattle.toml.specs.{Data.{as_str, as_table}, View.{items_view, table_view, view}};
ghost use Rattle.amt_config.specs.{Arrays.{all_are, as_tables, as_texts, those_in}, FileKey.{word_of}, Key.{HasTables, IsRight, optional, read_at, required, some_tables, some_texts}, Reading.{MayFail}};

use crate::fault::{ConfigFault, KeyFault, told};
use crate::key::FileKey;
use crate::table::value_at;
use std::alloc::Global;
use toml::{Table, Value};

fn are_texts(items: &[Value]) -> bool
    ensures { result ≡ all_are as_str (items_view items.now) }
{
    for item in items {
        if item.as_str().is_none() {
            return false;
        }
    }
    true
}

fn are_tables(items: &[Value]) -> bool
    ensures { result ≡ all_are as_table (items_view items.now) }
{
    for item in items {
        if item.as_table().is_none() {
            return false;
        }
    }
    true
}

// The items of a value that is an array of texts.
fn texts_of(value: &Value) -> Option<&[Value]>
    ensures { option_map (λ items. those_in as_str (items_view items.now)) result ≡ as_texts (view value.now) }
{
    let items = match value.as_array() {
        Some(items) => items.as_slice(),
        None => return None,
    };
    if are_texts(items) { Some(items) } else { None }
}

// The items of a value that is an array of tables.
fn tables_of(value: &Value) -> Option<&[Value]>
    ensures { option_map (λ items. those_in as_table (items_view items.now)) result ≡ as_tables (view value.now) }
{
    let items = match value.as_array() {
        Some(items) => items.as_slice(),
        None => return None,
    };
    if are_tables(items) { Some(items) } else { None }
}

/// The texts of a key that must be there.
pub fn texts_at(alloc: Global, table: &Table, key: FileKey) -> Result<&[Value], ConfigFault>
    ensures found { IfOk result (λ items.
        read_at as_texts (word_of key) (table_view table.now) ≡ Some (those_in as_str (items_view items.now))) }
    ensures fault { (form : Form) → IfErr result (MayFail (table_view table.now) (required (word_of key) (some_texts form))) }
{
    let value = match value_at(table, key) {
        Some(value) => value,
        None => return Err(told(alloc, key, KeyFault::Missing)),
    };
    match texts_of(value) {
        Some(items) => Ok(items),
        None => Err(told(alloc, key, KeyFault::Kind)),
    }
}

/// The tables of a key; none where the key isn't there.
pub fn tables_at(alloc: Global, table: &Table, key: FileKey) -> Result<&[Value], ConfigFault>
    ensures found { IfOk result (λ items. HasTables (word_of key) (table_view table.now) (those_in as_table (items_view items.now))) }
    ensures right { OnOk result (IsRight (table_view table.now) (optional (word_of key) some_tables)) }
    ensures fault { IfErr result (MayFail (table_view table.now) (optional (word_of key) some_tables)) }
{
    let value = match value_at(table, key) {
        Some(value) => value,
        None => return Ok(&[]),
    };
    match tables_of(value) {
        Some(items) => Ok(items),
        None => Err(told(alloc, key, KeyFault::Kind)),
    }
}
