//! Keys whose values are texts. It knows no key.

ghost use Rattle.std.specs.Prelude.{◌≡◌, Bool, IfOk, IfErr, IfSome, OnOk, Ok, None, Some};
ghost use Rattle.script_lines.specs.Form.{Form, IsNameText, a_name};
ghost use Rattle.toml.specs.{Data.{as_str, get_member}, View.{table_view}};
ghost use Rattle.amt_config.specs.{FileKey.{word_of}, Key.{HasOptional, HasText, HasTextOr, IsRight, a_text, optional, read_at, required, text_key}, Reading.{MayFail}};

use crate::fault::{ConfigFault, KeyFault, told};
use crate::forms::TextForm;
use crate::key::FileKey;
use crate::table::value_at;
use script_lines::is_name;
use std::alloc::Global;
use toml::Table;

// The text of a key, if the key is there.
fn text_at(alloc: Global, table: &Table, key: FileKey) -> Result<Option<&str>, ConfigFault>
    ensures text { IfOk result (λ found. IfSome found (λ text. read_at as_str (word_of key) (table_view table.now) ≡ Some text.now)) }
    ensures none { result ≡ Ok None → get_member (word_of key) (table_view table.now) ≡ None }
    ensures fault { (must : Bool) (form : Form) → IfErr result (MayFail (table_view table.now) (text_key (word_of key) must form)) }
{
    match value_at(table, key) {
        None => Ok(None),
        Some(value) => match value.as_str() {
            Some(text) => Ok(Some(text)),
            None => Err(told(alloc, key, KeyFault::Kind)),
        },
    }
}

// The text of a key that must be there.
fn required_text(alloc: Global, table: &Table, key: FileKey) -> Result<&str, ConfigFault>
    ensures text { IfOk result (λ text. read_at as_str (word_of key) (table_view table.now) ≡ Some text.now) }
    ensures fault { (form : Form) → IfErr result (MayFail (table_view table.now) (required (word_of key) (a_text form))) }
{
    match text_at(alloc, table, key) {
        Ok(Some(text)) => Ok(text),
        Ok(None) => Err(told(alloc, key, KeyFault::Missing)),
        Err(fault) => Err(fault),
    }
}

/// The value of a key that must be there.
pub fn required<F: TextForm>(
    alloc: Global,
    table: &Table,
    key: FileKey,
    form: &F,
) -> Result<F::Value, ConfigFault>
    ensures found { IfOk result (λ value. HasText (word_of key) (table_view table.now) (F.Names form.now value)) }
    ensures right { OnOk result (IsRight (table_view table.now) (required (word_of key) (a_text (F.form form.now)))) }
    ensures fault { IfErr result (MayFail (table_view table.now) (required (word_of key) (a_text (F.form form.now)))) }
{
    let text = match required_text(alloc, table, key) {
        Ok(text) => text,
        Err(fault) => return Err(fault),
    };
    match form.read(text.as_bytes()) {
        Ok(value) => Ok(value),
        Err(fault) => Err(told(alloc, key, fault)),
    }
}

/// The value of a key, if the key is there.
pub fn optional<F: TextForm>(
    alloc: Global,
    table: &Table,
    key: FileKey,
    form: &F,
) -> Result<Option<F::Value>, ConfigFault>
    ensures found { IfOk result (HasOptional (word_of key) (table_view table.now) (F.Names form.now)) }
    ensures right { OnOk result (IsRight (table_view table.now) (optional (word_of key) (a_text (F.form form.now)))) }
    ensures fault { IfErr result (MayFail (table_view table.now) (optional (word_of key) (a_text (F.form form.now)))) }
{
    let text = match text_at(alloc, table, key) {
        Ok(Some(text)) => text,
        Ok(None) => return Ok(None),
        Err(fault) => return Err(fault),
    };
    match form.read(text.as_bytes()) {
        Ok(value) => Ok(Some(value)),
        Err(fault) => Err(told(alloc, key, fault)),
    }
}

/// The value of a key, or the default where the key isn't there.
pub fn value_or<F: TextForm>(
    alloc: Global,
    table: &Table,
    key: FileKey,
    form: &F,
    default: F::Value,
) -> Result<F::Value, ConfigFault>
    ensures found { IfOk result (λ value. HasTextOr (word_of key) (table_view table.now) (F.Names form.now value) (value ≡ default)) }
    ensures right { OnOk result (IsRight (table_view table.now) (optional (word_of key) (a_text (F.form form.now)))) }
    ensures fault { IfErr result (MayFail (table_view table.now) (optional (word_of key) (a_text (F.form form.now)))) }
{
    match optional(alloc, table, key, form) {
        Ok(Some(value)) => Ok(value),
        Ok(None) => Ok(default),
        Err(fault) => Err(fault),
    }
}

/// The name of a key that must be there.
pub fn name_at(alloc: Global, table: &Table, key: FileKey) -> Result<&str, ConfigFault>
    ensures found { IfOk result (λ name. HasText (word_of key) (table_view table.now) (IsNameText name.now)) }
    ensures right { OnOk result (IsRight (table_view table.now) (required (word_of key) (a_text a_name))) }
    ensures fault { IfErr result (MayFail (table_view table.now) (required (word_of key) (a_text a_name))) }
{
    let text = match required_text(alloc, table, key) {
        Ok(text) => text,
        Err(fault) => return Err(fault),
    };
    if !is_name(text.as_bytes()) {
        return Err(told(alloc, key, KeyFault::Range));
    }
    Ok(text)
}
