//! Keys whose values are whole numbers, and the range that both ends have. It knows no key.

ghost use Rattle.std.specs.{Prelude.{◌≡◌, IfOk, IfErr, IfSome, IfNone, OnOk, pos}, Int.{IsInRange}};
ghost use Rattle.toml.specs.View.{table_view};
ghost use Rattle.amt_config.specs.{FileKey.{word_of}, Key.{HasWholeNumber, IsOutside, IsRight, a_whole, optional}, Reading.{MayFail}};

use crate::fault::{ConfigFault, KeyFault, told};
use crate::key::FileKey;
use crate::table::value_at;
use relay_machine::NumberRange;
use std::alloc::Global;
use toml::Table;

/// The seconds from one line of counts to the next; with 0 there is none.
pub const REPORT_SECONDS: NumberRange = NumberRange {
    least: 0,
    most: 86_400,
    default: 0,
};

/// The number of a key, which is in the range, or its default where the key isn't there.
pub fn number_at(
    alloc: Global,
    table: &Table,
    key: FileKey,
    range: NumberRange,
) -> Result<u32, ConfigFault>
    ensures found { IfOk result (λ number. HasWholeNumber (word_of key) range (table_view table.now) number) }
    ensures right { OnOk result (IsRight (table_view table.now) (optional (word_of key) (a_whole range))) }
    ensures fault { IfErr result (MayFail (table_view table.now) (optional (word_of key) (a_whole range))) }
{
    let value = match value_at(table, key) {
        Some(value) => value,
        None => return Ok(range.default),
    };
    let number = match value.as_integer() {
        Some(number) => number,
        None => return Err(told(alloc, key, KeyFault::Kind)),
    };
    match in_range(number, range) {
        Some(number) => Ok(number),
        None => Err(told(alloc, key, KeyFault::Range)),
    }
}

// The number where it is in the range.
fn in_range(number: i64, range: NumberRange) -> Option<u32>
    ensures found { IfSome result (λ inside. (number ≡ pos inside) × IsInRange range.least range.most inside) }
    ensures none { IfNone result (IsOutside range number) }
{
    if number < i64::from(range.least) {
        return None;
    }
    if number > i64::from(range.most) {
        return None;
    }
    Some(number as u32)
}
