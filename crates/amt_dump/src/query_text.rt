//! The lines of a query.

ghost use Rattle.std.specs.Prelude.{◌≡◌, ◌≤◌, ◌<◌, ◌==◌, ◌++◌, length, Ok, OnOk};
ghost use Rattle.amt_values.specs.Address.{number_of};
ghost use Rattle.group_records.specs.{Code.{code_count, code_value}, declared.family.Family.TheVariants.{V4}};
ghost use Rattle.socket_merge.specs.Refusal.{family_of};
ghost use Rattle.amt_script.specs.Texts.{unlawful_text};
ghost use Rattle.amt_dump.specs.{Queries.{query_in}, Texts.{general_words, group_lines, line_of, query_lines}};

use crate::line::begin_line;
use crate::query::read_query;
use amt_script::append_unlawful;
use amt_values::{Bytes, Ip, append_numeral};
use group_records::{Family, code_value};
use relay_machine::Unlawful;
use script_lines::append_ip;
use source_filter::QueryRead;
use std::alloc::AllocError;

fn family_of(ip: &Ip) -> Family
    ensures { result ≡ family_of ip.now }
{
    match ip {
        Ip::V4(_) => Family::V4,
        Ip::V6(_) => Family::V6,
    }
}

fn is_zero(group: &Ip) -> bool
    ensures { result ≡ (number_of group.now == 0) }
{
    match group {
        Ip::V4(number) => *number == 0,
        Ip::V6(number) => *number == 0,
    }
}

// The time between two queries, in seconds.
fn interval_of(query: &QueryRead) -> u32
    ensures { result ≡ code_value V4 query.now.fields.interval_code }
{
    code_value(Family::V4, u16::from(query.fields.interval_code))
}

// The time within which a listener answers, in its family's unit.
fn response_of(query: &QueryRead) -> u32
    requires { query.now.fields.max_code < code_count (family_of query.now.group) }
    ensures { result ≡ code_value (family_of query.now.group) query.now.fields.max_code }
{
    code_value(family_of(&query.group), query.fields.max_code)
}

fn append_general_words(text: &mut Bytes, query: &QueryRead) -> Result<(), AllocError>
    requires { query.now.fields.max_code < code_count (family_of query.now.group) }
    ensures { OnOk result (text.new ≡ text.old ++ general_words query.now) }
{
    text.append(b"general robustness=")?;
    append_numeral(text, u64::from(query.fields.robustness))?;
    text.append(b" interval=")?;
    append_numeral(text, u64::from(interval_of(query)))?;
    text.append(b" response=")?;
    append_numeral(text, u64::from(response_of(query)))
}

// The line of a group that isn't every group.
fn append_group(text: &mut Bytes, number: u32, group: &Ip) -> Result<(), AllocError>
    ensures { OnOk result (text.new ≡ text.old ++ group_lines number group.now) }
{
    if is_zero(group) {
        return Ok(());
    }
    begin_line(text, number)?;
    text.append(b"group ")?;
    append_ip(text, group)?;
    text.append(b"\n")
}

fn append_general(text: &mut Bytes, number: u32, query: &QueryRead) -> Result<(), AllocError>
    requires { query.now.fields.max_code < code_count (family_of query.now.group) }
    ensures { OnOk result (text.new ≡ text.old ++ query_lines number (Ok query.now)) }
{
    begin_line(text, number)?;
    append_general_words(text, query)?;
    text.append(b"\n")?;
    append_group(text, number, &query.group)
}

/// Puts a line at the end that says what is wrong with inner octets.
pub fn append_fault(text: &mut Bytes, number: u32, fault: &Unlawful) -> Result<(), AllocError>
    ensures { OnOk result (text.new ≡ text.old ++ line_of number (unlawful_text fault.now)) }
{
    begin_line(text, number)?;
    append_unlawful(text, fault)?;
    text.append(b"\n")
}

/// Puts the lines of the query at the end that inner octets carry.
pub fn append_carried_query(text: &mut Bytes, number: u32, inner: &[u8]) -> Result<(), AllocError>
    requires { length inner.now ≤ 65535 }
    ensures { OnOk result (text.new ≡ text.old ++ query_lines number (query_in inner.now)) }
{
    match read_query(inner) {
        Ok(query) => append_general(text, number, &query),
        Err(fault) => append_fault(text, number, &fault),
    }
}
