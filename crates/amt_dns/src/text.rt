//! The text of a query and of its answer.

ghost use Rattle.std.specs.Prelude.{◌≡◌, ◌≤◌, ◌++◌, ◌^◌, decimal, flat_map, length, codes, IfOk, IfSome, OnOk};
ghost use Rattle.amt_dns.specs.{Choice.{chosen_of}, Texts.{answer_lines, choice_line, dns_text, fault_text, found_text, query_line, record_line, relay_text}};

use crate::choice::choose;
use crate::fault::DnsFault;
use crate::found::{Found, FoundList, Relay};
use amt_dns_names::{reverse_name, write_query};
use amt_values::{Bytes, Ip};
use script_lines::{append_hex, append_ip, append_numbered};
use std::alloc::{AllocError, Global};

#[tactic(auto, unfolding(crate::specs::Texts::query_line))]
fn append_query(alloc: Global, text: &mut Bytes, source: &Ip) -> Result<(), AllocError>
    ensures { OnOk result (text.new ≡ text.old ++ query_line source.now) }
{
    let name = reverse_name(alloc, source)?;
    let query = write_query(alloc, 0, &name)?;
    text.append(b"query ")?;
    append_hex(text, query.as_slice())?;
    text.append(b"\n")
}

fn append_relay(alloc: Global, text: &mut Bytes, relay: &Relay) -> Result<(), AllocError>
    ensures { OnOk result (text.new ≡ text.old ++ relay_text relay.now) }
{
    match relay {
        Relay::None => text.append(b"none"),
        Relay::At(ip) => append_ip(text, ip),
        Relay::Named(name) => {
            text.append(b"name ")?;
            append_hex(text, name.wire(alloc)?.as_slice())
        }
    }
}

fn append_found(alloc: Global, text: &mut Bytes, found: &Found) -> Result<(), AllocError>
    ensures { OnOk result (text.new ≡ text.old ++ found_text found.now) }
{
    text.append(if found.direct { b"1 " } else { b"0 " })?;
    append_relay(alloc, text, &found.relay)?;
    text.append(b"\n")
}

#[tactic(auto, unfolding(crate::specs::Texts::record_line))]
fn append_record(alloc: Global, text: &mut Bytes, found: &Found) -> Result<(), AllocError>
    ensures { OnOk result (text.new ≡ text.old ++ record_line found.now) }
{
    append_numbered(text, b"record ", u64::from(found.precedence))?;
    text.append(b" ")?;
    append_found(alloc, text, found)
}

fn append_records(alloc: Global, text: &mut Bytes, records: &[Found]) -> Result<(), AllocError>
    ensures { OnOk result (text.new ≡ text.old ++ flat_map record_line records.now) }
{
    for one in records {
        append_record(alloc, text, one)?;
    }
    Ok(())
}

fn append_choice(alloc: Global, text: &mut Bytes, found: &FoundList) -> Result<(), AllocError>
    requires { length found.now ≤ 2 ^ 32 }
    ensures { OnOk result (text.new ≡ text.old ++ choice_line (chosen_of found.now)) }
{
    let Some(place) = choose(found) else {
        return text.append(b"choose nothing\n");
    };
    text.append(b"choose ")?;
    append_found(alloc, text, &found.as_slice()[place as usize])
}

fn append_answer(
    alloc: Global,
    text: &mut Bytes,
    answer: &Option<FoundList>,
) -> Result<(), AllocError>
    requires { IfSome answer.now (λ found. length found ≤ 2 ^ 32) }
    ensures { OnOk result (text.new ≡ text.old ++ answer_lines answer.now) }
{
    let Some(found) = answer else {
        return Ok(());
    };
    append_records(alloc, text, found.as_slice())?;
    append_choice(alloc, text, found)
}

/// The query for a source's relays, and a line for each relay of its answer, if there is one, with the one that is
/// tried first.
pub fn print_answer(
    alloc: Global,
    source: &Ip,
    answer: &Option<FoundList>,
) -> Result<Bytes, AllocError>
    requires { IfSome answer.now (λ found. length found ≤ 2 ^ 32) }
    ensures { IfOk result (λ text. text ≡ dns_text source.now answer.now) }
{
    let mut text = Bytes::new(alloc);
    append_query(alloc, &mut text, source)?;
    append_answer(alloc, &mut text, answer)?;
    Ok(text)
}

// Two numbers, with a space between them.
fn append_pair(text: &mut Bytes, word: &[u8], one: u64, other: u64) -> Result<(), AllocError>
    ensures { OnOk result (text.new ≡ text.old ++ (word.now ++ (decimal one ++ (codes " " ++ decimal other)))) }
{
    append_numbered(text, word, one)?;
    append_numbered(text, b" ", other)
}

fn append_fault(text: &mut Bytes, fault: &DnsFault) -> Result<(), AllocError>
    ensures { OnOk result (text.new ≡ text.old ++ fault_text fault.now) }
{
    match *fault {
        DnsFault::Short(need, have) => append_pair(text, b"short ", need.into(), have.into()),
        DnsFault::Id(want, have) => append_pair(text, b"id ", want.into(), have.into()),
        DnsFault::NotAnswer => text.append(b"notanswer"),
        DnsFault::Truncated => text.append(b"truncated"),
        DnsFault::Code(code) => append_numbered(text, b"code ", code.into()),
        DnsFault::Questions(count) => append_numbered(text, b"questions ", count.into()),
        DnsFault::Name(place) => append_numbered(text, b"name ", place.into()),
        DnsFault::Question => text.append(b"question"),
        DnsFault::Record(number) => append_numbered(text, b"record ", number.into()),
        DnsFault::Data(number) => append_numbered(text, b"data ", number.into()),
        DnsFault::Memory => Ok(()),
    }
}

/// A fault, with its numbers in decimal; of `Memory` nothing.
pub fn print_fault(alloc: Global, fault: &DnsFault) -> Result<Bytes, AllocError>
    ensures { IfOk result (λ text. text ≡ fault_text fault.now) }
{
    let mut text = Bytes::new(alloc);
    append_fault(&mut text, fault)?;
    Ok(text)
}
