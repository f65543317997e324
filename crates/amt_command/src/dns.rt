//! The relays of a source are asked for: its query is printed, and what an answer says. It knows no device.

ghost use Rattle.std.specs.Prelude.{◌≡◌, ◌≢◌, ◌⊎◌, ℕ, ◌≤◌, ◌^◌, List, [], ◌∷◌, ◌++◌, length, codes, Some, IfErr, IfNone, IfOk, IfSome};
ghost use Rattle.amt_values.specs.Text.{IsIpText};
ghost use Rattle.amt_dns_names.specs.Reverse.{reverse_labels};
ghost use Rattle.amt_dns.specs.{Answer.{IsAnswer}, Texts.{fault_text}};
ghost use Rattle.amt_command.specs.{Command.{dns_task}, Dns.{GivesAnswer, IsAnswerLine}, Task.{IsErrorBy}};

use crate::fault::prefixed_fault;
use crate::task::{HasTask, TaskFault};
use crate::writing::write_text;
use amt_dns::{DnsFault, FoundList, print_answer, print_fault, read_answer};
use amt_dns_names::reverse_name;
use amt_dump::read_datagrams;
use amt_ports::Sink;
use amt_values::{Bytes, Ip, parse_ip};
use amt_words::Word;
use script_lines::{RunFault, ScriptError};
use std::alloc::{AllocError, Global};

/// A source, and the relays that an answer lists for it, where the input has one.
#[derive(Drop)]
pub struct Lookup {
    source: Ip,
    answer: Option<FoundList>,
}

/// Which source is asked for, as the command line gives it.
#[derive(Drop)]
pub struct DnsTask<'a> {
    pub source: Word<'a>,
}

// The fault of octets that are no answer.
fn answer_fault(alloc: Global, fault: &DnsFault) -> TaskFault
    ensures { ((fault.now ≢ DnsFault.Memory) × (result ≡ TaskFault.Fault (codes "dns: " ++ fault_text fault.now)))
        ⊎ (result ≡ TaskFault.Memory) }
{
    let Ok(cause) = print_fault(alloc, fault) else {
        return TaskFault::Memory;
    };
    match fault {
        DnsFault::Memory => TaskFault::Memory,
        _ => prefixed_fault(alloc, b"dns: ", cause.as_slice()),
    }
}

// Reads an answer to the query for the source's relays.
fn read_octets(alloc: Global, source: &Ip, octets: &[u8]) -> Result<FoundList, TaskFault>
    requires { length octets.now ≤ 65535 }
    ensures found { IfOk result (λ found. IsAnswer 0 (reverse_labels source.now) found octets.now) }
    ensures few { IfOk result (λ found. length found ≤ 2 ^ 32) }
    ensures fault { (word bytes : List ℕ) → IsIpText source.now word → IsAnswerLine octets.now bytes
        → IfErr result (IsErrorBy (dns_task word) bytes) }
{
    let Ok(name) = reverse_name(alloc, source) else {
        return Err(TaskFault::Memory);
    };
    match read_answer(alloc, octets, 0, &name) {
        Ok(found) => Ok(found),
        Err(fault) => Err(answer_fault(alloc, &fault)),
    }
}

fn only_one(datagrams: &[Bytes]) -> Option<&Bytes>
    ensures some { IfSome result (λ one. datagrams.now ≡ one.now ∷ []) }
    ensures none { IfNone result (length datagrams.now ≢ 1) }
{
    let (one, rest) = datagrams.split_first()?;
    if rest.is_empty() { Some(one) } else { None }
}

// Reads the one line of an answer.
fn read_line(alloc: Global, source: &Ip, bytes: &[u8]) -> Result<FoundList, TaskFault>
    requires { length bytes.now ≤ 16777216 }
    ensures found { IfOk result (λ found. GivesAnswer source.now (Some found) bytes.now) }
    ensures few { IfOk result (λ found. length found ≤ 2 ^ 32) }
    ensures fault { (word : List ℕ) → IsIpText source.now word → bytes.now ≢ []
        → IfErr result (IsErrorBy (dns_task word) bytes.now) }
{
    let datagrams = match read_datagrams(alloc, bytes) {
        Ok(datagrams) => datagrams,
        Err(ScriptError::Fault { .. }) => return Err(prefixed_fault(alloc, b"dns: ", b"input")),
        Err(ScriptError::Memory) => return Err(TaskFault::Memory),
    };
    let Some(octets) = only_one(datagrams.as_slice()) else {
        return Err(prefixed_fault(alloc, b"dns: ", b"input"));
    };
    read_octets(alloc, source, octets.as_slice())
}

impl<'a> HasTask for DnsTask<'a> {
    ghost use Rattle.std.specs.Prelude.{◌≤◌, ◌^◌, length, IfSome};

    type Value = Lookup;

    ghost task = { λ task. dns_task task.source };

    ghost CanWrite = { λ lookup. IfSome lookup.answer (λ found. length found ≤ 2 ^ 32) };

    fn read(&self, alloc: Global, bytes: &[u8]) -> Result<Lookup, TaskFault> {
        let Some(source) = parse_ip(self.source.as_str().as_bytes()) else {
            return Err(prefixed_fault(alloc, b"dns: ", b"source"));
        };
        if bytes.is_empty() {
            return Ok(Lookup {
                source,
                answer: None,
            });
        }
        match read_line(alloc, &source, bytes) {
            Ok(found) => Ok(Lookup {
                source,
                answer: Some(found),
            }),
            Err(fault) => Err(fault),
        }
    }

    fn difference(&self, _alloc: Global, _lookup: &Lookup) -> Result<Option<Bytes>, AllocError> {
        Ok(None)
    }

    fn write<O: Sink>(&self, alloc: Global, lookup: &Lookup, out: &mut O) -> Result<(), RunFault> {
        let Ok(text) = print_answer(alloc, &lookup.source, &lookup.answer) else {
            return Err(RunFault::Memory);
        };
        write_text(out, text.as_slice())
    }
}
