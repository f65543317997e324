//! Calls of scripts that no replay shows: events, steps and faults as text; and a script of 10,000 Requests. It must not
//! know how they are made.

use crate::memory::is_out_of_memory;
use amt_ports::MemSink;
use amt_script::{
    Reason, RelayItem, RunFault, ScriptError, print_relay_event, print_relay_step,
    read_relay_script, run_relay_script,
};
use amt_values::{Bytes, INPUT_LIMIT};
use relay_machine::{Outcome, Sends, Step};
use response_mac::hmac_sha256;
use std::alloc::{AllocError, Global};
use std::fmt::Display;
use std::process::Abort;

// The relay's addresses, with which its scripts begin.
const ADDRESSES: &str = "set relay 192.0.2.1\nset query4 192.0.2.1\n";

// Lines of a script, as its events are printed.
const LINES: [&str; 8] = [
    "at 4611686018427387903\n",
    "secret 00112233445566778899aabbccddeeff00112233445566778899aabbccddeeff\n",
    "dg 198.51.100.7:5000 0100000001020304\n",
    "dg 198.51.100.7:0 -\n",
    "dg [2001:db8::1:0:0:1]:65535 00\n",
    "mc 4500001c0000000004119c92c6336409ef0101010400040000080000\n",
    "mc -\n",
    "limits 1024 64 1\n",
];

// The first event of a relay's script of these lines, as it is printed; nothing where there is none.
#[tactic(auto, using(amt_script::proofs::Printed::has_line))]
fn printed_event(alloc: Global, lines: &str) -> Result<Bytes, AllocError> {
    let script = format!(in alloc; "{ADDRESSES}{lines}")?;
    if script.len() > INPUT_LIMIT {
        return Ok(Bytes::new(alloc));
    }
    let Ok(script) = read_relay_script(alloc, script.as_bytes()) else {
        return Ok(Bytes::new(alloc));
    };
    match script.items.as_slice().first() {
        Some(RelayItem::Event(event)) => print_relay_event(alloc, event),
        _ => Ok(Bytes::new(alloc)),
    }
}

fn is_printed(rt: &impl Abort, printed: Result<Bytes, AllocError>, text: &str) {
    match printed {
        Ok(printed) => assert_eq!(rt; printed.as_slice(), text.as_bytes()),
        Err(_) => is_out_of_memory(rt, text),
    }
}

#[test]
fn a_printed_event_is_read_back(rt: HostRuntime) {
    for line in LINES.as_slice() {
        is_printed(&rt, printed_event(rt.alloc(), line), line);
    }
}

fn step_text(alloc: Global, outcome: Outcome) -> Result<Bytes, AllocError> {
    let step = Step {
        outcome,
        sends: Sends::new(alloc),
        change: None,
    };
    print_relay_step(alloc, 7, &step)
}

#[test]
fn a_step_has_its_number_and_its_outcome(rt: HostRuntime) {
    is_printed(
        &rt,
        step_text(rt.alloc(), Outcome::Copied(0)),
        "= 7 copied 0\n",
    );
}

fn shown(alloc: Global, error: &impl Display) -> Result<Bytes, AllocError> {
    let text = format!(in alloc; "{error}")?;
    Bytes::copied(alloc, text.as_bytes())
}

#[test]
fn a_fault_has_its_text(rt: HostRuntime) {
    let fault = ScriptError::Fault {
        line: 3,
        reason: Reason::Late,
    };
    is_printed(&rt, shown(rt.alloc(), &fault), "line 3: late");
    is_printed(
        &rt,
        shown(rt.alloc(), &ScriptError::Memory),
        "out of memory",
    );
    is_printed(&rt, shown(rt.alloc(), &RunFault::Write), "write fault");
    is_printed(&rt, shown(rt.alloc(), &RunFault::Memory), "out of memory");
}

// Of the text for `requests`, its HMAC under the empty key, computed in Python with the text itself.
const TEXT_OF_REQUESTS: [u8; 32] = [
    0x72, 0xb2, 0xec, 0x10, 0x88, 0x73, 0xce, 0xfc, 0x02, 0x71, 0xa6, 0xbe, 0x0c, 0x64, 0x90, 0x6c,
    0xf7, 0x2d, 0xd6, 0x06, 0x18, 0x43, 0xbc, 0xf4, 0xeb, 0x67, 0x64, 0x91, 0xf6, 0x88, 0x8a, 0x69,
];

// A Request from each of 10,000 ports, and then what the relay keeps.
fn requests(alloc: Global) -> Result<String, AllocError> {
    let mut script = format!(in alloc; "{ADDRESSES}at 1000\n")?;
    for port in 1..=10_000 {
        write!(script, "dg 198.51.100.7:{port} 030000000a0b0c0d\n")?;
    }
    script.push_str("show\n")?;
    Ok(script)
}

// The text of a relay's script.
fn replayed(alloc: Global, script: &str) -> Option<MemSink> {
    if script.len() > INPUT_LIMIT {
        return None;
    }
    let script = read_relay_script(alloc, script.as_bytes()).ok()?;
    let mut out = MemSink::new(alloc);
    match run_relay_script(alloc, &script, &mut out) {
        Ok(()) => Some(out),
        Err(_) => None,
    }
}

fn are_forgotten(rt: &impl Abort, text: &[u8]) {
    assert!(rt; text.ends_with(b"\n= 10002 rows 0\n. 10002\n"));
    assert_eq!(rt; hmac_sha256(&[], text), TEXT_OF_REQUESTS);
}

fn replayed_requests(alloc: Global) -> Option<MemSink> {
    match requests(alloc) {
        Ok(script) => replayed(alloc, script.as_str()),
        Err(_) => None,
    }
}

// Each Request has its Query, octet for octet, and nothing is kept of it.
#[test]
fn requests_from_10_000_ports_leave_nothing(rt: HostRuntime) {
    match replayed_requests(rt.alloc()) {
        Some(out) => are_forgotten(&rt, out.as_slice()),
        None => is_out_of_memory(&rt, "requests"),
    }
}
