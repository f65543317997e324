//! Lines that make socket calls, one by one. The reasons for which a call is none are those of scripts, which are
//! cases; what else is none stands here.

use crate::memory::is_out_of_memory;
use amt_values::Ip;
use gateway_machine::GatewayEvent;
use gateway_script::{Reason, ScriptError, read_socket_line};
use source_filter::{Filter, Mode};
use std::alloc::{AllocError, Global};
use std::process::Abort;

// What a line is read as: a call, whose sources ascend, or the first reason for which it is none.
#[derive(Clone, Copy)]
enum Read {
    Open(&'static str, Ip, Mode, &'static [Ip]),
    Change(&'static str, Mode, &'static [Ip]),
    Close(&'static str),
    Leave,
    Fault(Reason),
}

const V4: bool = false;

const V6: bool = true;

// 239.1.1.1; 10.0.0.1 and 10.0.0.2.
const GROUP: Ip = Ip::V4(0xef01_0101);

const SOURCES: &[Ip] = &[Ip::V4(0x0a00_0001), Ip::V4(0x0a00_0002)];

// ff3e::1; 2001:db8::9.
const GROUP6: Ip = Ip::V6(0xff3e_0000_0000_0000_0000_0000_0000_0001);

const SOURCES6: &[Ip] = &[Ip::V6(0x2001_0db8_0000_0000_0000_0000_0000_0009)];

// Whether the gateway is of IPv6, the line, and what it is read as.
const ROWS: [(bool, &str, Read); 24] = [
    (
        V4,
        "open a 239.1.1.1 include 10.0.0.2 10.0.0.1 10.0.0.2",
        Read::Open("a", GROUP, Mode::Include, SOURCES),
    ),
    (
        V6,
        "open _9 FF3E:0::1 exclude 2001:DB8::9\n",
        Read::Open("_9", GROUP6, Mode::Exclude, SOURCES6),
    ),
    (
        V4,
        "open a 239.1.1.1 exclude\r\n",
        Read::Open("a", GROUP, Mode::Exclude, &[]),
    ),
    (
        V4,
        "  change  a  exclude  10.0.0.1  10.0.0.2  ",
        Read::Change("a", Mode::Exclude, SOURCES),
    ),
    (
        V6,
        "change a include 2001:db8::9\n",
        Read::Change("a", Mode::Include, SOURCES6),
    ),
    (
        V6,
        "change a include",
        Read::Change("a", Mode::Include, &[]),
    ),
    (
        V4,
        "close 0123456789abcdefghijklmnopqrstuv\n",
        Read::Close("0123456789abcdefghijklmnopqrstuv"),
    ),
    (V6, "close a\r\n", Read::Close("a")),
    (V4, "leave", Read::Leave),
    (V6, "leave \n", Read::Leave),
    (V4, "", Read::Fault(Reason::Word)),
    (V4, "\n", Read::Fault(Reason::Word)),
    (V4, "  \r\n", Read::Fault(Reason::Word)),
    (V6, "# leave\n", Read::Fault(Reason::Word)),
    (V4, "leave\r", Read::Fault(Reason::Word)),
    (V4, "leave\n\n", Read::Fault(Reason::Word)),
    (V4, "close a\nclose b\n", Read::Fault(Reason::Word)),
    (V4, "leave\t\n", Read::Fault(Reason::Word)),
    (V4, "at 0", Read::Fault(Reason::Word)),
    (V4, "nonce 00000001", Read::Fault(Reason::Word)),
    (V4, "dg 192.0.2.1:2268 -", Read::Fault(Reason::Word)),
    (V4, "set port 1", Read::Fault(Reason::Word)),
    (V4, "Leave", Read::Fault(Reason::Word)),
    (V4, "open a 10.0.0.1 between", Read::Fault(Reason::Mode)),
];

fn is_filter(filter: &Filter, mode: Mode, sources: &[Ip]) -> bool {
    filter.mode() == mode && filter.sources() == sources
}

fn is_call(event: &GatewayEvent, wanted: Read) -> bool {
    match event {
        GatewayEvent::Open {
            name: opened,
            group: joined,
            filter,
        } => match wanted {
            Read::Open(name, group, mode, sources) => {
                opened.as_slice() == name.as_bytes()
                    && *joined == group
                    && is_filter(filter, mode, sources)
            }
            _ => false,
        },
        GatewayEvent::Change {
            name: changed,
            filter,
        } => match wanted {
            Read::Change(name, mode, sources) => {
                changed.as_slice() == name.as_bytes() && is_filter(filter, mode, sources)
            }
            _ => false,
        },
        GatewayEvent::Close { name: closed } => match wanted {
            Read::Close(name) => closed.as_slice() == name.as_bytes(),
            _ => false,
        },
        GatewayEvent::LeaveAll => matches!(wanted, Read::Leave),
        _ => false,
    }
}

fn is_fault(error: ScriptError, wanted: Read) -> bool {
    match wanted {
        Read::Fault(reason) => error == ScriptError::Fault { line: 1, reason },
        _ => false,
    }
}

fn is_read(rt: &impl Abort, alloc: Global, v6: bool, line: &str, wanted: Read) {
    match read_socket_line(alloc, v6, line.as_bytes()) {
        Ok(event) => assert!(rt; is_call(&event, wanted), "{line}"),
        Err(error) => assert!(rt; is_fault(error, wanted), "{line}"),
    }
}

#[test]
fn a_line_makes_one_socket_call_or_has_a_reason(rt: HostRuntime) {
    for (v6, line, wanted) in &ROWS {
        is_read(&rt, rt.alloc(), *v6, line, *wanted);
    }
}

// A call with so many spaces, and a line end.
fn spaced(alloc: Global, spaces: usize) -> Result<String, AllocError> {
    let spaces = " ".repeat(alloc, spaces)?;
    format!(in alloc; "leave{spaces}\r\n")
}

fn is_spaced(rt: &impl Abort, alloc: Global, spaces: usize, wanted: Read) {
    match spaced(alloc, spaces) {
        Ok(line) => is_read(rt, alloc, false, line.as_str(), wanted),
        Err(_) => is_out_of_memory(rt, "a long line"),
    }
}

#[test]
fn a_line_that_makes_a_socket_call_has_at_most_140000_octets(rt: HostRuntime) {
    is_spaced(&rt, rt.alloc(), 139_995, Read::Leave);
    is_spaced(&rt, rt.alloc(), 139_996, Read::Fault(Reason::Long));
}
