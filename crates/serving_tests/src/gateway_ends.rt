//! What a gateway has counted by the end of a run that a device ends, which the command doesn't print.

use crate::devices::{Answer, Script};
use crate::gateway::{KNOWING, MESSAGE, OPENING, QUERY, SCRIPT, devices_of, serve};
use amt_ports::{End, MemOut};
use gateway_serving::GatewayServed;
use std::alloc::{AllocError, Global};
use std::process::Abort;

// The call that fails, counted from 1: a word, or a receiving of the link or of the control.
#[derive(Clone, Copy)]
enum Call {
    Word(u64),
    Link(u64),
    Control(u64),
}

// A packet comes in the second turn.
const PACKET: Script<'static> = Script {
    heard: &[QUERY, Answer::Nothing, MESSAGE, Answer::Nothing],
    ..SCRIPT
};

// Two lines come in the second turn, of which one makes no call.
const LINES: Script<'static> = Script {
    heard: &[QUERY, Answer::Nothing, Answer::Nothing],
    fed: &[
        OPENING,
        Answer::Nothing,
        Answer::Line("jump"),
        Answer::Line("close a"),
    ],
    ..SCRIPT
};

// The numbers of turns, datagrams, lines, bad lines and packets.
type Counts = [u64; 5];

const ROWS: [(&str, Script<'static>, Call, End, Counts); 7] = [
    (
        "the first word",
        SCRIPT,
        Call::Word(1),
        End::WordsFault,
        [0; 5],
    ),
    (
        "the link at once",
        SCRIPT,
        Call::Link(1),
        End::LinkFault,
        [0; 5],
    ),
    (
        "the link in the second turn",
        SCRIPT,
        Call::Link(3),
        End::LinkFault,
        [1, 1, 1, 0, 0],
    ),
    (
        "the link after a packet",
        PACKET,
        Call::Link(4),
        End::LinkFault,
        [1, 2, 1, 0, 1],
    ),
    (
        "the control after a packet",
        PACKET,
        Call::Control(3),
        End::FeedFault,
        [1, 2, 1, 0, 1],
    ),
    (
        "the control after lines",
        LINES,
        Call::Control(5),
        End::FeedFault,
        [1, 1, 3, 1, 0],
    ),
    (
        "the word of the second turn",
        SCRIPT,
        Call::Word(3),
        End::WordsFault,
        [1, 1, 1, 0, 0],
    ),
];

fn failing<'a>(script: Script<'a>, call: Call) -> Script<'a> {
    match call {
        Call::Word(drawing) => Script { drawing, ..script },
        Call::Link(receiving) => Script {
            receiving,
            ..script
        },
        Call::Control(feeding) => Script { feeding, ..script },
    }
}

fn report_of(end: End, counts: Counts) -> GatewayServed {
    let [turns, datagrams, controls, bad_controls, delivered] = counts;
    GatewayServed {
        end,
        turns,
        datagrams,
        controls,
        bad_controls,
        delivered,
        unsent: 0,
        starved: 0,
    }
}

fn serve_over(
    rt: &impl Abort,
    alloc: Global,
    script: &Script,
) -> Result<GatewayServed, AllocError> {
    let mut devices = devices_of(alloc, script)?;
    let mut out = MemOut::new(alloc);
    Ok(serve(rt, alloc, KNOWING, 3, &mut devices, &mut out))
}

#[test]
fn a_gateway_that_a_device_ends_has_counted_what_was_before(rt: HostRuntime) {
    for (what, script, call, end, counts) in ROWS {
        let Ok(report) = serve_over(&rt, rt.alloc(), &failing(script, call)) else {
            panic!(rt; "out of memory");
        };
        assert_eq!(rt; report, report_of(end, counts), "{what}");
    }
}
