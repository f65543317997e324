//! What a relay has counted by the end of a run that a device ends, which the command doesn't print.

use crate::devices::{Answer, Script, devices_of};
use crate::relay::{PLAN, SCRIPT, UPDATE, serve};
use crate::starters::Starter;
use amt_ports::{ListedSpawner, MemOut};
use relay_serving::{End, ServePlan, ServeReport, Served};
use replication_workers::Outs;
use std::alloc::{AllocError, Global};
use std::process::Abort;
use std::sync::Wait;
use std::thread::Threads;

// The call that fails, counted from 1: a start, a word, a receiving of the link or of the feed. A new secret is
// due in each turn where a word of one fails.
#[derive(Clone, Copy)]
enum Call {
    Start(u64),
    Word(u64),
    NewWord(u64),
    Link(u64),
    Feed(u64),
}

// The numbers of turns, datagrams, packets, Updates, copies, and entries that are owed and published.
type Counts = [u64; 7];

// The moment of the second turn is published only after the link.
const ROWS: [(&str, Call, End, Counts); 7] = [
    ("the first worker", Call::Start(1), End::SpawnFault, [0; 7]),
    ("the second worker", Call::Start(2), End::SpawnFault, [0; 7]),
    (
        "the first word of the first secret",
        Call::Word(1),
        End::WordsFault,
        [0; 7],
    ),
    ("its last word", Call::Word(4), End::WordsFault, [0; 7]),
    (
        "the link in the second turn",
        Call::Link(3),
        End::LinkFault,
        [1, 1, 2, 1, 2, 1, 2],
    ),
    (
        "the feed in the second turn",
        Call::Feed(4),
        End::FeedFault,
        [1, 1, 2, 1, 2, 0, 3],
    ),
    (
        "a word of a new secret",
        Call::NewWord(7),
        End::WordsFault,
        [1, 1, 2, 1, 2, 1, 2],
    ),
];

const HEARD: Script<'static> = Script {
    heard: &[UPDATE, Answer::Nothing, Answer::Nothing],
    ..SCRIPT
};

fn script_of(call: Call) -> Script<'static> {
    match call {
        Call::Start(_) => SCRIPT,
        Call::Word(drawing) | Call::NewWord(drawing) => Script { drawing, ..SCRIPT },
        Call::Link(receiving) => Script {
            receiving,
            ..SCRIPT
        },
        Call::Feed(feeding) => Script { feeding, ..HEARD },
    }
}

fn plan_of(call: Call) -> ServePlan {
    match call {
        Call::NewWord(_) => ServePlan {
            rotate_ms: 1,
            ..PLAN
        },
        _ => PLAN,
    }
}

// The start that is refused, and how many links out are left.
fn refused(call: Call) -> (u64, usize) {
    match call {
        Call::Start(number) => (number, 1),
        _ => (0, 2),
    }
}

fn report_of(end: End, counts: Counts) -> ServeReport {
    let [turns, datagrams, packets, updated, sent, owed, published] = counts;
    ServeReport {
        end,
        turns,
        datagrams,
        packets,
        updated,
        torn: 0,
        sent,
        unsent: 0,
        inline: 0,
        starved: 0,
        late: 0,
        owed,
        published,
        apart: 0,
    }
}

pub fn two_outs(alloc: Global) -> Result<Outs<MemOut>, AllocError> {
    let mut outs = Vec::with_capacity(alloc, 2)?;
    outs.push(MemOut::new(alloc))?;
    outs.push(MemOut::new(alloc))?;
    Ok(Outs::from(outs))
}

fn serve_failing<R: Threads + Wait + Abort + 'static>(
    rt: &R,
    alloc: Global,
    call: Call,
) -> Result<Served<MemOut>, AllocError> {
    let mut devices = devices_of(alloc, &script_of(call))?;
    let starts = vec![in alloc; refused(call).0]?;
    let outs = two_outs(alloc)?;
    let mut spawner = ListedSpawner::new(rt, Starter { rt }, starts);
    Ok(serve(rt, alloc, plan_of(call), &mut devices, outs, &mut spawner))
}

#[test]
fn a_relay_that_a_device_ends_has_counted_what_was_before(rt: HostRuntime) {
    for (what, call, end, counts) in ROWS {
        let Ok(served) = serve_failing(&rt, rt.alloc(), call) else {
            panic!(rt; "out of memory");
        };
        assert_eq!(rt; served.report, report_of(end, counts), "{what}");
        assert_eq!(rt; served.outs.len(), refused(call).1, "{what}");
    }
}
