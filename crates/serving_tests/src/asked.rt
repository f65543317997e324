//! What a running relay answers to lines at its control.

use crate::devices::{Answer, Script, devices_of, link_answers};
use crate::relay::{PACKET, PLAN, SCRIPT, UPDATE, serve_asked};
use crate::relay_ends::two_outs;
use crate::starters::Starter;
use amt_ports::{ListedSpawner, MemLink};
use amt_values::{Ip, Peer};
use relay_serving::{Control, CopyCount, MemCopies};
use std::alloc::{AllocError, Global};
use std::process::Abort;
use std::sync::Wait;
use std::thread::Threads;

const ASKER: Peer = Peer {
    ip: Ip::V4(0x7f00_0001),
    port: 4000,
};

const COUNTS: &str =
    "turns 1\ndatagrams 1\npackets 2\nupdated 1\ntorn 0\nsent 5\nunsent 1\ninline 0\nstarved 0\nlate 0\nowed 0\npublished 2\nrows 1\n= moved 1\n= updated 1\n= copied 2\n. 1\n";

const ROW: &str = "* 198.51.100.7:5000 239.1.1.1 exclude -\n. 1\n";

// The Update and two packets in the first of three turns.
const THREE_TURNS: Script<'static> = Script {
    heard: &[UPDATE, Answer::Nothing, Answer::Nothing, Answer::Nothing],
    fed: &[
        PACKET,
        PACKET,
        Answer::Nothing,
        Answer::Nothing,
        Answer::Nothing,
    ],
    ..SCRIPT
};

// The same, with an Update of 35 records, which want all sources of 239.1.1.1 to 239.1.1.35.
const MANY: Script<'static> = Script {
    heard: &[
        Answer::Octets(
            "05004db758a175550a0b0c0d\
46c0013800000000010238e80a000002e0000016940400002200c5220000002302000000ef010101\
02000000ef01010202000000ef01010302000000ef01010402000000ef01010502000000ef010106\
02000000ef01010702000000ef01010802000000ef01010902000000ef01010a02000000ef01010b\
02000000ef01010c02000000ef01010d02000000ef01010e02000000ef01010f02000000ef010110\
02000000ef01011102000000ef01011202000000ef01011302000000ef01011402000000ef010115\
02000000ef01011602000000ef01011702000000ef01011802000000ef01011902000000ef01011a\
02000000ef01011b02000000ef01011c02000000ef01011d02000000ef01011e02000000ef01011f\
02000000ef01012002000000ef01012102000000ef01012202000000ef010123",
        ),
        Answer::Nothing,
    ],
    ..THREE_TURNS
};

// The link is closed in the second of three turns.
const CUT: Script<'static> = Script {
    heard: &[UPDATE, Answer::Nothing],
    ..THREE_TURNS
};

// Lines, the answers to them, and the turns that were done.
const ROWS: [(&str, &[Answer<'static>], &[&str], u64); 8] = [
    (
        "counts, with the copies",
        &[Answer::Line("counts\n"), Answer::Nothing],
        &[COUNTS],
        3,
    ),
    ("show", &[Answer::Line("show"), Answer::Nothing], &[ROW], 3),
    (
        "show of one endpoint, and of another, in one turn",
        &[
            Answer::Line("show 198.51.100.7:5000\r\n"),
            Answer::Line("show 198.51.100.8:5000\n"),
            Answer::Nothing,
        ],
        &[ROW, ". 1\n"],
        3,
    ),
    (
        "stop in the second turn",
        &[Answer::Nothing, Answer::Line("stop\n"), Answer::Nothing],
        &[". 1\n"],
        2,
    ),
    (
        "lines that ask for nothing",
        &[
            Answer::Line("halt\n"),
            Answer::Line("stop it\n"),
            Answer::Line("show me\n"),
            Answer::Nothing,
        ],
        &["bad word\n. 1\n", "bad count\n. 1\n", "bad peer\n. 1\n"],
        3,
    ),
    (
        "lines that are answers themselves",
        &[
            Answer::Line(". 1\n"),
            Answer::Line("bad word\n. 1\n"),
            Answer::Line("show"),
            Answer::Nothing,
        ],
        &[ROW],
        3,
    ),
    (
        "two of a word, and stop before other lines",
        &[
            Answer::Line("show"),
            Answer::Line("stop"),
            Answer::Line("show"),
            Answer::Nothing,
        ],
        &[ROW, ". 1\n", ROW],
        1,
    ),
    ("a control that is closed", &[], &[], 3),
];

fn control_of(alloc: Global, lines: &[Answer]) -> Result<Control<MemLink, MemCopies>, AllocError> {
    let copies = vec![in alloc; CopyCount { sent: 5, unsent: 1 }]?;
    Ok(Control {
        link: MemLink::new(alloc, link_answers(alloc, ASKER, lines)?),
        copies: MemCopies::new(copies),
    })
}

// The turns that were done, and the control.
fn ask<R: Threads + Wait + Abort + 'static>(
    rt: &R,
    alloc: Global,
    script: &Script,
    lines: &[Answer],
) -> Result<(u64, Option<Control<MemLink, MemCopies>>), AllocError> {
    let mut control = Some(control_of(alloc, lines)?);
    let mut devices = devices_of(alloc, script)?;
    let mut spawner = ListedSpawner::new(rt, Starter { rt }, Vec::new(alloc));
    let outs = two_outs(alloc)?;
    let served = serve_asked(
        rt,
        alloc,
        PLAN,
        &mut devices,
        outs,
        &mut spawner,
        &mut control,
    );
    Ok((served.report.turns, control))
}

fn assert_answers(
    rt: &impl Abort,
    what: &str,
    control: &Option<Control<MemLink, MemCopies>>,
    answers: &[&str],
) {
    let Some(control) = control else {
        panic!(rt; "{what}");
    };
    let tried = control.link.tried();
    assert_eq!(rt; tried.len(), answers.len(), "{what}");
    for (one, answer) in tried.iter().zip(answers.iter()) {
        assert!(rt;
            one.to == ASKER && one.bytes.as_slice() == answer.as_bytes(),
            "{what}"
        );
    }
}

#[test]
fn a_line_is_answered_to_whoever_sent_it(rt: HostRuntime) {
    for (what, lines, answers, turns) in ROWS {
        let Ok((done, control)) = ask(&rt, rt.alloc(), &THREE_TURNS, lines) else {
            panic!(rt; "out of memory");
        };
        assert_eq!(rt; done, turns, "{what}");
        assert_answers(&rt, what, &control, answers);
    }
}

#[test]
fn a_turn_answers_64_lines_and_leaves_the_next_to_the_one_after_it(rt: HostRuntime) {
    let other = Answer::Line("show 198.51.100.8:5000\n");
    let Ok(mut lines) = Vec::from_elem(rt.alloc(), other, 64) else {
        panic!(rt; "out of memory");
    };
    let Ok(()) = lines.push(Answer::Line("counts\n")) else {
        panic!(rt; "out of memory");
    };
    let Ok((_done, Some(control))) = ask(&rt, rt.alloc(), &THREE_TURNS, lines.as_slice()) else {
        panic!(rt; "out of memory");
    };
    let tried = control.link.tried();
    assert_eq!(rt; tried.len(), 65);
    let Some(last) = tried.last() else {
        panic!(rt; "none");
    };
    assert!(rt; last.bytes.as_slice().starts_with(b"turns 2\n"));
}

// The rows of these groups, and the line after them.
fn rows_text(alloc: Global, first: u8, last: u8, end: &str) -> Result<String, AllocError> {
    let mut text = String::new(alloc);
    for group in first..=last {
        write!(text, "* 198.51.100.7:5000 239.1.1.{group} exclude -\n")?;
    }
    text.push_str(end)?;
    Ok(text)
}

fn check_long<R: Threads + Wait + Abort + 'static>(
    rt: &R,
    alloc: Global,
) -> Result<(), AllocError> {
    let (_done, control) = ask(rt, alloc, &MANY, &[Answer::Line("show"), Answer::Nothing])?;
    let first = rows_text(alloc, 1, 33, "")?;
    let second = rows_text(alloc, 34, 35, ". 2\n")?;
    assert_eq!(rt; first.len(), 1344);
    assert_answers(
        rt,
        "two datagrams",
        &control,
        &[first.as_str(), second.as_str()],
    );
    Ok(())
}

#[test]
fn an_answer_of_more_than_1400_octets_is_cut_after_a_line(rt: HostRuntime) {
    assert!(rt; check_long(&rt, rt.alloc()).is_ok());
}

#[test]
fn nobody_is_answered_after_a_turn_that_is_cut(rt: HostRuntime) {
    let lines = [Answer::Line("show"), Answer::Nothing, Answer::Line("show")];
    let Ok((done, control)) = ask(&rt, rt.alloc(), &CUT, &lines) else {
        panic!(rt; "out of memory");
    };
    assert_eq!(rt; done, 1);
    assert_answers(&rt, "the first turn alone", &control, &[ROW]);
}
