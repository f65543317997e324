//! Askings and answers as they are printed.

use crate::{
    Asking, GatewayAsking, Tally, answer_line, append_tally, bad_text, begins_asking, is_answer,
    read_asking, read_gateway_asking,
};
use amt_ports::MemLink;
use amt_values::{AMT_PORT, Bytes, Ip, Peer};
use script_lines::Reason;
use std::alloc::{AllocError, Global};
use std::collections::VecDeque;
use std::process::Abort;

// 192.0.2.1:2268.
const PEER: Peer = Peer {
    ip: Ip::V4(0xc000_0201),
    port: AMT_PORT,
};

// Lines, and what they are read as.
const LINES: [(&[u8], Result<Asking, Reason>); 20] = [
    (b"counts", Ok(Asking::Counts)),
    (b"counts\n", Ok(Asking::Counts)),
    (b"counts\r\n", Ok(Asking::Counts)),
    (b"  show ", Ok(Asking::Show)),
    (b"show  192.0.2.1:2268\n", Ok(Asking::ShowOf(PEER))),
    (b"stop\n", Ok(Asking::Stop)),
    (b"", Err(Reason::Word)),
    (b" \r\n", Err(Reason::Word)),
    (b"stop\r", Err(Reason::Word)),
    (b"stop\n\n", Err(Reason::Word)),
    (b"stop\r\r\n", Err(Reason::Word)),
    (b"show\x07", Err(Reason::Word)),
    (b"Counts", Err(Reason::Word)),
    (b"open a b c", Err(Reason::Word)),
    (b"counts 1", Err(Reason::Count)),
    (b"stop stop\n", Err(Reason::Count)),
    (b"show 192.0.2.1 2268", Err(Reason::Count)),
    (b"show 192.0.2.1:2268 x", Err(Reason::Count)),
    (b"show 192.0.2.1", Err(Reason::Peer)),
    (b"show counts", Err(Reason::Peer)),
];

// Lines to a gateway, what they are read as, and whether they begin as askings.
const GATEWAY_LINES: [(&[u8], Result<GatewayAsking, Reason>, bool); 18] = [
    (b"counts\r\n", Ok(GatewayAsking::Counts), true),
    (b" show", Ok(GatewayAsking::Show), true),
    (b"stop\n", Ok(GatewayAsking::Stop), true),
    (b"stop  leave \n", Ok(GatewayAsking::StopLeave), true),
    (b"counts leave", Err(Reason::Count), true),
    (b"show 192.0.2.1:2268", Err(Reason::Count), true),
    (b"stop leave leave", Err(Reason::Count), true),
    (b"stop leav", Err(Reason::Word), true),
    (b"stop now leave", Err(Reason::Word), true),
    (b"", Err(Reason::Word), false),
    (b"\r\n", Err(Reason::Word), false),
    (b"stop leave\r", Err(Reason::Word), false),
    (b"stop\n\n", Err(Reason::Word), false),
    (b"counts \xff", Err(Reason::Word), false),
    (b"leave", Err(Reason::Word), false),
    (b"stopleave", Err(Reason::Word), false),
    (b"Show", Err(Reason::Word), false),
    (b"open a 239.1.1.1 exclude", Err(Reason::Word), false),
];

// Lines, and whether they are answers of a control.
const ANSWERS: [(&[u8], bool); 10] = [
    (b"bad word\n. 1\n", true),
    (b"bad ", true),
    (b". 1\n", true),
    (b". ", true),
    (b"bad", false),
    (b"badmac 3", false),
    (b" bad word", false),
    (b".", false),
    (b"", false),
    (b"counts", false),
];

// How many lines of how many octets each, the last octet a line feed or not, and the lengths of the datagrams.
const CUTS: [(usize, usize, u8, &[usize]); 6] = [
    (0, 0, b'\n', &[4]),
    (1, 1376, b'x', &[1380]),
    (1, 1377, b'x', &[1376, 5]),
    (1, 1377, b'\n', &[1376, 5]),
    (13, 100, b'\n', &[1304]),
    (30, 100, b'\n', &[1300, 1300, 404]),
];

fn check_lines(rt: &impl Abort) {
    for (line, wanted) in LINES {
        assert_eq!(rt; read_asking(line), wanted);
    }
}

fn check_gateway_lines(rt: &impl Abort) {
    for (line, wanted, begins) in GATEWAY_LINES {
        assert_eq!(rt; read_gateway_asking(line), wanted);
        assert_eq!(rt; begins_asking(line), begins);
    }
}

fn check_answers(rt: &impl Abort) {
    for (line, wanted) in ANSWERS {
        assert_eq!(rt; is_answer(line), wanted);
    }
}

fn lines_of(alloc: Global, count: usize, length: usize, last: u8) -> Result<Bytes, AllocError> {
    let mut text = Bytes::new(alloc);
    for _ in 0..count {
        for place in 1..length {
            text.push(if place == 1 { b'=' } else { b'a' })?;
        }
        text.push(last)?;
    }
    Ok(text)
}

// The text that a link was sent, and the lengths of the datagrams.
fn check_datagrams(rt: &impl Abort, link: &MemLink, wanted: &[usize]) {
    assert_eq!(rt; link.tried().len(), wanted.len());
    for (tried, length) in link.tried().iter().zip(wanted) {
        assert_eq!(rt; tried.to, PEER);
        assert_eq!(rt; tried.bytes.len(), *length);
        assert!(rt; tried.sent);
    }
}

fn check_cuts(rt: &impl Abort, alloc: Global) -> Result<(), AllocError> {
    for (count, length, last, wanted) in CUTS {
        let text = lines_of(alloc, count, length, last)?;
        let mut link = MemLink::new(alloc, VecDeque::new(alloc));
        answer_line(&mut link, &PEER, text)?;
        check_datagrams(rt, &link, wanted);
    }
    Ok(())
}

// A tally of three words, of which the second wasn't said, and a line that is bad.
fn check_text(rt: &impl Abort, alloc: Global) -> Result<(), AllocError> {
    let words = ["granted", "badmac", "torn"];
    let mut tally = Tally::new(alloc, 3)?;
    tally.count(2);
    tally.count(0);
    tally.count(2);
    let mut text = Bytes::new(alloc);
    append_tally(&mut text, &words, &tally)?;
    assert_eq!(rt; text.as_slice(), b"= granted 1\n= torn 2\n".as_slice());
    let bad = bad_text(alloc, Reason::Peer)?;
    assert_eq!(rt; bad.as_slice(), b"bad peer\n".as_slice());
    Ok(())
}

#[test]
fn lines_ask_and_answers_are_cut(rt: HostRuntime) {
    check_lines(&rt);
    check_gateway_lines(&rt);
    check_answers(&rt);
    let alloc = rt.alloc();
    assert!(rt; check_cuts(&rt, alloc).is_ok());
    assert!(rt; check_text(&rt, alloc).is_ok());
}
