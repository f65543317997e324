//! Controls by which an end asks itself too, in memory. It knows public calls alone.

ghost use Rattle.std.specs.Prelude.{All, IfOk};
ghost use Rattle.amt_ports.specs.Arrivals.{IsShortAnswer};

use crate::loopback::buffer;
use amt_ports::{Got, Link, LinkAnswer, MemClock, MemLink, MemSink};
use amt_values::{Ip, Moment, Peer};
use serving_commands::JournaledControl;
use std::alloc::{AllocError, Global};
use std::collections::VecDeque;

// ::ffff:0.0.0.0
const NOBODY: Peer = Peer {
    ip: Ip::V6(0xffff_0000_0000),
    port: 0,
};

type MemControl = JournaledControl<MemLink, MemClock, MemSink>;

// What happens to a control: what its clock says, and then the answer to its question, where it asks one.
struct Turn {
    at: u64,
    answer: Option<&'static str>,
}

// At the second question nothing has changed but what counts turns and questions.
const TURNS: [Turn; 7] = [
    Turn {
        at: 999,
        answer: None,
    },
    Turn {
        at: 1000,
        answer: Some("turns 5\ndatagrams 2\nrows 0\n= moved 5\n= advertised 2\n. 1\n"),
    },
    Turn {
        at: 1999,
        answer: None,
    },
    Turn {
        at: 2000,
        answer: Some(
            "turns 9\ndatagrams 2\npublished 9\ncontrols 2\nrows 0\n= moved 9\n= advertised 2\n= quiet 4\n= drawn 9\n. 1\n",
        ),
    },
    Turn {
        at: 3500,
        answer: Some(
            "turns 10\ndatagrams 4\nupdated 1\nrows 0\n= moved 10\n= advertised 2\n= badmac 1\n= updated 1\n. 1\n",
        ),
    },
    Turn {
        at: 4499,
        answer: None,
    },
    Turn {
        at: 86_400_000,
        answer: Some(
            "turns 11\ndatagrams 4\nupdated 1\nrows 1\n= moved 11\n= advertised 2\n= badmac 1\n= updated 1\n. 1\n",
        ),
    },
];

// The writes to a journal that fail, counted from 1, and what it has after the turns.
type Row = (&'static str, &'static [u64], &'static str);

const ROWS: [Row; 3] = [
    (
        "each line is taken",
        &[],
        "amt: 1 s: datagrams 2 rows 0 advertised 2\namt: 3 s: datagrams 4 updated 1 badmac 1\namt: 86400 s: rows 1\n",
    ),
    (
        "the counts of a refused line are in the next one, though they are the same again",
        &[1],
        "amt: 2 s: datagrams 2 rows 0 advertised 2\namt: 3 s: datagrams 4 updated 1 badmac 1\namt: 86400 s: rows 1\n",
    ),
    (
        "and with them what has changed since",
        &[2],
        "amt: 1 s: datagrams 2 rows 0 advertised 2\namt: 86400 s: datagrams 4 updated 1 rows 1 badmac 1\n",
    ),
];

fn clock(alloc: Global, moments: &[u64]) -> Result<MemClock, AllocError> {
    let mut list = Vec::new(alloc);
    for ms in moments {
        if let Some(moment) = Moment::new(*ms) {
            list.push(moment)?;
        }
    }
    Ok(MemClock::new(list))
}

// Whether the control asks in this turn exactly where an answer stands there, which it then gets.
fn is_taken(alloc: Global, control: &mut MemControl, turn: &Turn) -> bool {
    let Ok(mut buffer) = buffer(alloc, 65_536) else {
        return false;
    };
    let buf = buffer.as_mut_slice();
    let got = control.recv(buf, 0);
    match turn.answer {
        Some(answer) => {
            got == Ok(Got::Datagram(NOBODY, 6))
                && buf.starts_with(b"counts")
                && control.send(&NOBODY, answer.as_bytes()).is_ok()
        }
        None => got == Ok(Got::Nothing),
    }
}

// Whether the turns pass, and the journal has then what the row says.
fn is_written(alloc: Global, row: &Row) -> Result<bool, AllocError> {
    let mut moments = Vec::new(alloc);
    for turn in &TURNS {
        moments.push(turn.at)?;
    }
    let clock = clock(alloc, moments.as_slice())?;
    let journal = MemSink::failing(alloc, Vec::from_slice(alloc, row.1)?);
    let mut control = JournaledControl::new(alloc, None, clock, journal, 1);
    for turn in &TURNS {
        if !is_taken(alloc, &mut control, turn) {
            return Ok(false);
        }
    }
    Ok(control.journal().as_slice() == row.2.as_bytes())
}

#[test]
fn counts_that_changed_are_written_each_so_many_seconds(rt: HostRuntime) -> Result<(), AllocError> {
    for row in &ROWS {
        assert!(rt; is_written(rt.alloc(), row)?, "{}", row.0);
    }
    Ok(())
}

// A socket in which there is nothing, once; then it is closed.
fn empty_once(alloc: Global) -> Result<VecDeque<LinkAnswer>, AllocError>
    ensures { IfOk result (λ answers. All IsShortAnswer answers.items) }
{
    let mut answers = VecDeque::new(alloc);
    answers.push_back(LinkAnswer::Nothing)?;
    Ok(answers)
}

fn received(alloc: Global, control: &mut MemControl) -> Option<Got> {
    let mut buffer = buffer(alloc, 65_536).ok()?;
    control.recv(buffer.as_mut_slice(), 0).ok()
}

// The moments of a clock, of which the last one stays, and how many looks find nothing. The first looks at the socket
// and the others don't, since one that did would find it closed.
const QUIETS: [(&str, &[u64], u32); 2] = [
    ("until the next millisecond", &[10, 10, 10, 11], 3),
    ("for 64 times at most", &[10], 65),
];

// Whether so many looks find nothing, and the next one finds the socket closed.
fn is_quiet(alloc: Global, moments: &[u64], looks: u32) -> Result<bool, AllocError> {
    let socket = MemLink::new(alloc, empty_once(alloc)?);
    let clock = clock(alloc, moments)?;
    let mut control = JournaledControl::new(alloc, Some(socket), clock, MemSink::new(alloc), 0);
    for _ in 0..looks {
        if received(alloc, &mut control) != Some(Got::Nothing) {
            return Ok(false);
        }
    }
    Ok(received(alloc, &mut control) == Some(Got::Closed))
}

#[test]
fn an_empty_socket_is_left_alone_for_its_millisecond(rt: HostRuntime) -> Result<(), AllocError> {
    for (message, moments, looks) in &QUIETS {
        assert!(rt; is_quiet(rt.alloc(), moments, *looks)?, "{message}");
    }
    Ok(())
}
