//! Control sockets, over the loopback, and the numbers of a relay's copies. It knows public calls alone.

use crate::loopback::{ANY, FarEnd, WAIT_MS, buffer};
use amt_ports::{Got, Link, MemOut, OutLink, UdpControl, UdpFeed, UdpLink};
use amt_values::{Ip, Peer};
use relay_serving::{Control, Copies, CopyCount};
use replication_workers::Outs;
use serving_commands::{AskedBy, CountedOut, HostLive, HostRelay, Live, OpenFault, SharedCopies};
use std::alloc::{AllocError, Global};
use std::fs::Files;
use std::mem::replace;
use std::net::Net;
use std::random::RandomSource;
use std::sync::Wait;
use std::thread::Threads;
use std::time::Clock;
use std::{io, thread};

const OTHER_FAMILY: Peer = Peer {
    ip: Ip::V6(1),
    port: 2268,
};

const LINE: &[u8] = b"counts\n";

const ANSWER: &[u8] = b"turns 3\n. 1\n";

// Where a control socket is to be, who asks there, and where copies go.
#[derive(Clone, Copy)]
struct Ends<'a> {
    at: Peer,
    far: &'a FarEnd,
    copies: Peer,
}

/// Whether a line that the far end sends there comes from it, and is answered from there.
pub fn answers<K: Link>(alloc: Global, link: &mut K, at: &Peer, far: &FarEnd) -> bool {
    let Ok(mut buffer) = buffer(alloc, 65_536) else {
        return false;
    };
    let buf = buffer.as_mut_slice();
    far.send(at.port, LINE)
        && link.recv(buf, WAIT_MS) == Ok(Got::Datagram(far.peer, LINE.len()))
        && buf.starts_with(LINE)
        && link.send(&far.peer, ANSWER).is_ok()
        && far.takes(at.port, ANSWER)
}

// Nothing comes to an idle socket, which doesn't wait where it isn't asked to.
fn is_silent<K: Link>(alloc: Global, link: &mut K) -> bool {
    match buffer(alloc, 65_536) {
        Ok(mut buf) => link.recv(buf.as_mut_slice(), 0) == Ok(Got::Nothing),
        Err(_) => false,
    }
}

// Whether each link sends there, and is refused where the other family is.
fn send_and_are_refused<O: OutLink + Drop>(outs: Outs<O>, to: &Peer) -> bool {
    for mut out in outs.into_items() {
        if out.send(to, b"one").is_err() || out.send(&OTHER_FAMILY, b"two").is_ok() {
            return false;
        }
    }
    true
}

// Whether a control socket answers there, and the copies of the links out are in its numbers.
fn may_be_asked<K: Link, N: Copies, O: OutLink + Drop>(
    alloc: Global,
    control: &mut Control<K, N>,
    outs: Outs<O>,
    ends: &Ends,
) -> bool {
    let number = outs.len() as u64;
    let idle = is_silent(alloc, &mut control.link);
    let answered = answers(alloc, &mut control.link, &ends.at, ends.far);
    let before = control.copies.copies();
    let sent = send_and_are_refused(outs, &ends.copies);
    let counted = CopyCount {
        sent: number,
        unsent: number,
    };
    let none = CopyCount { sent: 0, unsent: 0 };
    idle && answered && sent && before == none && control.copies.copies() == counted
}

fn asking(control: Peer) -> AskedBy {
    AskedBy {
        control: Some(control),
        report_seconds: 0,
    }
}

// Whether a relay is opened with such a socket; it is given back.
fn is_opened_at<R>(alloc: Global, live: &mut HostLive<R>, slots: u32, ends: &Ends) -> bool
where
    R: Net + Threads + Wait + Clock + RandomSource + Files + Copy + Drop + 'static,
{
    let Ok(HostRelay { mut devices }) = live.open_relay(&ANY, &ANY, &asking(ends.at), slots) else {
        return false;
    };
    let outs = replace(&mut devices.outs, Outs::new(alloc));
    let asked = match &mut devices.control {
        Some(control) => may_be_asked(alloc, control, outs, ends),
        None => false,
    };
    live.return_relay(HostRelay { devices });
    asked
}

// Why no relay is opened with a control socket there.
fn fault_at<V: Live>(live: &mut V, at: &Peer) -> Option<OpenFault> {
    match live.open_relay(&ANY, &ANY, &asking(*at), 1) {
        Ok(devices) => {
            live.return_relay(devices);
            None
        }
        Err(fault) => Some(fault),
    }
}

#[test]
fn a_relay_is_asked_where_it_was_opened_for_that_and_its_copies_are_counted(
    rt: HostRuntime,
) -> io::Result<()> {
    let far = FarEnd::new(&rt)?;
    let sink = FarEnd::new(&rt)?;
    let free = FarEnd::new(&rt)?;
    let ends = Ends {
        at: free.peer,
        far: &far,
        copies: sink.peer,
    };
    let mut live = HostLive::new(rt, rt.alloc(), rt.stderr());
    assert!(rt; fault_at(&mut live, &ends.at) == Some(OpenFault::Failed) && live.faults() == 1);
    drop(free);
    // What was given back is closed, so each can have the same place after the other.
    assert!(rt; is_opened_at(rt.alloc(), &mut live, 1, &ends));
    assert!(rt; is_opened_at(rt.alloc(), &mut live, 3, &ends) && live.faults() == 1);
    Ok(())
}

// Three sends by a link, and how many of them it took.
fn sent_by<O: OutLink>(out: &mut O) -> usize {
    let sent = [
        out.send(&ANY, b"one").is_ok(),
        out.send(&ANY, b"two").is_ok(),
        out.send(&ANY, b"three").is_ok(),
    ];
    sent.iter().filter(|was_sent| **was_sent).count()
}

fn out_of(alloc: Global, failing: &[u64]) -> Result<MemOut, AllocError> {
    Ok(MemOut::failing(alloc, Vec::from_slice(alloc, failing)?))
}

fn counts_of<N: Copies>(copies: &mut N) -> (u64, u64) {
    let counts = copies.copies();
    (counts.sent, counts.unsent)
}

// The numbers of two links that are counted and of one that isn't, after each has sent, and after the first one,
// which is gone.
fn counts(alloc: Global) -> Result<[(usize, u64, u64); 3], AllocError> {
    let mut copies = SharedCopies::new(alloc);
    let mut one = copies.counted(out_of(alloc, &[2])?)?;
    let mut two = copies.counted(out_of(alloc, &[1, 2, 3])?)?;
    let mut none = CountedOut::uncounted(out_of(alloc, &[3])?);
    let sent = sent_by(&mut one);
    let first = counts_of(&mut copies);
    drop(one);
    let again = sent_by(&mut two);
    let second = counts_of(&mut copies);
    let uncounted = sent_by(&mut none);
    let third = counts_of(&mut copies);
    Ok([
        (sent, first.0, first.1),
        (again, second.0, second.1),
        (uncounted, third.0, third.1),
    ])
}

#[test]
fn the_numbers_of_copies_are_those_of_the_sends_of_all_links_that_are_counted(rt: HostRuntime) {
    assert!(rt; counts(rt.alloc()) == Ok([(2, 2, 1), (0, 2, 4), (2, 2, 4)]));
}

// What a link sends in a thread of its own, and the numbers after it.
fn counts_there<R: Threads>(rt: &R, alloc: Global) -> Result<(usize, u64, u64), AllocError> {
    let mut copies = SharedCopies::new(alloc);
    let mut out = copies.counted(out_of(alloc, &[2])?)?;
    let Ok(child) = thread::spawn(rt, move || sent_by(&mut out)) else {
        return Err(AllocError);
    };
    let sent = child.join(rt);
    let (taken, refused) = counts_of(&mut copies);
    Ok((sent, taken, refused))
}

#[test]
fn what_a_link_sends_in_another_thread_is_in_the_numbers(rt: HostRuntime) {
    assert!(rt; counts_there(&rt, rt.alloc()) == Ok((2, 2, 1)));
}
