//! UDP sockets as links, feeds and workers' ends, over the loopback. It knows public calls alone.

use crate::loopback::{ANY, FarEnd, LOOPBACK, WAIT_MS, buffer};
use amt_ports::*;
use amt_values::{Ip, Peer};
use std::alloc::Global;
use std::io;
use std::net::Net;
use std::time::{Duration, Instant};

// The IPv4-mapped address of 127.0.0.1, by which an IPv6 socket knows it.
const MAPPED_LOOPBACK: u128 = 0xffff_7f00_0001;

// A wait that would be noticed.
const LONG_WAIT_MS: u32 = 30_000;

// One octet more than an IPv4 datagram carries.
const TOO_LONG: usize = 65_508;

const OTHER_FAMILY: Peer = Peer {
    ip: Ip::V6(1),
    port: 2268,
};

// What happens at the sockets, in turn.
enum Step<'a> {
    // The far end sends to the link, or to the feed.
    ToLink(&'a [u8]),
    ToFeed(&'a [u8]),
    // It comes to the link from the far end, or to the feed.
    LinkTakes(&'a [u8]),
    FeedTakes(&'a [u8]),
    // A wait of so many milliseconds finds nothing.
    LinkHasNothing(u32),
    FeedHasNothing(u32),
    // It comes to the far end, from the link's port.
    LinkSends(&'a [u8]),
    WorkerSends(&'a [u8]),
    // The link is at this address, sends to itself, and takes that.
    LinkTakesItsOwn(Ip, &'a [u8]),
    // The system refuses to send so many octets, or to send to the other family.
    LinkIsRefused(usize),
    WorkerIsRefused(Peer),
    // The faults of the link's receivings and sends, of the feed, and of the worker's end.
    Faults(u64, u64, u64, u64),
}

// Our sockets and the other end.
#[derive(Drop)]
struct Ends {
    alloc: Global,
    link: UdpLink,
    feed: UdpFeed,
    out: UdpOut,
    far: FarEnd,
    // Where the link is.
    own: Peer,
    feed_port: u16,
}

fn ends_at<N: Net>(net: &N, alloc: Global, ip: Ip) -> io::Result<Ends> {
    let (link, feed) = open_sockets(net, &Peer { ip, port: 0 }, &ANY)?;
    let out = link.worker_end()?;
    let far = FarEnd::new(net)?;
    let own = link.local_peer()?;
    let feed_port = feed.local_peer()?.port;
    Ok(Ends {
        alloc,
        link,
        feed,
        out,
        far,
        own,
        feed_port,
    })
}

fn link_takes(alloc: Global, link: &mut UdpLink, from: &Peer, octets: &[u8]) -> bool {
    let Ok(mut buffer) = buffer(alloc, 65_536) else {
        return false;
    };
    let buf = buffer.as_mut_slice();
    link.recv(buf, WAIT_MS) == Ok(Got::Datagram(*from, octets.len())) && buf.starts_with(octets)
}

fn feed_takes(alloc: Global, feed: &mut UdpFeed, octets: &[u8]) -> bool {
    let Ok(mut buffer) = buffer(alloc, 65_536) else {
        return false;
    };
    let buf = buffer.as_mut_slice();
    feed.recv(buf, WAIT_MS) == Ok(FeedGot::Packet(octets.len())) && buf.starts_with(octets)
}

fn link_has_nothing(alloc: Global, link: &mut UdpLink, wait_ms: u32) -> bool {
    match buffer(alloc, 65_536) {
        Ok(mut buf) => link.recv(buf.as_mut_slice(), wait_ms.max(1)) == Ok(Got::Nothing),
        Err(_) => false,
    }
}

fn feed_has_nothing(alloc: Global, feed: &mut UdpFeed, wait_ms: u32) -> bool {
    match buffer(alloc, 65_536) {
        Ok(mut buf) => feed.recv(buf.as_mut_slice(), wait_ms.max(1)) == Ok(FeedGot::Nothing),
        Err(_) => false,
    }
}

fn is_refused(alloc: Global, link: &mut UdpLink, to: &Peer, count: usize) -> bool {
    match buffer(alloc, count) {
        Ok(octets) => link.send(to, octets.as_slice()) == Err(Failed),
        Err(_) => false,
    }
}

impl Ends {
    fn sends_to_far_end(&mut self, octets: &[u8]) -> bool {
        self.link.send(&self.far.peer, octets).is_ok() && self.far.takes(self.own.port, octets)
    }

    fn worker_sends_to_far_end(&mut self, octets: &[u8]) -> bool {
        self.out.send(&self.far.peer, octets).is_ok() && self.far.takes(self.own.port, octets)
    }

    fn takes_its_own(&mut self, ip: Ip, octets: &[u8]) -> bool {
        let own = self.own;
        own.ip == ip
            && self.link.send(&own, octets).is_ok()
            && link_takes(self.alloc, &mut self.link, &own, octets)
    }

    fn faults(&self) -> (u64, u64, u64, u64) {
        let (link, feed) = (&self.link, &self.feed);
        (
            link.receive_faults(),
            link.send_faults(),
            feed.faults(),
            self.out.faults(),
        )
    }

    // Whether the step is as it says.
    fn holds(&mut self, step: &Step) -> bool {
        let peer = self.far.peer;
        match step {
            Step::ToLink(octets) => self.far.send(self.own.port, octets),
            Step::ToFeed(octets) => self.far.send(self.feed_port, octets),
            Step::LinkTakes(octets) => link_takes(self.alloc, &mut self.link, &peer, octets),
            Step::FeedTakes(octets) => feed_takes(self.alloc, &mut self.feed, octets),
            Step::LinkHasNothing(ms) => link_has_nothing(self.alloc, &mut self.link, *ms),
            Step::FeedHasNothing(ms) => feed_has_nothing(self.alloc, &mut self.feed, *ms),
            Step::LinkSends(octets) => self.sends_to_far_end(octets),
            Step::WorkerSends(octets) => self.worker_sends_to_far_end(octets),
            Step::LinkTakesItsOwn(ip, octets) => self.takes_its_own(*ip, octets),
            Step::LinkIsRefused(count) => is_refused(self.alloc, &mut self.link, &peer, *count),
            Step::WorkerIsRefused(to) => self.out.send(to, b"query") == Err(Failed),
            Step::Faults(receive, send, feed, out) => {
                self.faults() == (*receive, *send, *feed, *out)
            }
        }
    }

    fn all_hold(&mut self, steps: &[Step]) -> bool {
        for step in steps {
            if !self.holds(step) {
                return false;
            }
        }
        true
    }
}

// What is shown, the address of the link, and the steps.
type Row<'a> = (&'a str, Ip, &'a [Step<'a>]);

const ROWS: [Row<'static>; 6] = [
    (
        "datagrams come with octets and source, and what is sent comes from the link's port",
        Ip::V4(LOOPBACK),
        &[
            Step::ToLink(b"discovery"),
            Step::LinkTakes(b"discovery"),
            Step::LinkSends(b"advertisement"),
            Step::WorkerSends(b"multicast data"),
            Step::ToLink(b""),
            Step::LinkTakes(b""),
        ],
    ),
    (
        "packets come in order, and nothing is there where nothing came",
        Ip::V4(LOOPBACK),
        &[
            Step::ToFeed(b"one"),
            Step::ToFeed(b"two"),
            Step::FeedTakes(b"one"),
            Step::FeedTakes(b"two"),
            Step::FeedHasNothing(1),
            Step::LinkHasNothing(1),
            Step::Faults(0, 0, 0, 0),
        ],
    ),
    (
        "the wait of each ends when the other has something, which stays there and ends each wait",
        Ip::V4(LOOPBACK),
        &[
            Step::ToFeed(b"packet"),
            Step::LinkHasNothing(LONG_WAIT_MS),
            Step::LinkHasNothing(LONG_WAIT_MS),
            Step::FeedTakes(b"packet"),
            Step::ToLink(b"request"),
            Step::FeedHasNothing(LONG_WAIT_MS),
            Step::LinkTakes(b"request"),
        ],
    ),
    (
        "a send that the system refuses is counted apart, and the next one is made",
        Ip::V4(LOOPBACK),
        &[
            Step::LinkIsRefused(TOO_LONG),
            Step::Faults(0, 1, 0, 0),
            Step::LinkSends(b"query"),
            Step::FeedHasNothing(1),
            Step::WorkerIsRefused(OTHER_FAMILY),
            Step::Faults(0, 1, 0, 1),
        ],
    ),
    (
        "an IPv4-mapped source is handed on as IPv4, and is answered",
        Ip::V6(MAPPED_LOOPBACK),
        &[
            Step::ToLink(b"update"),
            Step::LinkTakes(b"update"),
            Step::LinkSends(b"query"),
        ],
    ),
    (
        "the IPv6 loopback is no IPv4 source",
        Ip::V6(1),
        &[Step::LinkTakesItsOwn(Ip::V6(1), b"teardown")],
    ),
];

// Whether the waits that something ends were shorter than the long one.
fn is_soon(clock: &HostRuntime, start: &Instant) -> bool {
    match start.elapsed(clock) {
        Ok(passed) => passed < Duration::from_secs(15),
        Err(_) => false,
    }
}

fn holds_soon(rt: &HostRuntime, ends: &mut Ends, steps: &[Step]) -> bool {
    let Ok(start) = Instant::now(rt) else {
        return false;
    };
    ends.all_hold(steps) && is_soon(rt, &start)
}

// Whether the steps are as they say. A machine without IPv6 has no such addresses.
fn holds_at(rt: &HostRuntime, ip: &Ip, steps: &[Step]) -> bool {
    match ends_at(rt, rt.alloc(), *ip) {
        Ok(mut ends) => holds_soon(rt, &mut ends, steps),
        Err(_) => matches!(ip, Ip::V6(_)),
    }
}

#[test]
fn sockets_over_the_loopback_do_what_each_row_says(rt: HostRuntime) {
    for (what, ip, steps) in ROWS.as_slice() {
        assert!(rt; holds_at(&rt, ip, steps), "{what}");
    }
}
