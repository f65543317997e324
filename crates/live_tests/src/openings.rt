//! Opening the devices of the machine and giving them back, over the loopback. It knows public calls alone.

use crate::control::answers;
use crate::loopback::{ANY, FarEnd, WAIT_MS, buffer};
use amt_ports::{Feed, FeedGot, Link, OutLink, UdpFeed, UdpLink};
use amt_values::Peer;
use replication_workers::Outs;
use serving_commands::{AskedBy, HostLive, HostRelay, Live, OpenFault};
use std::alloc::Global;
use std::fs::Files;
use std::io;
use std::mem::replace;
use std::net::Net;
use std::random::RandomSource;
use std::sync::Wait;
use std::thread::Threads;
use std::time::Clock;

const UNASKED: AskedBy = AskedBy {
    control: None,
    report_seconds: 0,
};

// Whether the feed takes what the far end sends to this peer.
fn feed_is_at(alloc: Global, feed: &mut UdpFeed, at: &Peer, far: &FarEnd) -> bool {
    let Ok(mut buffer) = buffer(alloc, 65_536) else {
        return false;
    };
    let buf = buffer.as_mut_slice();
    far.send(at.port, b"packet")
        && feed.recv(buf, WAIT_MS) == Ok(FeedGot::Packet(6))
        && buf.starts_with(b"packet")
}

// Whether the link is at this peer, and what it sends comes from there.
fn link_is_at(link: &mut UdpLink, at: &Peer, far: &FarEnd) -> bool {
    let listens = match link.local_peer() {
        Ok(peer) => peer == *at,
        Err(_) => false,
    };
    listens && link.send(&far.peer, b"query").is_ok() && far.takes(at.port, b"query")
}

fn sends_from<O: OutLink>(out: &mut O, at: &Peer, far: &FarEnd) -> bool {
    out.send(&far.peer, b"multicast data").is_ok() && far.takes(at.port, b"multicast data")
}

// Whether there are so many links out, and what each sends comes from this peer.
fn all_send_from<O: OutLink + Drop>(outs: Outs<O>, slots: u32, at: &Peer, far: &FarEnd) -> bool {
    let mut sending = 0_u32;
    for mut out in outs.into_items() {
        if !sends_from(&mut out, at, far) {
            return false;
        }
        sending = sending.saturating_add(1);
    }
    sending == slots
}

// Where the link and the feed, or a gateway's control socket, are asked for.
#[derive(Clone, Copy)]
struct Places {
    listen: Peer,
    feed: Peer,
}

// Two peers whose ports are free.
fn free_places(rt: &HostRuntime) -> io::Result<Places> {
    let one = FarEnd::new(rt)?;
    let other = FarEnd::new(rt)?;
    Ok(Places {
        listen: one.peer,
        feed: other.peer,
    })
}

// Whether a relay's link and feed are where it was asked, and its links out send from there.
fn is_relay_at<R>(
    alloc: Global,
    live: &mut HostLive<R>,
    at: &Places,
    slots: u32,
    far: &FarEnd,
) -> bool
where
    R: Net + Threads + Wait + Clock + RandomSource + Files + Copy + Drop + 'static,
{
    let Ok(HostRelay { mut devices }) = live.open_relay(&at.listen, &at.feed, &UNASKED, slots)
    else {
        return false;
    };
    let link = link_is_at(&mut devices.link, &at.listen, far);
    let feed = feed_is_at(alloc, &mut devices.feed, &at.feed, far);
    let outs = replace(&mut devices.outs, Outs::new(alloc));
    let outs = all_send_from(outs, slots, &at.listen, far);
    let unasked = devices.control.is_none();
    live.return_relay(HostRelay { devices });
    link && feed && outs && unasked
}

// Whether a gateway's link and control socket are where it was asked, and its link out sends from there.
fn is_gateway_at<R>(alloc: Global, live: &mut HostLive<R>, at: &Places, far: &FarEnd) -> bool
where
    R: Net + Threads + Wait + Clock + RandomSource + Files + Copy + Drop + 'static,
{
    let Ok(mut devices) = live.open_gateway(&at.listen, &at.feed, 0) else {
        return false;
    };
    let link = link_is_at(&mut devices.link, &at.listen, far);
    let control = answers(alloc, &mut devices.control, &at.feed, far);
    let out = sends_from(&mut devices.out, &at.listen, far);
    live.return_gateway(devices);
    link && control && out
}

// What was given back is closed, so each can have the same places after the other.
fn all_are_at<R>(alloc: Global, live: &mut HostLive<R>, at: &Places, far: &FarEnd) -> bool
where
    R: Net + Threads + Wait + Clock + RandomSource + Files + Copy + Drop + 'static,
{
    is_relay_at(alloc, live, at, 0, far)
        && is_relay_at(alloc, live, at, 1, far)
        && is_gateway_at(alloc, live, at, far)
        && is_relay_at(alloc, live, at, 4, far)
}

#[test]
fn devices_are_opened_where_it_is_asked_and_send_from_there(rt: HostRuntime) -> io::Result<()> {
    let far = FarEnd::new(&rt)?;
    let at = free_places(&rt)?;
    let mut live = HostLive::new(rt, rt.alloc(), rt.stderr());
    assert!(rt; all_are_at(rt.alloc(), &mut live, &at, &far) && live.faults() == 0);
    Ok(())
}

// Why the peer can't be opened for a relay; what is opened is given back at once.
fn relay_fault<V: Live>(live: &mut V, listen: &Peer) -> Option<OpenFault> {
    match live.open_relay(listen, &ANY, &UNASKED, 1) {
        Ok(devices) => {
            live.return_relay(devices);
            None
        }
        Err(fault) => Some(fault),
    }
}

// The same for a gateway.
fn gateway_fault<V: Live>(live: &mut V, listen: &Peer) -> Option<OpenFault> {
    match live.open_gateway(listen, &ANY, 0) {
        Ok(devices) => {
            live.return_gateway(devices);
            None
        }
        Err(fault) => Some(fault),
    }
}

// Both openings at the peer fail.
fn is_taken<V: Live>(live: &mut V, at: &Peer) -> bool {
    relay_fault(live, at) == Some(OpenFault::Failed)
        && gateway_fault(live, at) == Some(OpenFault::Failed)
}

// What was given back is closed, so each can have the address after the other.
fn is_free<V: Live>(live: &mut V, at: &Peer) -> bool {
    relay_fault(live, at).is_none()
        && gateway_fault(live, at).is_none()
        && relay_fault(live, at).is_none()
}

#[test]
fn an_address_that_is_taken_is_a_fault_until_it_is_free(rt: HostRuntime) -> io::Result<()> {
    let far = FarEnd::new(&rt)?;
    let peer = far.peer;
    let mut live = HostLive::new(rt, rt.alloc(), rt.stderr());
    assert!(rt; is_taken(&mut live, &peer) && live.faults() == 2);
    drop(far);
    assert!(rt; is_free(&mut live, &peer) && live.faults() == 2);
    Ok(())
}
