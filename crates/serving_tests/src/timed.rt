//! How long a receiving of either loop may wait, and that nothing is sent later than in the turn that it is due.
ghost use Rattle.std.specs.Prelude.{◌≡◌, max};

use crate::devices::{Answer, Devices, Script, devices_of};
use crate::gateway::{self, KNOWING};
use crate::relay::{self, PLAN};
use crate::starters::Starter;
use amt_ports::{Failed, Feed, FeedGot, Got, Link, ListedSpawner, MemFeed, MemLink, MemOut};
use amt_values::Peer;
use relay_serving::ServePlan;
use replication_workers::Outs;
use std::alloc::{AllocError, Global};
use std::process::Abort;
use std::sync::Wait;
use std::thread::Threads;

// A device, how often it was asked, its longest wait, and how often it was asked before its last send.
#[derive(Drop)]
struct Timed<D> {
    device: D,
    asked: u64,
    longest_wait: u32,
    before_last: u64,
}

impl<D> Timed<D> {
    fn new(device: D) -> Timed<D>
        ensures { result.device ≡ device }
    {
        Timed {
            device,
            asked: 0,
            longest_wait: 0,
            before_last: 0,
        }
    }

    fn look(&mut self, wait_ms: u32)
        ensures device { self.new.device ≡ self.old.device }
        ensures waits { self.new.longest_wait ≡ max self.old.longest_wait wait_ms }
    {
        self.asked = self.asked.saturating_add(1);
        self.longest_wait = self.longest_wait.max(wait_ms);
    }
}

impl<L: Link> Link for Timed<L> {
    ghost coming = { λ timed. L.coming timed.device };

    ghost tried = { λ timed. L.tried timed.device };

    ghost receive_faults = { λ timed. L.receive_faults timed.device };

    ghost send_faults = { λ timed. L.send_faults timed.device };

    ghost longest_wait = { λ timed. timed.longest_wait };

    fn recv(&mut self, buf: &mut [u8], wait_ms: u32) -> Result<Got, Failed> {
        self.look(wait_ms);
        self.device.recv(buf, wait_ms)
    }

    fn send(&mut self, to: &Peer, bytes: &[u8]) -> Result<(), Failed> {
        self.before_last = self.asked;
        self.device.send(to, bytes)
    }
}

impl<F: Feed> Feed for Timed<F> {
    ghost coming = { λ timed. F.coming timed.device };

    ghost faults = { λ timed. F.faults timed.device };

    ghost longest_wait = { λ timed. timed.longest_wait };

    fn recv(&mut self, buf: &mut [u8], wait_ms: u32) -> Result<FeedGot, Failed> {
        self.look(wait_ms);
        self.device.recv(buf, wait_ms)
    }
}

fn with_timing<F>(devices: Devices<MemLink, F>) -> Devices<Timed<MemLink>, Timed<F>> {
    Devices {
        link: Timed::new(devices.link),
        feed: Timed::new(devices.feed),
        clock: devices.clock,
        words: devices.words,
    }
}

// Each was asked so often.
fn assert_timed<F>(
    rt: &impl Abort,
    devices: &Devices<Timed<MemLink>, Timed<F>>,
    link: u64,
    feed: u64,
) {
    assert_eq!(rt;
        (devices.link.longest_wait, devices.feed.longest_wait),
        (1, 1)
    );
    assert_eq!(rt; devices.link.asked, link);
    assert_eq!(rt; devices.feed.asked, feed);
}

// So many turns of a relay with no worker.
fn relay_devices<R: Threads + Wait + Abort + 'static>(
    rt: &R,
    alloc: Global,
    script: &Script,
    turns: u64,
) -> Result<Devices<Timed<MemLink>, Timed<MemFeed>>, AllocError> {
    let mut devices = with_timing(devices_of(alloc, script)?);
    let mut outs = Vec::with_capacity(alloc, 1)?;
    outs.push(MemOut::new(alloc))?;
    let plan = ServePlan {
        turns,
        workers: 0,
        ..PLAN
    };
    let mut spawner = ListedSpawner::new(rt, Starter { rt }, Vec::new(alloc));
    let _ = relay::serve(
        rt,
        alloc,
        plan,
        &mut devices,
        Outs::from(outs),
        &mut spawner,
    );
    Ok(devices)
}

// Its Update, two packets, and what has nothing more.
#[test]
fn a_relay_waits_for_a_millisecond_at_most(rt: HostRuntime) {
    let Ok(devices) = relay_devices(&rt, rt.alloc(), &relay::SCRIPT, 1) else {
        panic!(rt; "out of memory");
    };
    assert_timed(&rt, &devices, 2, 3);
}

// A Discovery is the first of two datagrams of two turns.
const ASKED: Script<'static> = Script {
    heard: &[
        Answer::Octets("0100000001020304"),
        relay::UPDATE,
        Answer::Nothing,
        Answer::Nothing,
    ],
    fed: &[Answer::Nothing, Answer::Nothing],
    ..relay::SCRIPT
};

#[test]
fn a_relay_answers_a_datagram_before_it_asks_for_the_next(rt: HostRuntime) {
    let Ok(devices) = relay_devices(&rt, rt.alloc(), &ASKED, 2) else {
        panic!(rt; "out of memory");
    };
    assert_timed(&rt, &devices, 4, 2);
    assert_eq!(rt; devices.link.device.tried().len(), 1);
    assert_eq!(rt; devices.link.before_last, 1);
}

fn gateway_devices(
    rt: &impl Abort,
    alloc: Global,
    script: &Script,
    turns: u64,
) -> Result<Devices<Timed<MemLink>, Timed<MemLink>>, AllocError> {
    let mut devices = with_timing(gateway::devices_of(alloc, script)?);
    let mut out = MemOut::new(alloc);
    let _ = gateway::serve(rt, alloc, KNOWING, turns, &mut devices, &mut out);
    Ok(devices)
}

#[test]
fn a_gateway_waits_for_a_millisecond_at_most(rt: HostRuntime) {
    let Ok(devices) = gateway_devices(&rt, rt.alloc(), &gateway::SCRIPT, 1) else {
        panic!(rt; "out of memory");
    };
    assert_timed(&rt, &devices, 2, 2);
}

// The Query and the line of the first of two turns.
const CALLED: Script<'static> = Script {
    heard: &[gateway::QUERY, Answer::Nothing, Answer::Nothing],
    fed: &[gateway::OPENING, Answer::Nothing, Answer::Nothing],
    moments: &[0, 0, 1],
    ..gateway::SCRIPT
};

// A Request, an Update, and two for the line: link and control are asked twice in the first turn.
#[test]
fn a_gateway_sends_what_a_line_asks_for_before_its_next_turn(rt: HostRuntime) {
    let Ok(devices) = gateway_devices(&rt, rt.alloc(), &CALLED, 2) else {
        panic!(rt; "out of memory");
    };
    assert_timed(&rt, &devices, 3, 3);
    assert_eq!(rt; devices.link.device.tried().len(), 4);
    assert_eq!(rt; devices.link.before_last, 2);
}

// Two lines that ask come in the first of two turns.
const QUESTIONS: Script<'static> = Script {
    heard: &[gateway::QUERY, Answer::Nothing, Answer::Nothing],
    fed: &[
        Answer::Line("show\n"),
        Answer::Line("counts\n"),
        Answer::Nothing,
        Answer::Nothing,
    ],
    ..gateway::SCRIPT
};

// The control is asked three times in the first turn, and is silent then.
#[test]
fn a_gateway_takes_all_lines_of_a_turn_before_it_answers(rt: HostRuntime) {
    let Ok(devices) = gateway_devices(&rt, rt.alloc(), &QUESTIONS, 2) else {
        panic!(rt; "out of memory");
    };
    assert_timed(&rt, &devices, 3, 4);
    assert_eq!(rt; devices.feed.device.tried().len(), 2);
    assert_eq!(rt; devices.feed.before_last, 3);
}
