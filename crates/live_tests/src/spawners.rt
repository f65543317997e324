//! The spawners with a small task. It knows public calls alone.

ghost use Rattle.std.specs.Prelude.{◌≡◌, ◌≤◌, ◌+◌, IfSome};
ghost use Rattle.amt_ports.specs.RealDevices.{out_failed};

use crate::loopback::{ANY, FarEnd};
use amt_ports::{
    Failed, GivenBy, ListedSpawner, OutLink, Spawner, Starts, Task, ThreadSpawner, UdpOut,
    open_sockets, start_promised,
};
use amt_values::Peer;
use std::alloc::{AllocError, Global};
use std::io;
use std::net::Net;
use std::sync::Wait;
use std::thread::{PromisedHandle, Threads};

// Two numbers to add.
#[derive(Drop)]
struct Sum {
    one: u32,
    other: u32,
}

impl Task for Sum {
    type Done = u64;

    ghost gives = { λ sum done. done ≡ sum.one + sum.other };

    fn run<R: Wait>(self, _rt: &R) -> u64 {
        u64::from(self.one) + u64::from(self.other)
    }
}

// Starts threads of both kinds of task.
#[derive(Drop)]
struct Starter<'a, R> {
    rt: &'a R,
}

impl<'a, R: Threads + Wait + 'static> Starts<Sum> for Starter<'a, R> {
    fn start_thread(&self, work: Sum) -> Result<PromisedHandle<u64, GivenBy<Sum>>, Failed> {
        start_promised(self.rt, work)
    }
}

// A worker's end that sends a datagram in a thread, and comes back from it.
#[derive(Drop)]
struct SendThere {
    out: UdpOut,
    to: Peer,
}

impl Task for SendThere {
    type Done = UdpOut;

    ghost gives = { λ task out. out_failed task.out ≤ out_failed out };

    fn run<R: Wait>(self, _rt: &R) -> UdpOut {
        let SendThere { mut out, to } = self;
        let _ = out.send(&to, b"from a worker");
        out
    }
}

impl<'a, R: Threads + Wait + 'static> Starts<SendThere> for Starter<'a, R> {
    fn start_thread(
        &self,
        work: SendThere,
    ) -> Result<PromisedHandle<UdpOut, GivenBy<SendThere>>, Failed> {
        start_promised(self.rt, work)
    }
}

// The sum by a thread of its own, unless none is started.
fn added<P: Spawner<Sum>>(spawner: &mut P, one: u32, other: u32) -> Option<u64>
    ensures { IfSome result (λ sum. sum ≡ one + other) }
{
    match spawner.start(Sum { one, other }) {
        Ok(started) => Some(spawner.join(started)),
        Err(_) => None,
    }
}

// Whether the second of three starts is refused and counted, and the others run.
fn adds_but_once<R: Threads + Wait + 'static>(rt: &R, alloc: Global) -> Result<bool, AllocError> {
    let mut spawner = ListedSpawner::new(rt, Starter { rt }, vec![in alloc; 2]?);
    let first = added(&mut spawner, 1, 2);
    let second = added(&mut spawner, 2, 3);
    let third = added(&mut spawner, u32::MAX, 2);
    Ok(
        (first, second, third) == (Some(3), None, Some(4_294_967_297))
            && (spawner.starts(), spawner.faults()) == (2, 1),
    )
}

#[test]
fn a_listed_start_is_refused_and_the_others_run(rt: HostRuntime) {
    assert!(rt; adds_but_once(&rt, rt.alloc()) == Ok(true));
}

fn sent_there<P: Spawner<SendThere>>(spawner: &mut P, out: UdpOut, to: Peer) -> Option<UdpOut> {
    match spawner.start(SendThere { out, to }) {
        Ok(started) => Some(spawner.join(started)),
        Err(_) => None,
    }
}

// Whether what is sent there comes to the far end from the link's port, and the end comes back.
fn comes_back<R: Threads + Wait + Net + 'static>(rt: &R) -> io::Result<bool> {
    let far = FarEnd::new(rt)?;
    let (link, _feed) = open_sockets(rt, &ANY, &ANY)?;
    let mut spawner = ThreadSpawner::new(rt, Starter { rt });
    let port = link.local_peer()?.port;
    match sent_there(&mut spawner, link.worker_end()?, far.peer) {
        Some(out) => Ok(out.faults() == 0 && far.takes(port, b"from a worker")),
        None => Ok(false),
    }
}

#[test]
fn a_workers_end_goes_to_a_thread_sends_there_and_comes_back(rt: HostRuntime) {
    assert!(rt; matches!(comes_back(&rt), Ok(true)));
}
