//! Runs of a relay, whose workers copy its packets beside its turns.

use crate::devices::{Packets, Ticks, TwoUpdates};
use crate::outs::{Starter, WaitingOut, outs_of};
use crate::packets::{is_copy, slot_of};
use amt_ports::{ListedSpawner, MemLink, MemWords, Spawner, ThreadSpawner};
use amt_values::Ip;
use published_table::Views;
use relay_machine::Settings;
use relay_serving::{Control, End, MemCopies, ServePlan, ServeReport, Served, serve_relay};
use replication_workers::Worker;
use std::alloc::Global;
use std::process::Abort;
use std::sync::Wait;
use std::thread::Threads;

// A run in which an endpoint wants all packets from the first turn on.
#[derive(Clone, Copy)]
struct Run<'a> {
    what: &'a str,
    workers: u32,
    // The packets, and how many of them come in each turn but the first, at most 63.
    count: u16,
    in_turn: u16,
    // So often each link out looks for another one before its first send.
    looks: u64,
}

impl<'a> Run<'a> {
    fn turns(&self) -> u64 {
        let after_first = self.count.checked_div(self.in_turn).unwrap_or(0);
        1 + u64::from(after_first)
    }

    fn slots(&self) -> u32 {
        self.workers.max(1)
    }

    // What it comes to: all is copied, and each turn and each Update has an entry, which is published.
    fn report(&self) -> ServeReport {
        let packets = u64::from(self.count);
        ServeReport {
            end: End::Turns,
            turns: self.turns(),
            datagrams: 2,
            packets,
            updated: 2,
            torn: 0,
            sent: packets,
            unsent: 0,
            inline: if self.workers == 0 { packets } else { 0 },
            starved: 0,
            late: 0,
            owed: 0,
            published: self.turns().saturating_add(2),
            apart: 0,
        }
    }
}

fn serve<R: Wait + Abort, P: Spawner<Worker<WaitingOut>>>(
    rt: &R,
    alloc: Global,
    run: &Run,
    spawner: &mut P,
) -> Served<WaitingOut> {
    let plan = ServePlan {
        turns: run.turns(),
        workers: run.workers,
        rotate_ms: 3_600_000,
    };
    assert!(rt; 1 <= plan.turns && plan.turns <= 100_000 && plan.workers <= 64);
    let Ok(outs) = outs_of(alloc, run.slots(), run.looks) else {
        panic!(rt; "out of memory");
    };
    assert_eq!(rt; outs.len(), plan.workers.max(1) as usize);
    serve_relay(
        rt,
        alloc,
        Settings::of_relay(Ip::V4(0xc000_0201)),
        &plan,
        &mut TwoUpdates::new(),
        &mut Packets::new(run.in_turn),
        &mut Ticks::new(),
        &mut MemWords::new(alloc, Vec::new(alloc)),
        outs,
        spawner,
        &mut None::<Control<MemLink, MemCopies>>,
    )
}

// Whether the link out has sent just the packets of its slot, in order.
fn has_sent(out: &WaitingOut, slot: usize, slots: usize, count: u16) -> bool {
    let mut tried = out.tried().iter();
    for number in 0..count {
        if slot_of(number, slots) == slot {
            match tried.next() {
                Some(one) if is_copy(one, number) => {}
                _ => return false,
            }
        }
    }
    tried.next().is_none()
}

fn assert_links(rt: &impl Abort, run: &Run, outs: &[WaitingOut]) {
    assert_eq!(rt; outs.len(), run.slots() as usize, "{}", run.what);
    for (slot, out) in outs.iter().enumerate() {
        let sent = has_sent(out, slot, outs.len(), run.count);
        assert!(rt; sent, "{}: {slot}", run.what);
    }
}

// So many views come back, and no reading of them was handed back.
fn assert_views(rt: &impl Abort, run: &Run, views: &mut Views) {
    assert_eq!(rt; views.len(), run.slots() as usize, "{}", run.what);
    for _ in 0..run.slots() {
        let view = views.pop().expect(rt, "there are as many views");
        assert_eq!(rt; view.handed(), 0, "{}", run.what);
    }
}

fn assert_run<R: Wait + Abort, P: Spawner<Worker<WaitingOut>>>(
    rt: &R,
    alloc: Global,
    run: &Run,
    spawner: &mut P,
) {
    let mut served = serve(rt, alloc, run, spawner);
    assert_eq!(rt; served.report, run.report(), "{}", run.what);
    assert_links(rt, run, served.outs.as_slice());
    assert_views(rt, run, &mut served.views);
}

// A spawner of which the start of this number fails.
fn listed<'a, R: Threads + Abort>(
    rt: &'a R,
    alloc: Global,
    failing: u64,
) -> ListedSpawner<&'a R, Starter<'a, R>> {
    let Ok(failing) = Vec::from_slice(alloc, &[failing]) else {
        panic!(rt; "out of memory");
    };
    ListedSpawner::new(rt, Starter { rt }, failing)
}

const RUNS: [Run<'static>; 5] = [
    Run {
        what: "one worker sends all in order",
        workers: 1,
        count: 20,
        in_turn: 5,
        looks: 0,
    },
    Run {
        what: "packets to the next group go to the other worker",
        workers: 2,
        count: 20,
        in_turn: 5,
        looks: 0,
    },
    Run {
        what: "as many workers as there may be",
        workers: 64,
        count: 20,
        in_turn: 5,
        looks: 0,
    },
    Run {
        what: "a queue has 256 places, and its worker is late with its first packet",
        workers: 1,
        count: 600,
        in_turn: 60,
        looks: 50_000_000,
    },
    Run {
        what: "without threads the same is sent",
        workers: 0,
        count: 20,
        in_turn: 5,
        looks: 0,
    },
];

#[test]
fn each_worker_sends_the_packets_of_its_slot_in_order(rt: HostRuntime) {
    for run in RUNS.as_slice() {
        let mut spawner = listed(&rt, rt.alloc(), 0);
        assert_run(&rt, rt.alloc(), run, &mut spawner);
        assert_eq!(rt; spawner.starts(), u64::from(run.workers), "{}", run.what);
    }
}

// Each turn publishes its moment, and gives a worker a packet with a note of that.
const BESIDE: Run<'static> = Run {
    what: "a packet after each publishing",
    workers: 2,
    count: 20_000,
    in_turn: 1,
    looks: 0,
};

#[test]
fn notes_are_learned_beside_publishings(rt: HostRuntime) {
    let mut spawner = ThreadSpawner::new(&rt, Starter { rt: &rt });
    assert_run(&rt, rt.alloc(), &BESIDE, &mut spawner);
    assert_eq!(rt; spawner.faults(), 0);
}

// Of two workers the one of this number isn't started: the other link out comes back, and nothing was sent.
fn assert_refused<R: Threads + Wait + Abort + 'static>(rt: &R, alloc: Global, number: u64) {
    let mut spawner = listed(rt, alloc, number);
    let served = serve(rt, alloc, &BESIDE, &mut spawner);
    assert_eq!(rt;
        (served.report.end, served.report.turns),
        (End::SpawnFault, 0)
    );
    assert!(rt; matches!(served.outs.as_slice(), [out] if out.tried().is_empty()));
    assert_eq!(rt;
        (spawner.starts(), spawner.faults()),
        (number.saturating_sub(1), 1)
    );
}

#[test]
fn after_a_refused_start_the_other_link_comes_back_and_nothing_is_sent(rt: HostRuntime) {
    assert_refused(&rt, rt.alloc(), 1);
    assert_refused(&rt, rt.alloc(), 2);
}

// Each link out waits with its first send, some seconds at most, until the other one sends too.
const MEETING: Run<'static> = Run {
    what: "two workers",
    workers: 2,
    count: 2,
    in_turn: 2,
    looks: 1_000_000_000,
};

// A spawner that runs a worker only when it is joined would not let them meet.
#[test]
fn two_workers_at_once(rt: HostRuntime) {
    let mut spawner = ThreadSpawner::new(&rt, Starter { rt: &rt });
    let served = serve(&rt, rt.alloc(), &MEETING, &mut spawner);
    assert_eq!(rt; served.report, MEETING.report());
    assert!(rt; served.outs.as_slice().iter().all(|out| out.met()));
}
