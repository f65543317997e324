//! Sets of devices in memory. It knows public calls alone.

ghost use Rattle.std.specs.Prelude.{None};

use amt_ports::{Failed, MemClock, MemFeed, MemLink, MemOut, MemWords, Spawner, Task};
use amt_values::{Ip, Peer};
use relay_serving::Control;
use replication_workers::{Outs, Worker, WorkerDone};
use serving_commands::{
    AskedBy, DeviceSet, GatewayDevices, Live, MemLive, OpenFault, RelayDevices, SharedCopies,
};
use std::alloc::{AllocError, Global};
use std::collections::VecDeque;
use std::sync::Wait;

const LISTEN: Peer = Peer {
    ip: Ip::V4(0xc000_0201),
    port: 2268,
};

// Where the feed is, or a gateway's control lines come.
const FEED: Peer = Peer {
    ip: Ip::V4(0x7f00_0001),
    port: 5000,
};

// Where a relay is asked.
const CONTROL: Peer = Peer {
    ip: Ip::V4(0x7f00_0001),
    port: 5001,
};

const UNASKED: AskedBy = AskedBy {
    control: None,
    report_seconds: 0,
};

const ASKED: AskedBy = AskedBy {
    control: Some(CONTROL),
    report_seconds: 0,
};

// A spawner with no threads: a worker runs when it is joined.
#[derive(Drop)]
struct AtJoin<R> {
    rt: R,
}

impl<R: Wait> Spawner<Worker<MemOut>> for AtJoin<R> {
    type Started = Worker<MemOut>;

    ghost task_of = { λ started. started };

    ghost starts = { λ _. None };

    ghost faults = { λ _. 0 };

    fn start(&mut self, work: Worker<MemOut>) -> Result<Worker<MemOut>, Failed> {
        Ok(work)
    }

    fn join(&mut self, started: Worker<MemOut>) -> WorkerDone<MemOut> {
        started.run(&self.rt)
    }
}

type OfRelay<R> = RelayDevices<
    MemLink,
    MemFeed,
    MemClock,
    MemWords,
    MemOut,
    AtJoin<R>,
    MemLink,
    SharedCopies,
>;

type OfGateway = GatewayDevices<MemLink, MemLink, MemOut, MemClock, MemWords>;

type MemSet<R> = DeviceSet<OfRelay<R>, OfGateway>;

type MemSets<R> = MemLive<OfRelay<R>, OfGateway>;

fn outs_of(alloc: Global, count: usize) -> Result<Outs<MemOut>, AllocError> {
    let mut outs = Vec::with_capacity(alloc, count)?;
    for _ in 0..count {
        outs.push(MemOut::new(alloc))?;
    }
    Ok(Outs::from(outs))
}

fn control_of(alloc: Global) -> Control<MemLink, SharedCopies> {
    Control {
        link: MemLink::new(alloc, VecDeque::new(alloc)),
        copies: SharedCopies::new(alloc),
    }
}

fn relay_set<R: Drop>(
    rt: R,
    alloc: Global,
    outs: usize,
    control: Option<Control<MemLink, SharedCopies>>,
) -> Result<MemSet<R>, AllocError> {
    let outs = outs_of(alloc, outs)?;
    Ok(DeviceSet::Relay(RelayDevices {
        link: MemLink::new(alloc, VecDeque::new(alloc)),
        feed: MemFeed::new(alloc, VecDeque::new(alloc)),
        clock: MemClock::new(Vec::new(alloc)),
        words: MemWords::new(alloc, Vec::new(alloc)),
        outs,
        spawner: AtJoin { rt },
        control,
    }))
}

fn gateway_set<R>(alloc: Global) -> MemSet<R> {
    DeviceSet::Gateway(GatewayDevices {
        link: MemLink::new(alloc, VecDeque::new(alloc)),
        control: MemLink::new(alloc, VecDeque::new(alloc)),
        out: MemOut::new(alloc),
        clock: MemClock::new(Vec::new(alloc)),
        words: MemWords::new(alloc, Vec::new(alloc)),
    })
}

// A relay's set with two links out, a gateway's, and a relay's with one link out that may be asked.
fn sets_of<R: Copy + Drop>(
    rt: R,
    alloc: Global,
    failing: &[u64],
) -> Result<MemSets<R>, AllocError> {
    let mut sets = Vec::with_capacity(alloc, 3)?;
    sets.push(relay_set(rt, alloc, 2, None)?)?;
    sets.push(gateway_set(alloc))?;
    sets.push(relay_set(rt, alloc, 1, Some(control_of(alloc)))?)?;
    Ok(MemLive::failing(alloc, sets, Vec::from_slice(alloc, failing)?))
}

// A set: a relay's with so many links out, and maybe one that may be asked, or a gateway's.
#[derive(Clone, Copy, PartialEq, Eq)]
enum Kind {
    Relay(u32),
    Asked(u32),
    Gateway,
}

type Answer = Result<Kind, OpenFault>;

// What an opening for a relay hands out, which is given back.
fn open_relay<R: Wait + Drop>(live: &mut MemSets<R>, asking: &AskedBy, slots: u32) -> Answer {
    match live.open_relay(&LISTEN, &FEED, asking, slots) {
        Ok(devices) => {
            let kind = match &devices.control {
                Some(_) => Kind::Asked(slots),
                None => Kind::Relay(slots),
            };
            live.return_relay(devices);
            Ok(kind)
        }
        Err(fault) => Err(fault),
    }
}

// What an opening for a gateway hands out, which is given back.
fn open_gateway<V: Live>(live: &mut V) -> Answer {
    match live.open_gateway(&LISTEN, &FEED, 0) {
        Ok(devices) => {
            live.return_gateway(devices);
            Ok(Kind::Gateway)
        }
        Err(fault) => Err(fault),
    }
}

fn open<R: Wait + Drop>(live: &mut MemSets<R>, kind: &Kind) -> Answer {
    match kind {
        Kind::Relay(slots) => open_relay(live, &UNASKED, *slots),
        Kind::Asked(slots) => open_relay(live, &ASKED, *slots),
        Kind::Gateway => open_gateway(live),
    }
}

const ONE: Kind = Kind::Relay(1);

const ONE_ASKED: Kind = Kind::Asked(1);

const TWO: Kind = Kind::Relay(2);

const TWO_ASKED: Kind = Kind::Asked(2);

const THREE: Kind = Kind::Relay(3);

const HOST: Kind = Kind::Gateway;

const FAILED: Answer = Err(OpenFault::Failed);

// The openings that are listed to fail, four that are asked, and what they answer.
type Row = (&'static str, &'static [u64], [Kind; 4], [Answer; 4]);

const OPENINGS: [Row; 5] = [
    (
        "the sets are given in order, and after the last one an opening fails",
        &[],
        [TWO, HOST, ONE_ASKED, HOST],
        [Ok(TWO), Ok(HOST), Ok(ONE_ASKED), FAILED],
    ),
    (
        "a listed opening fails and takes no set",
        &[1, 3],
        [TWO, TWO, HOST, HOST],
        [FAILED, Ok(TWO), FAILED, Ok(HOST)],
    ),
    (
        "a set of the other kind isn't given, and stays the first",
        &[],
        [HOST, TWO, ONE, HOST],
        [FAILED, Ok(TWO), FAILED, Ok(HOST)],
    ),
    (
        "a set with too many or too few links out isn't given, and stays the first",
        &[],
        [ONE, THREE, TWO, HOST],
        [FAILED, FAILED, Ok(TWO), Ok(HOST)],
    ),
    (
        "a set that may be asked is given where that is wanted alone, and where it is, no other",
        &[],
        [TWO_ASKED, TWO, HOST, ONE],
        [FAILED, Ok(TWO), Ok(HOST), FAILED],
    ),
];

fn answers<R: Wait + Drop>(live: &mut MemSets<R>, kinds: &[Kind; 4], wanted: &[Answer; 4]) -> bool {
    for (kind, want) in kinds.iter().zip(wanted) {
        if open(live, kind) != *want {
            return false;
        }
    }
    true
}

fn is_of<R: Drop>(set: &MemSet<R>, kind: &Kind) -> bool {
    match (set, kind) {
        (DeviceSet::Relay(devices), Kind::Relay(outs)) => {
            devices.outs.len() == *outs as usize && devices.control.is_none()
        }
        (DeviceSet::Relay(devices), Kind::Asked(outs)) => {
            devices.outs.len() == *outs as usize && devices.control.is_some()
        }
        (DeviceSet::Gateway(_), Kind::Gateway) => true,
        _ => false,
    }
}

// Whether the sets that were given came back in their order, and nothing else.
fn are_returned<R: Drop>(returned: &[MemSet<R>], answers: &[Answer; 4]) -> bool {
    let mut sets = returned.iter();
    for answer in answers {
        if let Ok(kind) = answer {
            match sets.next() {
                Some(set) if is_of(set, kind) => {}
                _ => return false,
            }
        }
    }
    sets.next().is_none()
}

fn is_told<R: Wait + Copy + Drop>(rt: R, alloc: Global, row: &Row) -> Result<bool, AllocError> {
    let (_, failing, kinds, wanted) = row;
    let failed = wanted.iter().filter(|answer| answer.is_err()).count();
    let mut live = sets_of(rt, alloc, failing)?;
    Ok(
        answers(&mut live, kinds, wanted)
            && live.faults() == failed as u64
            && live.asked().len() == 4
            && are_returned(live.returned(), wanted),
    )
}

#[test]
fn sets_in_memory_are_given_in_order_and_come_back(rt: HostRuntime) {
    for row in OPENINGS.as_slice() {
        assert!(rt; is_told(rt, rt.alloc(), row) == Ok(true), "{}", row.0);
    }
}
