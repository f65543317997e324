//! What a replicator sends, and what it counts.
ghost use Rattle.std.specs.Prelude.{◌≡◌};
ghost use Rattle.published_table.specs.{Publishers.{book_of}, Views.{publisher_of}};
ghost use Rattle.replication_workers.specs.Replicators.{view_of};

use crate::fixtures::{ENDPOINTS, GROUP, endpoint};
use crate::messages::{HostSend, MESSAGE, PACKET, assert_tried, job_of};
use crate::relay::Relay;
use amt_ports::MemOut;
use replication_workers::Replicator;
use std::alloc::Global;
use std::process::Abort;
use std::sync::Wait;

// What is done with a relay and its replicator, and what comes of it.
enum Step {
    // The endpoint of this host wants all sources of the group from 0 on.
    Report(u8),
    // Time passes to the moment.
    Mark(u64),
    Publish,
    // The packet of this moment comes to this: the length of the log, how many were sent, and how many not.
    Copies(u64, (u64, u32, u32)),
}

// A relay with one replicator of what it publishes. It isn't `Drop`: end it by `end`.
struct RelayWithReplicator {
    alloc: Global,
    relay: Relay,
    replicator: Replicator<MemOut>,
    ghost mine: { publisher_of (view_of replicator) ≡ book_of relay.publisher },
}

impl RelayWithReplicator {
    fn new<R: Wait + Abort>(rt: &R, alloc: Global, out: MemOut) -> RelayWithReplicator {
        let (relay, view) = Relay::with_view(rt, alloc);
        let Ok(replicator) = Replicator::new(alloc, view, out, ENDPOINTS, 1450) else {
            panic!(rt; "out of memory");
        };
        RelayWithReplicator {
            alloc,
            relay,
            replicator,
        }
    }

    // What a job with a note of the published log comes to.
    fn copied<R: Wait + Abort>(&mut self, rt: &R, ms: u64) -> (u64, u32, u32) {
        let job = job_of(rt, self.alloc, &PACKET, ms, self.relay.tell());
        let copied = self.replicator.replicate(rt, job);
        (copied.prefix, copied.sent, copied.unsent)
    }

    fn take<R: Wait + Abort>(&mut self, rt: &R, step: &Step) {
        match step {
            Step::Report(host) => self.relay.report(rt, endpoint(*host), GROUP, 0),
            Step::Mark(ms) => self.relay.mark(rt, *ms),
            Step::Publish => self.relay.publish(rt),
            Step::Copies(ms, wanted) => {
                assert_eq!(rt; self.copied(rt, *ms), *wanted, "at {ms}");
            }
        }
    }

    // The link has tried these sends.
    fn end<R: Wait + Abort>(self, rt: &R, tried: &[HostSend]) {
        let RelayWithReplicator {
            alloc: _,
            relay,
            replicator,
        } = self;
        let (_view, out) = replicator.into_parts();
        assert_tried(rt, &out, tried);
        relay.end(rt);
    }
}

// Takes the steps in their order, with a link of which the sends of these numbers fail. In the end these were tried.
fn take_all<R: Wait + Abort>(
    rt: &R,
    alloc: Global,
    failing: &[u64],
    steps: &[Step],
    tried: &[HostSend],
) {
    let Ok(failing) = Vec::from_slice(alloc, failing) else {
        panic!(rt; "out of memory");
    };
    let out = MemOut::failing(alloc, failing);
    let mut one = RelayWithReplicator::new(rt, alloc, out);
    for step in steps {
        one.take(rt, step);
    }
    one.end(rt, tried);
}

const AT_THE_MARK: [Step; 4] = [
    Step::Report(7),
    Step::Mark(260_000),
    Step::Publish,
    Step::Copies(259_999, (2, 0, 0)),
];

#[test]
fn a_packet_is_copied_at_no_moment_before_that_of_the_log(rt: HostRuntime) {
    take_all(&rt, rt.alloc(), &[], &AT_THE_MARK, &[]);
}

const THREE_SENDS: [Step; 5] = [
    Step::Report(7),
    Step::Report(8),
    Step::Report(9),
    Step::Publish,
    Step::Copies(0, (3, 2, 1)),
];

const TRIED: [HostSend<'static>; 3] = [
    (7, &MESSAGE, true),
    (8, &MESSAGE, false),
    (9, &MESSAGE, true),
];

#[test]
fn a_failed_send_keeps_no_other_back(rt: HostRuntime) {
    take_all(&rt, rt.alloc(), &[2], &THREE_SENDS, &TRIED);
}
