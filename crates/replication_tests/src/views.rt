//! What a view answers, before and after publishings.
ghost use Rattle.std.specs.Prelude.{◌≡◌, ◌≤◌};
ghost use Rattle.published_table.specs.{Publishers.{book_of}, Views.{publisher_of, terms_of}};

use crate::fixtures::{ENDPOINTS, GROUP, SOURCE, endpoint, moment};
use crate::relay::Relay;
use amt_values::Endpoint;
use endpoint_membership::Targets;
use published_table::View;
use std::alloc::Global;
use std::process::Abort;
use std::sync::Wait;

// What is done with a relay and its view, and what comes of it.
enum Step<'a> {
    // The endpoint of this host wants all sources from 0 on.
    Report(u8),
    // Time passes to the moment.
    Mark(u64),
    // All that is owed is published, and the view is told of it.
    Publish,
    // So many entries are owed.
    Owes(u64),
    // A packet of this moment is for these hosts, by a log of so many entries.
    Answers(u64, u64, &'a [u8]),
}

// A relay with one view of what it publishes. It isn't `Drop`: end it by `end`.
struct RelayWithView {
    relay: Relay,
    view: View,
    targets: Targets,
    ghost mine: { publisher_of view ≡ book_of relay.publisher },
    ghost room: { (terms_of view).limits.endpoints ≤ targets.room },
}

fn are_hosts(targets: &[Endpoint], hosts: &[u8]) -> bool {
    for (target, host) in targets.iter().zip(hosts) {
        if *target != endpoint(*host) {
            return false;
        }
    }
    targets.len() == hosts.len()
}

impl RelayWithView {
    fn new<R: Wait + Abort>(rt: &R, alloc: Global) -> RelayWithView {
        let Ok(targets) = Targets::new(alloc, ENDPOINTS) else {
            panic!(rt; "out of memory");
        };
        let (relay, view) = Relay::with_view(rt, alloc);
        RelayWithView {
            relay,
            view,
            targets,
        }
    }

    fn publish_and_tell<R: Wait + Abort>(&mut self, rt: &R) {
        self.relay.publish(rt);
        self.view.learn(self.relay.tell());
    }

    // Asks who gets a packet at the moment; the answer is by a log of so many entries.
    fn assert_answer(&mut self, rt: &impl Abort, ms: u64, length: u64) {
        let at = moment(rt, ms);
        let found = self
            .view
            .admitting_into(&GROUP, &SOURCE, &at, &mut self.targets);
        assert_eq!(rt; found, Some(length));
        assert_eq!(rt; self.view.handed(), 0);
    }

    fn take<R: Wait + Abort>(&mut self, rt: &R, step: &Step) {
        match step {
            Step::Report(host) => self.relay.report(rt, endpoint(*host), GROUP, 0),
            Step::Mark(ms) => self.relay.mark(rt, *ms),
            Step::Publish => self.publish_and_tell(rt),
            Step::Owes(count) => assert_eq!(rt; self.relay.owed(), *count),
            Step::Answers(ms, length, hosts) => {
                self.assert_answer(rt, *ms, *length);
                assert!(rt; are_hosts(self.targets.as_slice(), hosts), "at {ms}");
            }
        }
    }

    fn end<R: Wait>(self, rt: &R) {
        let RelayWithView {
            relay,
            view: _view,
            targets: _targets,
        } = self;
        relay.end(rt);
    }
}

// Takes the steps in their order.
fn take_all<R: Wait + Abort>(rt: &R, alloc: Global, steps: &[Step]) {
    let mut one = RelayWithView::new(rt, alloc);
    for step in steps {
        one.take(rt, step);
    }
    one.end(rt);
}

const TOLD: [Step<'static>; 4] = [
    Step::Report(7),
    Step::Publish,
    Step::Owes(0),
    Step::Answers(0, 1, &[7]),
];

#[test]
fn a_view_answers_by_the_log_that_it_was_told_of(rt: HostRuntime) {
    take_all(&rt, rt.alloc(), &TOLD);
}

const OWED: [Step<'static>; 4] = [
    Step::Report(7),
    Step::Report(7),
    Step::Owes(2),
    Step::Answers(0, 0, &[]),
];

#[test]
fn what_is_owed_is_in_no_answer(rt: HostRuntime) {
    take_all(&rt, rt.alloc(), &OWED);
}

const AT_THE_MARK: [Step<'static>; 6] = [
    Step::Report(7),
    Step::Publish,
    Step::Answers(259_999, 1, &[7]),
    Step::Mark(260_000),
    Step::Publish,
    Step::Answers(259_999, 2, &[]),
];

#[test]
fn no_answer_is_by_a_moment_before_that_of_the_log(rt: HostRuntime) {
    take_all(&rt, rt.alloc(), &AT_THE_MARK);
}
