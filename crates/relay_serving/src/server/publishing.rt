//! How a running relay publishes what it owes.
ghost use Rattle.std.specs.Prelude.{◌≢◌, ◌<◌, ◌^◌, [], MatchResult, OnErr};
ghost use Rattle.published_table.specs.Publishers.{HasPublished, IsSamePublisher, ShowsAlike, owing};
ghost use Rattle.relay_serving.specs.{Servers.{tally_in}, Traces.{PublishesSo}};

use super::Server;
use amt_ports::OutLink;
use published_table::Publisher;
use std::alloc::AllocError;
use std::sync::Wait;

// Publishes what is owed, if something is. Where memory ran out it is owed still, and goes first next time.
fn publish_owed<R: Wait>(rt: &R, publisher: &mut Publisher) -> Result<(), AllocError>
    ensures same { IsSamePublisher publisher.old publisher.new }
    ensures logs { MatchResult result (λ _. HasPublished publisher.old publisher.new)
        (λ _. ShowsAlike publisher.old publisher.new) }
    ensures owed { OnErr result (owing publisher.old ≢ []) }
{
    if publisher.owed() == 0 {
        return Ok(());
    }
    publisher.publish(rt)
}

impl<O: OutLink + Drop, T> Server<O, T> {
    /// Publishes what is owed. A publishing that memory refuses is counted, and nothing else happens then.
    pub(super) fn publish<R: Wait>(&mut self, rt: &R)
        requires few { tally_in self.old < 2 ^ 50 }
        ensures publishes { PublishesSo self.old self.new }
    {
        match publish_owed(rt, &mut self.publisher) {
            Ok(()) => self.course = self.course.shown(),
            Err(_) => self.counts.count_late(),
        }
    }
}
