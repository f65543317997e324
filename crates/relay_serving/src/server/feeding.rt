//! How a running relay takes packets from its feed.
ghost use Rattle.std.specs.Prelude.{◌≤◌, ◌<◌, ◌+◌, ◌^◌, length, OnOk, OnErr};
ghost use Rattle.relay_machine.specs.declared.event.Event.TheVariants.{Packet};
ghost use Rattle.amt_ports.specs.{Bursts.{AreAsked, IsNext}, Devices.{feed_at}};
ghost use Rattle.relay_serving.specs.{Servers.{counts_in, tally_in}, Traces.{FeedsSo, ServerDoes, nothing, taking}};

use super::Server;
use amt_ports::{Asked, BURST, End, Feed, FeedGot, OutLink, WAIT_MS};
use amt_values::Bytes;
use replication_workers::Job;
use std::alloc::{AllocError, Global};
use std::sync::Wait;

impl<O: OutLink + Drop, T> Server<O, T> {
    // Gives the packet to the slot of its source and group. Where memory ran out nothing happened.
    fn feed_packet<R: Wait>(
        &mut self,
        rt: &R,
        alloc: Global,
        packet: &[u8],
    ) -> Result<(), AllocError>
        requires short { length packet.now ≤ 65535 }
        requires few { (counts_in self.old).packets < 2 ^ 46 }
        requires tally { tally_in self.old < 2 ^ 50 }
        ensures takes { OnOk result (ServerDoes (taking (Packet packet.now) 1) self.old self.new) }
        ensures none { OnErr result (ServerDoes nothing self.old self.new) }
    {
        let packet = Bytes::copied(alloc, packet)?;
        self.course = self.course.fed(&packet);
        self.counts.count_packet();
        self.outcomes.count_packet(packet.as_slice());
        let job = Job {
            packet,
            at: self.relay.now(),
            note: self.publisher.tell(),
        };
        self.dispatcher.send(rt, job);
        Ok(())
    }

    // Asks the feed once.
    fn feed_next<F: Feed, R: Wait>(
        &mut self,
        rt: &R,
        alloc: Global,
        feed: &mut F,
        buf: &mut [u8],
    ) -> Result<Asked, End>
        requires room { 65536 ≤ length buf.old }
        requires few { (counts_in self.old).packets < 2 ^ 46 }
        requires tally { tally_in self.old < 2 ^ 50 }
        ensures feeds { FeedsSo IsNext self.old self.new (feed_at F.Feed feed.old) (feed_at F.Feed feed.new)
            (F.longest_wait feed.old) (F.longest_wait feed.new) (length buf.old) (length buf.new) result }
    {
        match feed.recv(buf, WAIT_MS) {
            Ok(FeedGot::Packet(octets)) => match self.feed_packet(rt, alloc, &buf[..octets]) {
                Ok(()) => Ok(Asked::Something),
                Err(_) => {
                    self.starve(1);
                    Ok(Asked::Something)
                }
            },
            Ok(FeedGot::Nothing) => Ok(Asked::Nothing),
            Ok(FeedGot::Closed) => Err(End::Closed),
            Err(_) => Err(End::FeedFault),
        }
    }

    /// Asks the feed until nothing is there, and at most 64 times.
    pub(crate) fn feed<F: Feed, R: Wait>(
        &mut self,
        rt: &R,
        alloc: Global,
        feed: &mut F,
        buf: &mut [u8],
    ) -> Result<(), End>
        requires room { 65536 ≤ length buf.old }
        requires few { (counts_in self.old).packets + 64 ≤ 2 ^ 46 }
        requires tally { tally_in self.old + 64 < 2 ^ 50 }
        ensures feeds { FeedsSo AreAsked self.old self.new (feed_at F.Feed feed.old) (feed_at F.Feed feed.new)
            (F.longest_wait feed.old) (F.longest_wait feed.new) (length buf.old) (length buf.new) result }
    {
        for _ in 0..BURST {
            match self.feed_next(rt, alloc, feed, buf)? {
                Asked::Something => {}
                Asked::Nothing => return Ok(()),
            }
        }
        Ok(())
    }
}
