//! How a running relay hears its link.
ghost use Rattle.std.specs.Prelude.{◌≡◌, ◌≤◌, ◌<◌, ◌+◌, ◌^◌, length, map, OnOk, OnErr};
ghost use Rattle.relay_machine.specs.declared.event.Event.TheVariants.{Datagram};
ghost use Rattle.replication_workers.specs.Replication.{to_peer};
ghost use Rattle.amt_ports.specs.{Bursts.{AreAsked, IsNext}, Devices.{link_at}};
ghost use Rattle.relay_serving.specs.{Counting.{CountsAlike, HasAnswered}, Servers.{tally_in}, Traces.{HearsSo, LinkDoes, nothing, taking}};

use super::Server;
use crate::counts::Counts;
use amt_ports::{Asked, BURST, End, Got, Link, OutLink, WAIT_MS};
use amt_values::{Bytes, Peer};
use relay_machine::{Event, OneSend};
use std::alloc::{AllocError, Global};

// Tries to send each, in order, and counts them. One that the link doesn't take isn't tried again.
fn send_answers<L: Link>(link: &mut L, sends: &[OneSend], counts: &mut Counts)
    requires few { length sends.now ≤ 1 }
    requires room { counts.old.sent + counts.old.unsent < 2 ^ 62 }
    ensures answered { HasAnswered (link_at L.Link link.old) (link_at L.Link link.new) counts.old counts.new (map to_peer sends.now) }
    ensures coming { L.coming link.new ≡ L.coming link.old }
    ensures faults { L.receive_faults link.new ≡ L.receive_faults link.old }
    ensures waits { L.longest_wait link.new ≡ L.longest_wait link.old }
    ensures others { CountsAlike counts.old counts.new }
{
    for send in sends {
        match link.send(&send.to.peer(), send.bytes.as_slice()) {
            Ok(()) => counts.sent += 1,
            Err(_) => counts.unsent += 1,
        }
    }
}

impl<O: OutLink + Drop, T> Server<O, T> {
    // Takes a datagram, and sends the answers to it. Where memory ran out nothing happened.
    fn hear_datagram<L: Link>(
        &mut self,
        alloc: Global,
        link: &mut L,
        from: Peer,
        bytes: &[u8],
    ) -> Result<(), AllocError>
        requires short { length bytes.now ≤ 65535 }
        requires few { tally_in self.old < 2 ^ 50 }
        ensures takes { OnOk result (LinkDoes (taking (Datagram bytes.now from) 0) self.old self.new (link_at L.Link link.old) (link_at L.Link link.new)
            (L.longest_wait link.old) (L.longest_wait link.new)) }
        ensures none { OnErr result (LinkDoes nothing self.old self.new (link_at L.Link link.old) (link_at L.Link link.new)
            (L.longest_wait link.old) (L.longest_wait link.new)) }
        ensures faults { L.receive_faults link.new ≡ L.receive_faults link.old }
    {
        let event = Event::Datagram {
            bytes: Bytes::copied(alloc, bytes)?,
            from,
        };
        let sends = self.enter(alloc, &event)?;
        send_answers(link, sends.as_slice(), &mut self.counts);
        Ok(())
    }

    // Asks the link once.
    fn hear_next<L: Link>(
        &mut self,
        alloc: Global,
        link: &mut L,
        buf: &mut [u8],
    ) -> Result<Asked, End>
        requires room { 65536 ≤ length buf.old }
        requires few { tally_in self.old < 2 ^ 50 }
        ensures hears { HearsSo IsNext self.old self.new (link_at L.Link link.old) (link_at L.Link link.new)
            (L.longest_wait link.old) (L.longest_wait link.new) (length buf.old) (length buf.new) result }
    {
        match link.recv(buf, WAIT_MS) {
            Ok(Got::Datagram(from, octets)) => {
                match self.hear_datagram(alloc, link, from, &buf[..octets]) {
                    Ok(()) => Ok(Asked::Something),
                    Err(_) => {
                        self.starve(1);
                        Ok(Asked::Something)
                    }
                }
            }
            Ok(Got::Nothing) => Ok(Asked::Nothing),
            Ok(Got::Closed) => Err(End::Closed),
            Err(_) => Err(End::LinkFault),
        }
    }

    /// Asks the link until nothing is there, and at most 64 times.
    pub(crate) fn hear<L: Link>(
        &mut self,
        alloc: Global,
        link: &mut L,
        buf: &mut [u8],
    ) -> Result<(), End>
        requires room { 65536 ≤ length buf.old }
        requires few { tally_in self.old + 64 < 2 ^ 50 }
        ensures hears { HearsSo AreAsked self.old self.new (link_at L.Link link.old) (link_at L.Link link.new)
            (L.longest_wait link.old) (L.longest_wait link.new) (length buf.old) (length buf.new) result }
    {
        for _ in 0..BURST {
            match self.hear_next(alloc, link, buf)? {
                Asked::Something => {}
                Asked::Nothing => return Ok(()),
            }
        }
        Ok(())
    }
}
