//! How a running gateway hears its link.
ghost use Rattle.std.specs.Prelude.{◌≤◌, ◌<◌, ◌+◌, ◌^◌, Bool, length};
ghost use Rattle.gateway_machine.specs.declared.event.GatewayEvent.TheVariants.{Datagram as DatagramEvent};
ghost use Rattle.amt_ports.specs.{Bursts.{AreAsked, IsNext}, Devices.{link_at, out_at}};
ghost use Rattle.gateway_serving.specs.{Servers.{tally_in}, Traces.{HearsSo, WorkDoes, at_work, offering}};

use super::Server;
use amt_ports::{Asked, BURST, End, Got, Link, OutLink, WAIT_MS};
use amt_values::{Bytes, Peer};
use gateway_machine::GatewayEvent;
use std::alloc::Global;

impl Server {
    // Takes a datagram, and counts it; one that memory refused is counted, and isn't an event.
    fn hear_datagram<L: Link, O: OutLink>(
        &mut self,
        alloc: Global,
        link: &mut L,
        out: &mut O,
        from: Peer,
        bytes: &[u8],
    )
        requires short { length bytes.now ≤ 65535 }
        requires few { tally_in self.old + 1 < 2 ^ 61 }
        ensures hears { (starved : Bool) × WorkDoes (record (offering starved (DatagramEvent from bytes.now)) { datagrams = 1; tally = 2 })
            (at_work self.old (link_at L.Link link.old) (L.longest_wait link.old) (out_at O.OutLink out.old))
            (at_work self.new (link_at L.Link link.new) (L.longest_wait link.new) (out_at O.OutLink out.new)) }
    {
        self.counts.datagrams += 1;
        match Bytes::copied(alloc, bytes) {
            Ok(bytes) => self.offer(alloc, &GatewayEvent::Datagram { from, bytes }, link, out),
            Err(_) => self.counts.count_starved(),
        }
    }

    // Asks the link once.
    fn hear_next<L: Link, O: OutLink>(
        &mut self,
        alloc: Global,
        link: &mut L,
        out: &mut O,
        buf: &mut [u8],
    ) -> Result<Asked, End>
        requires room { 65536 ≤ length buf.old }
        requires few { tally_in self.old + 1 < 2 ^ 61 }
        ensures hears { HearsSo IsNext
            (at_work self.old (link_at L.Link link.old) (L.longest_wait link.old) (out_at O.OutLink out.old))
            (at_work self.new (link_at L.Link link.new) (L.longest_wait link.new) (out_at O.OutLink out.new))
            (length buf.old) (length buf.new) result }
    {
        match link.recv(buf, WAIT_MS) {
            Ok(Got::Datagram(from, octets)) => {
                self.hear_datagram(alloc, link, out, from, &buf[..octets]);
                Ok(Asked::Something)
            }
            Ok(Got::Nothing) => Ok(Asked::Nothing),
            Ok(Got::Closed) => Err(End::Closed),
            Err(_) => Err(End::LinkFault),
        }
    }

    /// Asks the link until nothing is there, and at most 64 times.
    pub(super) fn hear<L: Link, O: OutLink>(
        &mut self,
        alloc: Global,
        link: &mut L,
        out: &mut O,
        buf: &mut [u8],
    ) -> Result<(), End>
        requires room { 65536 ≤ length buf.old }
        requires few { tally_in self.old + 128 < 2 ^ 61 }
        ensures hears { HearsSo AreAsked
            (at_work self.old (link_at L.Link link.old) (L.longest_wait link.old) (out_at O.OutLink out.old))
            (at_work self.new (link_at L.Link link.new) (L.longest_wait link.new) (out_at O.OutLink out.new))
            (length buf.old) (length buf.new) result }
    {
        for _ in 0..BURST {
            match self.hear_next(alloc, link, out, buf)? {
                Asked::Something => {}
                Asked::Nothing => return Ok(()),
            }
        }
        Ok(())
    }
}
