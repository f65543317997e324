//! How a running gateway takes lines from its control.
ghost use Rattle.std.specs.Prelude.{◌≡◌, ◌≤◌, ◌<◌, ◌+◌, ◌^◌, [], length};
ghost use Rattle.amt_ports.specs.{Bursts.{AreAsked, IsNext}, Devices.{link_at, out_at}};
ghost use Rattle.gateway_serving.specs.{Answering.{waiting_in}, Servers.{tally_in}, Stages.{ReadsLine}, Traces.{ReadsSo, at_control, at_work}};

use super::Server;
use crate::askers::Askers;
use crate::reading::{Reading, read_line};
use amt_ports::{Asked, BURST, End, Got, Link, OutLink, WAIT_MS};
use amt_values::Peer;
use std::alloc::Global;

impl Server {
    // Takes a line, and counts it: the socket call that it makes, if it makes one. Whoever sent another line is to be
    // answered after the turn, and nothing else is done then.
    fn take_line<L: Link, O: OutLink>(
        &mut self,
        alloc: Global,
        link: &mut L,
        out: &mut O,
        from: Peer,
        line: &[u8],
        askers: &mut Askers,
    )
        requires few { tally_in self.old + 1 < 2 ^ 61 }
        requires room { length (waiting_in askers.old) < 64 }
        ensures lines { ReadsLine from line.now
            (at_work self.old (link_at L.Link link.old) (L.longest_wait link.old) (out_at O.OutLink out.old))
            (at_work self.new (link_at L.Link link.new) (L.longest_wait link.new) (out_at O.OutLink out.new))
            (waiting_in askers.old) (waiting_in askers.new) }
    {
        self.counts.controls += 1;
        match read_line(alloc, self.v6, line) {
            Reading::Call(event) => self.offer(alloc, &event, link, out),
            Reading::Asking(asking) => askers.add(from, line, asking),
            Reading::Bad(reason) => {
                self.counts.bad_controls += 1;
                askers.add_bad(from, line, reason);
            }
            Reading::Starved => self.counts.count_starved(),
        }
    }

    // Asks the control once.
    fn hear_control_next<L: Link, K: Link, O: OutLink>(
        &mut self,
        alloc: Global,
        link: &mut L,
        control: &mut K,
        out: &mut O,
        buf: &mut [u8],
        askers: &mut Askers,
    ) -> Result<Asked, End>
        requires room { 65536 ≤ length buf.old }
        requires few { tally_in self.old + 1 < 2 ^ 61 }
        requires few_askers { length (waiting_in askers.old) < 64 }
        ensures lines { ReadsSo IsNext
            (at_control (at_work self.old (link_at L.Link link.old) (L.longest_wait link.old) (out_at O.OutLink out.old))
            (link_at K.Link control.old) (K.longest_wait control.old) (waiting_in askers.old))
            (at_control (at_work self.new (link_at L.Link link.new) (L.longest_wait link.new) (out_at O.OutLink out.new))
            (link_at K.Link control.new) (K.longest_wait control.new) (waiting_in askers.new))
            (length buf.old) (length buf.new) result }
    {
        match control.recv(buf, WAIT_MS) {
            Ok(Got::Datagram(from, octets)) => {
                self.take_line(alloc, link, out, from, &buf[..octets], askers);
                Ok(Asked::Something)
            }
            Ok(Got::Nothing) => Ok(Asked::Nothing),
            Ok(Got::Closed) => Err(End::Closed),
            Err(_) => Err(End::FeedFault),
        }
    }

    /// Asks the control until nothing is there, and at most 64 times.
    pub(super) fn hear_control<L: Link, K: Link, O: OutLink>(
        &mut self,
        alloc: Global,
        link: &mut L,
        control: &mut K,
        out: &mut O,
        buf: &mut [u8],
        askers: &mut Askers,
    ) -> Result<(), End>
        requires room { 65536 ≤ length buf.old }
        requires few { tally_in self.old + 128 < 2 ^ 61 }
        requires no_askers { waiting_in askers.old ≡ [] }
        ensures lines { ReadsSo AreAsked
            (at_control (at_work self.old (link_at L.Link link.old) (L.longest_wait link.old) (out_at O.OutLink out.old))
            (link_at K.Link control.old) (K.longest_wait control.old) (waiting_in askers.old))
            (at_control (at_work self.new (link_at L.Link link.new) (L.longest_wait link.new) (out_at O.OutLink out.new))
            (link_at K.Link control.new) (K.longest_wait control.new) (waiting_in askers.new))
            (length buf.old) (length buf.new) result }
    {
        for _ in 0..BURST {
            match self.hear_control_next(alloc, link, control, out, buf, askers)? {
                Asked::Something => {}
                Asked::Nothing => return Ok(()),
            }
        }
        Ok(())
    }
}
