//! How a running gateway answers the lines of a turn after it.
ghost use Rattle.std.specs.Prelude.{◌≡◌, ◌<◌, ◌+◌, ◌^◌, IfOk, OnErr, OnOk, length};
ghost use Rattle.amt_ports.specs.Devices.{link_at, out_at};
ghost use Rattle.control_lines.specs.Answer.{IsUntried, HasReplied};
ghost use Rattle.gateway_serving.specs.{Answering.{AnswersEach, AnswersOne, IsUnheard, LeavesSo, waiting_in}, Replies.{reply_text}, Servers.{settings_in, setup_in, standing_in, tally_in}, Stages.{EndsTurnBy}, Traces.{at_control, at_work}};

use super::Server;
use crate::askers::{Asker, Askers};
use crate::numbers::Numbers;
use crate::replying::reply;
use amt_ports::{Link, OutLink};
use amt_values::Bytes;
use control_lines::{GatewayAsking, answer_line};
use gateway_machine::GatewayEvent;
use script_lines::Reason;
use std::alloc::{AllocError, Global};

impl Server {
    // What answers a line that was read so, after so many turns.
    fn reply(
        &self,
        alloc: Global,
        turns: u64,
        reading: &Result<GatewayAsking, Reason>,
    ) -> Result<Bytes, AllocError>
        ensures { IfOk result (λ text. text
            ≡ reply_text (settings_in self.now) (setup_in self.now).first (standing_in turns self.now) reading.now) }
    {
        let numbers = Numbers::of(turns, &self.counts);
        reply(alloc, &self.gateway, &numbers, &self.outcomes, reading)
    }

    // Tries to send the answer to whoever asked. Out of memory nothing is sent.
    fn send_reply<K: Link>(
        &self,
        alloc: Global,
        turns: u64,
        control: &mut K,
        asker: &Asker,
    ) -> Result<(), AllocError>
        ensures replied { OnOk result (HasReplied asker.now.from
            (reply_text (settings_in self.now) (setup_in self.now).first (standing_in turns self.now) asker.now.reading)
            (link_at K.Link control.old) (link_at K.Link control.new)) }
        ensures untried { OnErr result (IsUntried (link_at K.Link control.old) (link_at K.Link control.new)) }
        ensures unheard { IsUnheard (link_at K.Link control.old) (link_at K.Link control.new) (K.longest_wait control.old) (K.longest_wait control.new) }
    {
        let Ok(text) = self.reply(alloc, turns, &asker.reading) else {
            return Err(AllocError);
        };
        answer_line(control, &asker.from, text)
    }

    // Answers whoever asked. An answer that memory refuses is counted.
    fn answer<K: Link>(&mut self, alloc: Global, turns: u64, control: &mut K, asker: &Asker)
        requires few { tally_in self.old < 2 ^ 61 }
        ensures answers { AnswersOne turns self.old self.new asker.now (link_at K.Link control.old) (link_at K.Link control.new) }
        ensures unheard { IsUnheard (link_at K.Link control.old) (link_at K.Link control.new) (K.longest_wait control.old) (K.longest_wait control.new) }
    {
        match self.send_reply(alloc, turns, control, asker) {
            Ok(()) => {}
            Err(_) => self.counts.count_starved(),
        }
    }

    // Answers all who asked, in order.
    fn answer_all<K: Link>(&mut self, alloc: Global, turns: u64, control: &mut K, askers: &[Asker])
        requires few { tally_in self.old + length askers.now < 2 ^ 61 }
        ensures answers { AnswersEach turns self.old self.new askers.now (link_at K.Link control.old) (link_at K.Link control.new) }
        ensures unheard { IsUnheard (link_at K.Link control.old) (link_at K.Link control.new) (K.longest_wait control.old) (K.longest_wait control.new) }
    {
        for asker in askers {
            self.answer(alloc, turns, control, asker);
        }
    }

    // All sockets leave their groups, where somebody asked for that.
    fn leave<L: Link, O: OutLink>(&mut self, alloc: Global, asked: bool, link: &mut L, out: &mut O)
        requires few { tally_in self.old < 2 ^ 61 }
        ensures leaves { LeavesSo asked
            (at_work self.old (link_at L.Link link.old) (L.longest_wait link.old) (out_at O.OutLink out.old))
            (at_work self.new (link_at L.Link link.new) (L.longest_wait link.new) (out_at O.OutLink out.new)) }
    {
        if asked {
            self.offer(alloc, &GatewayEvent::LeaveAll, link, out);
        }
    }

    /// After so many whole turns: answers those who asked in the last one, lets all sockets leave their groups where
    /// one of them asked for that, and says whether one asked that the run ends.
    pub(super) fn end_turn<L: Link, K: Link, O: OutLink>(
        &mut self,
        alloc: Global,
        turns: u64,
        link: &mut L,
        control: &mut K,
        out: &mut O,
        askers: &mut Askers,
    ) -> bool
        requires few { tally_in self.old + length (waiting_in askers.old) < 2 ^ 61 }
        ensures ends { EndsTurnBy turns
            (at_control (at_work self.old (link_at L.Link link.old) (L.longest_wait link.old) (out_at O.OutLink out.old))
            (link_at K.Link control.old) (K.longest_wait control.old) (waiting_in askers.old))
            (at_control (at_work self.new (link_at L.Link link.new) (L.longest_wait link.new) (out_at O.OutLink out.new))
            (link_at K.Link control.new) (K.longest_wait control.new) (waiting_in askers.new)) result }
    {
        self.answer_all(alloc, turns, control, askers.as_slice());
        let stops = askers.ask_stop();
        let leaves = askers.ask_leave();
        self.leave(alloc, leaves, link, out);
        askers.clear();
        stops
    }
}
