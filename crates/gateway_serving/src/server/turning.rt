//! One turn of a running gateway, and all of a run.
ghost use Rattle.std.specs.Prelude.{◌≡◌, ◌≤◌, ◌<◌, ◌+◌, ◌^◌, [], ◌∷◌, length};
ghost use Rattle.gateway_machine.specs.declared.event.GatewayEvent.TheVariants.{Nonce as NonceEvent};
ghost use Rattle.amt_ports.specs.Devices.{link_at, out_at, words_at};
ghost use Rattle.gateway_serving.specs.{Answering.{waiting_in}, Events.{nonce_of}, Servers.{tally_in}, Settings.{AreTurns}, Stages.{BeginsBy, PassesMoment, RunsSo, TurnsSo}, Traces.{WorkDoes, at_work, taking, world}};

use super::Server;
use crate::askers::Askers;
use amt_ports::{Clock, End, Link, OutLink, Words};
use gateway_machine::GatewayEvent;
use std::alloc::Global;

// The nonce of a word: its low 32 bits.
fn nonce_of(word: u64) -> u32
    ensures { result ≡ nonce_of word }
{
    (word & 0xffff_ffff) as u32
}

impl Server {
    // The next nonce is that of this word. It takes no memory.
    fn draw<L: Link, O: OutLink>(&mut self, alloc: Global, word: u64, link: &mut L, out: &mut O)
        requires few { tally_in self.old < 2 ^ 61 }
        ensures takes { WorkDoes (taking (NonceEvent (nonce_of word) ∷ []))
            (at_work self.old (link_at L.Link link.old) (L.longest_wait link.old) (out_at O.OutLink out.old))
            (at_work self.new (link_at L.Link link.new) (L.longest_wait link.new) (out_at O.OutLink out.new)) }
    {
        let event = GatewayEvent::Nonce(nonce_of(word));
        match self.take(alloc, &event, link, out) {
            Ok(()) => {}
            // A nonce takes no memory.
            Err(_) => unreachable!(),
        }
    }

    // It has become as late as the clock says; memory may refuse that where the machine sends something then.
    fn pass_moment<C: Clock, L: Link, O: OutLink>(
        &mut self,
        alloc: Global,
        clock: &mut C,
        link: &mut L,
        out: &mut O,
    )
        requires few { tally_in self.old < 2 ^ 61 }
        ensures passes { PassesMoment
            (at_work self.old (link_at L.Link link.old) (L.longest_wait link.old) (out_at O.OutLink out.old))
            (at_work self.new (link_at L.Link link.new) (L.longest_wait link.new) (out_at O.OutLink out.new))
            (C.given clock.old) (C.given clock.new) }
    {
        self.latest = self.latest.later(&clock.now());
        let event = GatewayEvent::Moment(self.latest);
        self.offer(alloc, &event, link, out);
    }

    // The first stage of a turn: a nonce, and its moment.
    fn begin_turn<C: Clock, W: Words, L: Link, O: OutLink>(
        &mut self,
        alloc: Global,
        clock: &mut C,
        words: &mut W,
        link: &mut L,
        out: &mut O,
    ) -> Result<(), End>
        requires few { tally_in self.old + 2 < 2 ^ 61 }
        ensures begins { BeginsBy
            (at_work self.old (link_at L.Link link.old) (L.longest_wait link.old) (out_at O.OutLink out.old))
            (at_work self.new (link_at L.Link link.new) (L.longest_wait link.new) (out_at O.OutLink out.new))
            (C.given clock.old) (C.given clock.new) (words_at W.Words words.old) (words_at W.Words words.new) result }
    {
        let Ok(word) = words.word() else {
            return Err(End::WordsFault);
        };
        self.draw(alloc, word, link, out);
        self.pass_moment(alloc, clock, link, out);
        Ok(())
    }

    // One turn: a nonce, its moment, what the link has, and what the control has.
    fn turn<C: Clock, W: Words, L: Link, K: Link, O: OutLink>(
        &mut self,
        alloc: Global,
        clock: &mut C,
        words: &mut W,
        link: &mut L,
        control: &mut K,
        out: &mut O,
        buf: &mut [u8],
        askers: &mut Askers,
    ) -> Result<(), End>
        requires room { 65536 ≤ length buf.old }
        requires few { tally_in self.old + 258 < 2 ^ 61 }
        requires no_askers { waiting_in askers.old ≡ [] }
        ensures turns { TurnsSo
            (world (at_work self.old (link_at L.Link link.old) (L.longest_wait link.old) (out_at O.OutLink out.old))
            (C.given clock.old) (words_at W.Words words.old) (link_at K.Link control.old) (K.longest_wait control.old) (length buf.old) (waiting_in askers.old))
            (world (at_work self.new (link_at L.Link link.new) (L.longest_wait link.new) (out_at O.OutLink out.new))
            (C.given clock.new) (words_at W.Words words.new) (link_at K.Link control.new) (K.longest_wait control.new) (length buf.new) (waiting_in askers.new)) result }
    {
        self.begin_turn(alloc, clock, words, link, out)?;
        self.hear(alloc, link, out, buf)?;
        self.hear_control(alloc, link, control, out, buf, askers)
    }

    /// So many turns, or those up to the one in which the run ended, or after which somebody asked that it ends: why it
    /// ended, and how many turns were whole.
    pub(crate) fn run<C: Clock, W: Words, L: Link, K: Link, O: OutLink>(
        &mut self,
        alloc: Global,
        turns: u64,
        clock: &mut C,
        words: &mut W,
        link: &mut L,
        control: &mut K,
        out: &mut O,
        buf: &mut [u8],
        askers: &mut Askers,
    ) -> (End, u64)
        requires turns { AreTurns turns }
        requires room { 65536 ≤ length buf.old }
        requires few { tally_in self.old ≤ 2 ^ 60 }
        requires no_askers { waiting_in askers.old ≡ [] }
        ensures runs { RunsSo turns
            (world (at_work self.old (link_at L.Link link.old) (L.longest_wait link.old) (out_at O.OutLink out.old))
            (C.given clock.old) (words_at W.Words words.old) (link_at K.Link control.old) (K.longest_wait control.old) (length buf.old) (waiting_in askers.old))
            (world (at_work self.new (link_at L.Link link.new) (L.longest_wait link.new) (out_at O.OutLink out.new))
            (C.given clock.new) (words_at W.Words words.new) (link_at K.Link control.new) (K.longest_wait control.new) (length buf.new) (waiting_in askers.new)) result.0 result.1 }
    {
        for done in 0..turns {
            match self.turn(alloc, clock, words, link, control, out, buf, askers) {
                Ok(()) => {}
                Err(end) => return (end, done),
            }
            if self.end_turn(alloc, done + 1, link, control, out, askers) {
                return (End::Turns, done + 1);
            }
        }
        (End::Turns, turns)
    }
}
