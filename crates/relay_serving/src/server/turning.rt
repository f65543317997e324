//! One turn of a running relay, and all of a run.
ghost use Rattle.std.specs.Prelude.{◌≡◌, ◌≤◌, ◌<◌, ◌+◌, ◌^◌, [], length, None};
ghost use Rattle.amt_ports.specs.Devices.{feed_at, link_at, words_at};
ghost use Rattle.relay_serving.specs.{Controls.{controls_at}, Counting.{no_counts}, Devices.{devices_seen}, Plans.{IsLawfulPlan}, Servers.{counts_in, happenings_in, tally_in}, Stages.{BeginsBy, progress_in}, Traces.{world}, Turning.{RunsSo, TurnsSo}};

use super::Server;
use crate::control::{Control, Copies};
use crate::plan::ServePlan;
use crate::renewal::Renewal;
use crate::secret::draw_secret;
use amt_ports::{Clock, End, Feed, Link, OutLink, Words};
use std::alloc::Global;
use std::sync::Wait;

impl<O: OutLink + Drop, T> Server<O, T> {
    // The first stage of a turn: its moment, and a new secret where one is due.
    fn begin_turn<C: Clock, W: Words>(
        &mut self,
        alloc: Global,
        rotate_ms: u64,
        renewal: &mut Renewal,
        clock: &mut C,
        words: &mut W,
    ) -> Result<(), End>
        requires few { tally_in self.old + 2 < 2 ^ 50 }
        ensures begins { BeginsBy rotate_ms (progress_in renewal.old) (progress_in renewal.new) self.old self.new
            (C.given clock.old) (C.given clock.new) (words_at W.Words words.old) (words_at W.Words words.new) result }
    {
        renewal.reach(clock.now());
        self.pass_moment(alloc, renewal.latest);
        if renewal.pass(rotate_ms) {
            match draw_secret(words) {
                Ok(secret) => self.rotate(alloc, secret),
                Err(_) => return Err(End::WordsFault),
            }
        }
        Ok(())
    }

    // One turn: its moment, a new secret where one is due, what the link has, the publishing, and what the
    // feed has.
    fn turn<C: Clock, W: Words, L: Link, F: Feed, R: Wait>(
        &mut self,
        rt: &R,
        alloc: Global,
        rotate_ms: u64,
        renewal: &mut Renewal,
        clock: &mut C,
        words: &mut W,
        link: &mut L,
        feed: &mut F,
        buf: &mut [u8],
    ) -> Result<(), End>
        requires room { 65536 ≤ length buf.old }
        requires few { tally_in self.old + 131 < 2 ^ 50 }
        requires few_packets { (counts_in self.old).packets + 64 ≤ 2 ^ 46 }
        ensures turns { TurnsSo rotate_ms (progress_in renewal.old) (progress_in renewal.new)
            (world self.old (devices_seen (C.given clock.old) (words_at W.Words words.old) (link_at L.Link link.old) (feed_at F.Feed feed.old) None 0)
            (L.longest_wait link.old) (F.longest_wait feed.old) (length buf.old))
            (world self.new (devices_seen (C.given clock.new) (words_at W.Words words.new) (link_at L.Link link.new) (feed_at F.Feed feed.new) None 0)
            (L.longest_wait link.new) (F.longest_wait feed.new) (length buf.new)) result }
    {
        self.begin_turn(alloc, rotate_ms, renewal, clock, words)?;
        self.hear(alloc, link, buf)?;
        self.publish(rt);
        self.feed(rt, alloc, feed, buf)
    }

    /// All turns of the plan, or those up to the one in which the run ended, or after which somebody asked that it
    /// ends: why it ended, and how many turns were whole.
    pub(crate) fn run<C: Clock, W: Words, L: Link, F: Feed, K: Link, N: Copies, R: Wait>(
        &mut self,
        rt: &R,
        alloc: Global,
        plan: &ServePlan,
        clock: &mut C,
        words: &mut W,
        link: &mut L,
        feed: &mut F,
        control: &mut Option<Control<K, N>>,
        buf: &mut [u8],
    ) -> (End, u64)
        requires plan { IsLawfulPlan plan.now }
        requires room { 65536 ≤ length buf.old }
        requires fresh { happenings_in self.old ≡ [] }
        requires uncounted { counts_in self.old ≡ no_counts }
        ensures few { tally_in self.new < 2 ^ 50 }
        ensures runs { RunsSo plan.now
            (world self.old (devices_seen (C.given clock.old) (words_at W.Words words.old) (link_at L.Link link.old) (feed_at F.Feed feed.old) None 0)
            (L.longest_wait link.old) (F.longest_wait feed.old) (length buf.old))
            (world self.new (devices_seen (C.given clock.new) (words_at W.Words words.new) (link_at L.Link link.new) (feed_at F.Feed feed.new) None 0)
            (L.longest_wait link.new) (F.longest_wait feed.new) (length buf.new))
            (controls_at K.Link N.Copies control.old) (controls_at K.Link N.Copies control.new) result.0 result.1 }
    {
        let mut renewal = Renewal::new();
        for done in 0..plan.turns {
            match self.turn(
                rt,
                alloc,
                plan.rotate_ms,
                &mut renewal,
                clock,
                words,
                link,
                feed,
                buf,
            ) {
                Ok(()) => {}
                Err(end) => return (end, done),
            }
            if self.answer(alloc, plan.workers, done + 1, control, buf) {
                return (End::Turns, done + 1);
            }
        }
        (End::Turns, plan.turns)
    }
}
