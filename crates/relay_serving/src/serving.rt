//! A whole run of a relay.

ghost use Rattle.std.specs.Prelude.{◌≡◌, ◌≤◌, ◌<◌, ◌+◌, ◌^◌, [], IfOk, length, max};
ghost use Rattle.published_table.specs.Views.{room_of, views_of};
ghost use Rattle.relay_machine.specs.Settings.{AreLawfulSettings};
ghost use Rattle.amt_ports.specs.Devices.{WaitsBriefly, feed_at, link_at, words_at};
ghost use Rattle.relay_serving.specs.{Controls.{controls_at}, Devices.{devices_seen, outs_seen}, Plans.{IsLawfulPlan}, Reports.{report_of, unused_report}, Serving.{Serves}};

use crate::control::{Control, Copies};
use crate::plan::{ServePlan, ServeReport, Served};
use crate::secret::draw_secret;
use crate::server::{Ending, NotStarted, Server};
use amt_ports::{BUFFER, Clock, End, Feed, Link, OutLink, Spawner, Words};
use published_table::Views;
use relay_machine::Settings;
use replication_workers::{Outs, Worker};
use std::alloc::{AllocError, Global};
use std::sync::Wait;

// The room that a run takes before its first turn, besides that of its relay.
#[derive(Drop)]
struct Room {
    buf: Vec<u8>,
    turned: Views,
    asked: Views,
}

impl Room {
    // For so many views.
    fn new(alloc: Global, views: u32) -> Result<Room, AllocError>
        ensures buffer { IfOk result (λ room. length room.buf.items ≡ 65536) }
        ensures turned { IfOk result (λ room. (views_of room.turned ≡ []) × (views ≤ room_of room.turned)) }
        ensures asked { IfOk result (λ room. (views_of room.asked ≡ []) × (views ≤ room_of room.asked)) }
    {
        Ok(Room {
            buf: Vec::from_elem(alloc, 0, BUFFER)?,
            turned: Views::with_room(alloc, views)?,
            asked: Views::with_room(alloc, views)?,
        })
    }
}

impl<O> Served<O> {
    // A run that had no turn, and used no out.
    fn unused(alloc: Global, end: End, outs: Outs<O>) -> Served<O>
        ensures report { result.report ≡ unused_report end }
        ensures outs { result.outs ≡ outs }
        ensures views { views_of result.views ≡ [] }
    {
        let report = ServeReport {
            end,
            turns: 0,
            datagrams: 0,
            packets: 0,
            updated: 0,
            torn: 0,
            sent: 0,
            unsent: 0,
            inline: 0,
            starved: 0,
            late: 0,
            owed: 0,
            published: 0,
            apart: 0,
        };
        Served {
            report,
            outs,
            views: Views::new(alloc),
        }
    }

    // A run of so many whole turns, after which its relay left this.
    fn of(end: End, turns: u64, ending: Ending<O>) -> Served<O>
        requires few { (ending.counts.sent + ending.outs_sent < 2 ^ 64) × (ending.counts.unsent + ending.outs_unsent < 2 ^ 64) }
        ensures report { result.report ≡ report_of end turns ending }
        ensures outs { result.outs ≡ ending.outs }
        ensures views { views_of result.views ≡ views_of ending.views }
    {
        let counts = ending.counts;
        let report = ServeReport {
            end,
            turns,
            datagrams: counts.datagrams,
            packets: counts.packets,
            updated: counts.updated,
            torn: counts.torn,
            sent: counts.sent + ending.outs_sent,
            unsent: counts.unsent + ending.outs_unsent,
            inline: ending.inline,
            starved: counts.starved,
            late: counts.late,
            owed: ending.owed,
            published: ending.published,
            apart: ending.apart,
        };
        Served {
            report,
            outs: ending.outs,
            views: ending.views,
        }
    }
}

/// Runs a relay over these devices (RFC 7450, section 4.1.3).
///
/// It draws four words as the first secret. Each turn then takes one moment of the clock; a new secret of four
/// words, where `rotate_ms` has passed since the last one; what the link has, until it has nothing and at
/// most 64 times; publishes what is owed; and takes what the feed has in the same way, giving each packet to
/// the slot of its source and group. With no workers in the plan one slot copies in the turns' own thread.
///
/// After each whole turn the lines that came to the control, where there is one, are answered to whoever sent them, at
/// most 64, without a wait; `stop` ends the run then. A control that fails or is closed ends nothing.
///
/// Out of memory the run ends before its first turn alone. In a turn it goes on: what memory refuses is
/// counted and changes nothing, and what a refused publishing leaves owed goes first at the next one. At the
/// end of a run the workers are stopped and waited for, and the outs come back.
pub fn serve_relay<
    L: Link,
    F: Feed,
    C: Clock,
    W: Words,
    O: OutLink + Drop,
    K: Link,
    N: Copies,
    R: Wait,
    P: Spawner<Worker<O>>,
>(
    rt: &R,
    alloc: Global,
    settings: Settings,
    plan: &ServePlan,
    link: &mut L,
    feed: &mut F,
    clock: &mut C,
    words: &mut W,
    outs: Outs<O>,
    spawner: &mut P,
    control: &mut Option<Control<K, N>>,
) -> Served<O>
    requires settings { AreLawfulSettings settings }
    requires plan { IsLawfulPlan plan.now }
    requires outs { length outs ≡ max plan.now.workers 1 }
    ensures serves { ∥ Serves settings plan.now
        (devices_seen (C.given clock.old) (words_at W.Words words.old) (link_at L.Link link.old) (feed_at F.Feed feed.old) (P.starts spawner.old) (P.faults spawner.old))
        (devices_seen (C.given clock.new) (words_at W.Words words.new) (link_at L.Link link.new) (feed_at F.Feed feed.new) (P.starts spawner.new) (P.faults spawner.new))
        (controls_at K.Link N.Copies control.old) (controls_at K.Link N.Copies control.new)
        (outs_seen O.tried O.faults outs) (outs_seen O.tried O.faults result.outs)
        (views_of result.views) result.report ∥₁ }

    // No receiving is asked to wait for longer: a turn isn't held up by a device that has nothing.
    ensures link_waits { WaitsBriefly (L.longest_wait link.old) (L.longest_wait link.new) }
    ensures feed_waits { WaitsBriefly (F.longest_wait feed.old) (F.longest_wait feed.new) }
{
    let Ok(first) = draw_secret(words) else {
        return Served::unused(alloc, End::WordsFault, outs);
    };
    let Ok(mut room) = Room::new(alloc, outs.len() as u32) else {
        return Served::unused(alloc, End::Memory, outs);
    };
    let threads = plan.workers != 0;
    let mut server = match Server::start(rt, alloc, settings, first, outs, threads, spawner) {
        Ok(server) => server,
        Err(NotStarted { end, outs }) => return Served::unused(alloc, end, outs),
    };
    let (end, turns) = server.run(
        rt,
        alloc,
        plan,
        clock,
        words,
        link,
        feed,
        control,
        room.buf.as_mut_slice(),
    );
    let ending = server.finish(rt, spawner, room.turned, room.asked);
    Served::of(end, turns, ending)
}
