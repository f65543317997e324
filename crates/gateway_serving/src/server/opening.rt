//! How a running gateway begins: its machine, its first moment, and the joins of its settings.
ghost use Rattle.std.specs.Prelude.{◌≡◌, ◌≤◌, ◌<◌, ◌+◌, ◌^◌, [], ◌∷◌, All, IfOk, OnErr, OnOk, length, map};
ghost use Rattle.gateway_machine.specs.Events.{IsEventOf};
ghost use Rattle.amt_ports.specs.Devices.{link_at, out_at};
ghost use Rattle.gateway_serving.specs.{Counting.{no_counts}, Servers.{IsFresh, counts_in, events_in, latest_in, settings_in, tally_in}, Settings.{IsLawfulConfig, opening_of}, Stages.{BeginsWith, OpensSo}, Traces.{WorkDoes, at_work, nothing, taking}};

use super::Server;
use crate::counts::Counts;
use crate::course::Course;
use crate::outcomes::Outcomes;
use crate::settings::settings_of;
use amt_config::{GatewayConfig, Join};
use amt_ports::{Clock, Link, OutLink};
use amt_values::{Bytes, Moment};
use gateway_machine::{Gateway, GatewayEvent};
use source_filter::copy_filter;
use std::alloc::{AllocError, Global};

// The socket call of a join.
fn opening(alloc: Global, join: &Join) -> Result<GatewayEvent, AllocError>
    ensures { IfOk result (λ event. event ≡ opening_of join.now) }
{
    Ok(GatewayEvent::Open {
        name: Bytes::copied(alloc, join.name.as_slice())?,
        group: join.group,
        filter: copy_filter(alloc, &join.filter)?,
    })
}

impl Server {
    /// A gateway to which nothing has happened, with the first nonce of this word.
    pub(crate) fn start(
        alloc: Global,
        config: &GatewayConfig,
        word: u64,
    ) -> Result<Server, AllocError>
        requires config { IsLawfulConfig config.now }
        ensures fresh { IfOk result (IsFresh config.now word) }
    {
        let first = (word & 0xffff_ffff) as u32;
        let gateway = Gateway::new(alloc, settings_of(config), first)?;
        let outcomes = Outcomes::new(alloc)?;
        Ok(Server {
            gateway,
            v6: config.v6,
            deliver: config.deliver,
            latest: Moment::new(0).unwrap(),
            counts: Counts::new(),
            outcomes,
            first,
            course: Course::new(),
        })
    }

    // Opens a join. Where memory ran out nothing happened.
    fn open_join<L: Link, O: OutLink>(
        &mut self,
        alloc: Global,
        join: &Join,
        link: &mut L,
        out: &mut O,
    ) -> Result<(), AllocError>
        requires few { tally_in self.old < 2 ^ 61 }
        requires join { IsEventOf (settings_in self.old) (opening_of join.now) }
        ensures takes { OnOk result (WorkDoes (taking (opening_of join.now ∷ []))
            (at_work self.old (link_at L.Link link.old) (L.longest_wait link.old) (out_at O.OutLink out.old))
            (at_work self.new (link_at L.Link link.new) (L.longest_wait link.new) (out_at O.OutLink out.new))) }
        ensures none { OnErr result (WorkDoes nothing
            (at_work self.old (link_at L.Link link.old) (L.longest_wait link.old) (out_at O.OutLink out.old))
            (at_work self.new (link_at L.Link link.new) (L.longest_wait link.new) (out_at O.OutLink out.new))) }
    {
        let event = opening(alloc, join)?;
        self.take(alloc, &event, link, out)
    }

    // Opens the joins, in order, up to the one that memory refused.
    fn open_joins<L: Link, O: OutLink>(
        &mut self,
        alloc: Global,
        joins: &[Join],
        link: &mut L,
        out: &mut O,
    ) -> Result<(), AllocError>
        requires joins { All (λ join. IsEventOf (settings_in self.old) (opening_of join)) joins.now }
        requires few { tally_in self.old + length joins.now < 2 ^ 61 }
        ensures begins { BeginsWith (map opening_of joins.now)
            (at_work self.old (link_at L.Link link.old) (L.longest_wait link.old) (out_at O.OutLink out.old))
            (at_work self.new (link_at L.Link link.new) (L.longest_wait link.new) (out_at O.OutLink out.new)) result }
    {
        for join in joins {
            self.open_join(alloc, join, link, out)?;
        }
        Ok(())
    }

    /// The first moment of the run, and then the joins. Nothing is due before the first join, so memory refuses no
    /// moment here.
    pub(crate) fn open<C: Clock, L: Link, O: OutLink>(
        &mut self,
        alloc: Global,
        joins: &[Join],
        clock: &mut C,
        link: &mut L,
        out: &mut O,
    ) -> Result<(), AllocError>
        requires joins { All (λ join. IsEventOf (settings_in self.old) (opening_of join)) joins.now }
        requires none { events_in self.old ≡ [] }
        requires uncounted { counts_in self.old ≡ no_counts }
        requires early { latest_in self.old ≡ 0 }
        ensures opens { OpensSo joins.now
            (at_work self.old (link_at L.Link link.old) (L.longest_wait link.old) (out_at O.OutLink out.old))
            (at_work self.new (link_at L.Link link.new) (L.longest_wait link.new) (out_at O.OutLink out.new))
            (C.given clock.old) (C.given clock.new) result }
        ensures few { tally_in self.new ≤ 2 ^ 60 }
    {
        self.latest = clock.now();
        self.take(alloc, &GatewayEvent::Moment(self.latest), link, out)?;
        self.open_joins(alloc, joins, link, out)
    }
}
