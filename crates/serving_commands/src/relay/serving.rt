//! A relay goes on devices that are lent to it.
ghost use Rattle.std.specs.Prelude.{◌≡◌, length, max};
ghost use Rattle.published_table.specs.Views.{views_of};
ghost use Rattle.relay_machine.specs.Settings.{AreLawfulSettings};
ghost use Rattle.relay_serving.specs.Plans.{IsLawfulPlan};
ghost use Rattle.serving_commands.specs.SetRuns.{MayServe, ServesOn};

use crate::opening::{OnRelay, RelayDevices, RelaySet, Used};
use amt_ports::{Clock, Feed, Link, OutLink, Spawner, Words};
use published_table::Views;
use relay_machine::Settings;
use relay_serving::{Copies, ServePlan, ServeReport, Served, serve_relay};
use replication_workers::Worker;
use std::alloc::Global;
use std::sync::Wait;

/// What a run of a relay gives.
#[derive(Drop)]
pub(super) struct RelayGiven {
    pub(super) report: ServeReport,
    /// The views of the links out, in order; none where no worker or replicator was made.
    pub(super) views: Views,
}

// A run to come.
#[derive(Drop)]
struct RelayRun<'a> {
    alloc: Global,
    settings: Settings,
    plan: &'a ServePlan,
}

impl<'a> OnRelay for RelayRun<'a> {
    type Given = RelayGiven;

    ghost may = { λ run seen. MayServe run.settings run.plan.now seen };

    ghost comes = { λ run before after given.
        ServesOn run.settings run.plan.now before after (views_of given.views) given.report };

    fn go_on<L, F, C, W, O, P, K, N, R>(
        self,
        rt: &R,
        devices: RelayDevices<L, F, C, W, O, P, K, N>,
    ) -> Used<RelayDevices<L, F, C, W, O, P, K, N>, RelayGiven>
    where
        L: Link,
        F: Feed,
        C: Clock,
        W: Words,
        O: OutLink + Drop,
        P: Spawner<Worker<O>>,
        K: Link,
        N: Copies,
        R: Wait,
    {
        let RelayRun {
            alloc,
            settings,
            plan,
        } = self;
        let RelayDevices {
            mut link,
            mut feed,
            mut clock,
            mut words,
            outs,
            mut spawner,
            mut control,
        } = devices;
        let Served {
            report,
            outs,
            views,
        } = serve_relay(
            rt,
            alloc,
            settings,
            plan,
            &mut link,
            &mut feed,
            &mut clock,
            &mut words,
            outs,
            &mut spawner,
            &mut control,
        );
        Used {
            devices: RelayDevices {
                link,
                feed,
                clock,
                words,
                outs,
                spawner,
                control,
            },
            given: RelayGiven { report, views },
        }
    }
}

/// Runs a relay on the devices of a set.
pub(super) fn serve_on<S: RelaySet, R: Wait>(
    rt: &R,
    alloc: Global,
    settings: Settings,
    plan: &ServePlan,
    set: S,
) -> Used<S, RelayGiven>
    requires settings { AreLawfulSettings settings }
    requires plan { IsLawfulPlan plan.now }
    requires outs { length (S.seen set).outs ≡ max plan.now.workers 1 }
    ensures { ServesOn settings plan.now (S.seen set) (S.seen result.devices)
        (views_of result.given.views) result.given.report }
{
    let run = RelayRun {
        alloc,
        settings,
        plan,
    };
    set.lend(rt, run)
}
