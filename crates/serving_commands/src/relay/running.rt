//! A relay is run on devices that are opened for it.
ghost use Rattle.std.specs.Prelude.{◌≡◌, ◌⊎◌, ℕ, List, IfErr, IfOk, IsErrOf, OnErr, Some};
ghost use Rattle.amt_ports.specs.Causes.{Rose};
ghost use Rattle.serving_commands.specs.{RelayOpenings.{IsRefusedBy, opening_by}, RelayPlans.{AreTurns, AreWorkers}, RelayRunning.{Runs, RunsBy}, Kinds.{relay_file}, Openings.{ComesFirst, IsRefused}, Reading.{Decides, TellsFault}};
ghost use Rattle.relay_machine.specs.Settings.{AreLawfulSettings};
ghost use Rattle.amt_config.specs.Relay.{settings_of};
ghost use Rattle.relay_serving.specs.Plans.{IsLawfulPlan};

use crate::fault::ServingFault;
use crate::opening::{AskedBy, Live, OpenFault, Used};
use crate::reading::read_settings;
use crate::relay::plan::plan_by;
use crate::relay::serving::serve_on;
use amt_config::RelayConfig;
use amt_ports::Files;
use relay_serving::{ServePlan, ServeReport};
use std::alloc::Global;
use std::sync::Wait;

// Opens the devices of the plan, runs the relay on them, and gives back what it leaves.
fn run_by<R: Wait, V: Live>(
    rt: &R,
    alloc: Global,
    config: &RelayConfig,
    plan: &ServePlan,
    live: &mut V,
) -> Result<ServeReport, OpenFault>
    requires settings { AreLawfulSettings (settings_of config.now) }
    requires plan { IsLawfulPlan plan.now }
    ensures ran { IfOk result (λ report. ∥ RunsBy
        V.Live V.Relay.seen config.now plan.now live.old live.new report ∥₁) }
    ensures refused { OnErr result
        (IsRefused V.Live (opening_by config.now plan.now) live.old live.new) }
    ensures failed { IsErrOf result OpenFault.Failed
        → Rose (V.faults live.old) (V.faults live.new) }
    ensures quiet { ¬ IsErrOf result OpenFault.Failed
        → V.faults live.new ≡ V.faults live.old }
{
    let slots = plan.workers.max(1);
    let asking = AskedBy {
        control: config.control,
        report_seconds: config.report_seconds,
    };
    let devices = match live.open_relay(&config.listen, &config.feed, &asking, slots) {
        Ok(devices) => devices,
        Err(fault) => return Err(fault),
    };
    let Used { devices, given } = serve_on(rt, alloc, config.settings(), plan, devices);
    live.return_relay(devices);
    Ok(given.report)
}

/// Runs a relay by the settings file of this name, for so many turns at most; a number of workers that is
/// given wins over the file's.
///
/// It reads the file, opens the devices that the settings want, runs the relay on them, and gives back what it
/// leaves of them whatever the end: a run that was ended by a device or out of memory has a report too.
pub fn run_relay<R: Wait, F: Files, V: Live>(
    rt: &R,
    alloc: Global,
    file: &str,
    turns: u64,
    workers: Option<u32>,
    files: &mut F,
    live: &mut V,
) -> Result<ServeReport, ServingFault>
    requires turns { AreTurns turns }
    requires workers { AreWorkers workers }
    ensures ran { IfOk result (λ report. ∥ Runs
        V.Live V.Relay.seen (F.contents files.old file.now) turns workers live.old live.new report ∥₁) }

    ensures unread { IsErrOf result ServingFault.NotRead
        → Rose (F.faults files.old) (F.faults files.new) }
    ensures absent { F.lacks files.old file.now → IsErrOf result ServingFault.NotRead }
    ensures fault { IfErr result (TellsFault relay_file (F.contents files.old file.now)) }
    ensures decided { (octets : List ℕ) → F.contents files.old file.now ≡ Some octets
        → Decides relay_file octets result }
    ensures unopened { IsErrOf result ServingFault.NotOpened
        → Rose (V.faults live.old) (V.faults live.new) }
    ensures refused { IsErrOf result ServingFault.NotOpened
        → IsRefusedBy V.Live (F.contents files.old file.now) turns workers live.old live.new }
    ensures memory { IsErrOf result ServingFault.Memory → (live.new ≡ live.old)
        ⊎ IsRefusedBy V.Live (F.contents files.old file.now) turns workers live.old live.new }

    ensures unasked { IfErr result (λ fault. ComesFirst fault → live.new ≡ live.old) }
    ensures calm_live { ¬ IsErrOf result ServingFault.NotOpened
        → V.faults live.new ≡ V.faults live.old }
    ensures calm_files { ¬ IsErrOf result ServingFault.NotRead
        → F.faults files.new ≡ F.faults files.old }
    ensures same_files { (other : List ℕ)
        → F.contents files.new other ≡ F.contents files.old other }
{
    let config = match read_settings::<RelayConfig, F>(alloc, file, files) {
        Ok(config) => config,
        Err(fault) => return Err(fault),
    };
    let plan = plan_by(&config, turns, workers);
    match run_by(rt, alloc, &config, &plan, live) {
        Ok(report) => Ok(report),
        Err(OpenFault::Failed) => Err(ServingFault::NotOpened),
        Err(OpenFault::Memory) => Err(ServingFault::Memory),
    }
}
