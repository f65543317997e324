//! A gateway is run on devices that are opened for it.
ghost use Rattle.std.specs.Prelude.{◌≡◌, ◌⊎◌, ℕ, List, IfErr, IfOk, IsErrOf, OnErr, Some};
ghost use Rattle.amt_ports.specs.Causes.{Rose};
ghost use Rattle.serving_commands.specs.{GatewayOpenings.{IsRefusedBy, opening_by}, GatewayRunning.{Runs, RunsBy}, Kinds.{gateway_file}, Openings.{ComesFirst, IsRefused}, Reading.{Decides, TellsFault}};
ghost use Rattle.gateway_serving.specs.Settings.{AreTurns, IsLawfulConfig};

use crate::fault::ServingFault;
use crate::gateway::serving::serve_on;
use crate::opening::{Live, OpenFault, Used};
use crate::reading::read_settings;
use amt_config::GatewayConfig;
use amt_ports::Files;
use gateway_serving::GatewayServed;
use std::alloc::Global;

// Opens the devices of the configuration, runs the gateway on them, and gives them back.
fn run_by<V: Live>(
    alloc: Global,
    config: &GatewayConfig,
    turns: u64,
    live: &mut V,
) -> Result<GatewayServed, OpenFault>
    requires config { IsLawfulConfig config.now }
    requires turns { AreTurns turns }
    ensures ran { IfOk result (λ report. ∥ RunsBy
        V.Live V.Gateway.seen config.now turns live.old live.new report ∥₁) }
    ensures refused { OnErr result (IsRefused V.Live (opening_by config.now) live.old live.new) }
    ensures failed { IsErrOf result OpenFault.Failed
        → Rose (V.faults live.old) (V.faults live.new) }
    ensures quiet { ¬ IsErrOf result OpenFault.Failed
        → V.faults live.new ≡ V.faults live.old }
{
    let report_seconds = config.report_seconds;
    let devices = match live.open_gateway(&config.listen, &config.control, report_seconds) {
        Ok(devices) => devices,
        Err(fault) => return Err(fault),
    };
    let Used { devices, given } = serve_on(alloc, config, turns, devices);
    live.return_gateway(devices);
    Ok(given)
}

/// Runs a gateway by the settings file of this name, for so many turns at most.
///
/// It reads the file, opens the devices that the settings want, runs the gateway on them, and gives them back as it
/// leaves them whatever the end: a run that was ended by a device or out of memory has a report too.
pub fn run_gateway<F: Files, V: Live>(
    alloc: Global,
    file: &str,
    turns: u64,
    files: &mut F,
    live: &mut V,
) -> Result<GatewayServed, ServingFault>
    requires turns { AreTurns turns }
    ensures ran { IfOk result (λ report. ∥ Runs
        V.Live V.Gateway.seen (F.contents files.old file.now) turns live.old live.new report ∥₁) }

    ensures unread { IsErrOf result ServingFault.NotRead
        → Rose (F.faults files.old) (F.faults files.new) }
    ensures absent { F.lacks files.old file.now → IsErrOf result ServingFault.NotRead }
    ensures fault { IfErr result (TellsFault gateway_file (F.contents files.old file.now)) }
    ensures decided { (octets : List ℕ) → F.contents files.old file.now ≡ Some octets
        → Decides gateway_file octets result }
    ensures unopened { IsErrOf result ServingFault.NotOpened
        → Rose (V.faults live.old) (V.faults live.new) }
    ensures refused { IsErrOf result ServingFault.NotOpened
        → IsRefusedBy V.Live (F.contents files.old file.now) live.old live.new }
    ensures memory { IsErrOf result ServingFault.Memory → (live.new ≡ live.old)
        ⊎ IsRefusedBy V.Live (F.contents files.old file.now) live.old live.new }

    ensures unasked { IfErr result (λ fault. ComesFirst fault → live.new ≡ live.old) }
    ensures calm_live { ¬ IsErrOf result ServingFault.NotOpened
        → V.faults live.new ≡ V.faults live.old }
    ensures calm_files { ¬ IsErrOf result ServingFault.NotRead
        → F.faults files.new ≡ F.faults files.old }
    ensures same_files { (other : List ℕ)
        → F.contents files.new other ≡ F.contents files.old other }
{
    let config = match read_settings::<GatewayConfig, F>(alloc, file, files) {
        Ok(config) => config,
        Err(fault) => return Err(fault),
    };
    match run_by(alloc, &config, turns, live) {
        Ok(report) => Ok(report),
        Err(OpenFault::Failed) => Err(ServingFault::NotOpened),
        Err(OpenFault::Memory) => Err(ServingFault::Memory),
    }
}
