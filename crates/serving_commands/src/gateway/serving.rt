//! A gateway goes on devices that are lent to it.
ghost use Rattle.std.specs.Prelude.{◌≡◌};
ghost use Rattle.gateway_serving.specs.{Serving.{Serves}, Settings.{AreTurns, IsLawfulConfig}};

use crate::opening::{GatewayDevices, GatewaySet, OnGateway, Used};
use amt_config::GatewayConfig;
use amt_ports::{Clock, Link, OutLink, Words};
use gateway_serving::{GatewayServed, serve_gateway};
use std::alloc::Global;

// A run to come, of so many turns at most.
#[derive(Drop)]
struct GatewayRun<'a> {
    alloc: Global,
    config: &'a GatewayConfig,
    turns: u64,
}

impl<'a> OnGateway for GatewayRun<'a> {
    type Given = GatewayServed;

    ghost may = { λ run seen. IsLawfulConfig run.config.now × AreTurns run.turns };

    ghost comes = { λ run before after report. ∥ Serves run.config.now run.turns before after report ∥₁ };

    fn go_on<L: Link, K: Link, O: OutLink, C: Clock, W: Words>(
        self,
        devices: GatewayDevices<L, K, O, C, W>,
    ) -> Used<GatewayDevices<L, K, O, C, W>, GatewayServed> {
        let GatewayRun {
            alloc,
            config,
            turns,
        } = self;
        let GatewayDevices {
            mut link,
            mut control,
            mut out,
            mut clock,
            mut words,
        } = devices;
        let report = serve_gateway(
            alloc,
            config,
            turns,
            &mut link,
            &mut control,
            &mut out,
            &mut clock,
            &mut words,
        );
        Used {
            devices: GatewayDevices {
                link,
                control,
                out,
                clock,
                words,
            },
            given: report,
        }
    }
}

/// Runs a gateway on the devices of a set, for so many turns at most.
pub(super) fn serve_on<S: GatewaySet>(
    alloc: Global,
    config: &GatewayConfig,
    turns: u64,
    set: S,
) -> Used<S, GatewayServed>
    requires config { IsLawfulConfig config.now }
    requires turns { AreTurns turns }
    ensures { ∥ Serves config.now turns (S.seen set) (S.seen result.devices) result.given ∥₁ }
{
    let run = GatewayRun {
        alloc,
        config,
        turns,
    };
    set.lend(run)
}
