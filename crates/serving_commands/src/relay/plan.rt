//! How a relay is to be run. It knows no file.
ghost use Rattle.std.specs.Prelude.{◌≡◌};
ghost use Rattle.serving_commands.specs.RelayPlans.{plan_by};

use amt_config::RelayConfig;
use relay_serving::ServePlan;

/// The plan of the file's settings, and of the turns and the workers that the command gives.
pub fn plan_by(config: &RelayConfig, turns: u64, workers: Option<u32>) -> ServePlan
    ensures { result ≡ plan_by config.now turns workers }
{
    ServePlan {
        turns,
        workers: workers.unwrap_or(config.workers),
        rotate_ms: u64::from(config.rotate_seconds) * 1000,
    }
}
