//! The kinds of settings files, to what reads one. It knows no file.
ghost use Rattle.std.specs.Prelude.{◌≡◌, ◌⊎◌, Err, IfErr, IfOk, Ok};
ghost use Rattle.amt_config.specs.declared.fault.ConfigFault.{ConfigFault as Fault};
ghost use Rattle.serving_commands.specs.Kinds.{SettingsKind, gateway_file, relay_file};

use amt_config::{ConfigFault, GatewayConfig, RelayConfig, gateway_settings, relay_settings};
use std::alloc::Global;

/// What the settings file of a run says.
pub trait FromSettings: Drop {
    ghost kind: { SettingsKind Self };

    /// What the octets say, or their first fault.
    fn from_settings(alloc: Global, octets: &[u8]) -> Result<Self, ConfigFault>
        ensures found { IfOk result (λ config. kind.IsFile config octets.now) }
        ensures only { (config : Self) → kind.IsFile config octets.now
            → (result ≡ Ok config) ⊎ (result ≡ Err ConfigFault.Memory) }

        ensures fault { IfErr result (λ fault. kind.IsFault fault octets.now ⊎ (fault ≡ ConfigFault.Memory)) }
        ensures first { (fault : Fault) → kind.IsFault fault octets.now
            → (result ≡ Err fault) ⊎ (result ≡ Err ConfigFault.Memory) };
}

impl FromSettings for RelayConfig {
    ghost kind = { relay_file };

    fn from_settings(alloc: Global, octets: &[u8]) -> Result<RelayConfig, ConfigFault> {
        relay_settings(alloc, octets)
    }
}

impl FromSettings for GatewayConfig {
    ghost kind = { gateway_file };

    fn from_settings(alloc: Global, octets: &[u8]) -> Result<GatewayConfig, ConfigFault> {
        gateway_settings(alloc, octets)
    }
}
