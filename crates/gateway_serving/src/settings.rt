//! What a gateway is set up with, by its settings. It knows no file.
ghost use Rattle.std.specs.Prelude.{◌≡◌};
ghost use Rattle.gateway_serving.specs.Settings.{settings_of};

use amt_config::GatewayConfig;
use gateway_machine::GatewaySettings;

/// What a gateway of this configuration is set up with.
pub fn settings_of(config: &GatewayConfig) -> GatewaySettings
    ensures { result ≡ settings_of config.now }
{
    GatewaySettings {
        v6: config.v6,
        discovery: config.discovery,
        relay: config.relay,
        port: config.port,
        source: config.source,
        linux_relay: config.linux_relay,
    }
}
