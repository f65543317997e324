//! The settings of a relay from those given, with the defaults. It knows no line.

ghost use Rattle.std.specs.{Prelude.{◌≡◌, IfSome, IfNone, None}, List.{AllByRecursion}};
ghost use Rattle.relay_machine.specs.Settings.{default_settings};
ghost use Rattle.amt_script.specs.{Reading.{IsAllowed}, Settling.{Settles, limits_given, relay_in, secret_in, with_setting, with_settings}, Setting.{set_at}};

use crate::kind::Key;
use crate::setting::{Setting, setting_at};
use amt_values::Ip;
use endpoint_membership::Limits;
use relay_machine::Settings;
use response_mac::Secret;

/// What a script sets.
#[derive(Clone, Copy, Debug)]
pub struct Settled {
    pub settings: Settings,
    pub secret: Secret,
}

fn relay_of(given: &[Setting]) -> Option<Ip>
    ensures { result ≡ relay_in (set_at given.now Key.Relay) }
{
    match setting_at(given, Key::Relay) {
        Some(Setting::Relay(relay)) => Some(relay),
        _ => None,
    }
}

fn secret_of(given: &[Setting]) -> Secret
    ensures { result ≡ secret_in (set_at given.now Key.Secret) }
{
    match setting_at(given, Key::Secret) {
        Some(Setting::Secret(secret)) => secret,
        _ => Secret([0; 32]),
    }
}

// A number that a line says is in its range, so the relay takes it.
fn set(settings: &mut Settings, setting: &Setting)
    ensures { IsAllowed setting.now → settings.new ≡ with_setting settings.old setting.now }
{
    match setting {
        Setting::Relay(_) | Setting::Secret(_) => {}
        Setting::Query4(address) => settings.query4 = *address,
        Setting::Query6(address) => settings.query6 = *address,
        Setting::LinuxGateways(flag) => settings.linux_gateways = *flag,
        Setting::Number(key, number) => {
            settings.set_number(*key, *number);
        }
    }
}

// The default settings of a relay with this address, changed by each that was given.
fn settings_of(relay: Ip, given: &[Setting]) -> Settings
    ensures { AllByRecursion IsAllowed given.now → result ≡ with_settings (default_settings relay) given.now }
{
    let mut settings = Settings::of_relay(relay);
    for setting in given {
        set(&mut settings, setting);
    }
    settings
}

/// The limits that these settings allow: those that are given, or the defaults.
pub fn limits_given(given: &[Setting]) -> Limits
    ensures { AllByRecursion IsAllowed given.now → result ≡ limits_given given.now }
{
    settings_of(Ip::V4(0), given).limits
}

/// What these settings set; none where there is no relay's address.
pub fn settle(given: &[Setting]) -> Option<Settled>
    ensures found { AllByRecursion IsAllowed given.now
        → IfSome result (λ settled. Settles given.now settled.settings settled.secret) }
    ensures none { IfNone result (relay_in (set_at given.now Key.Relay) ≡ None) }
{
    match relay_of(given) {
        Some(relay) => Some(Settled {
            settings: settings_of(relay, given),
            secret: secret_of(given),
        }),
        None => None,
    }
}
