//! The settings of a gateway from those given, with the defaults. It knows no line.

ghost use Rattle.std.specs.Prelude.{◌≡◌, IfSome, IfNone};
ghost use Rattle.gateway_script.specs.{Fault.{LacksSetting}, Setting.{set_at}, Settling.{Settles, discovery_in, family_given, is_v6, linux_relay_in, nonce_in, port_in, relay_in, source_in}};

use crate::kind::Key;
use crate::setting::{Setting, setting_at};
use amt_values::{AMT_PORT, Ip, Peer};
use gateway_machine::GatewaySettings;
use group_records::Family;

/// What a script sets.
#[derive(Clone, Copy, Debug)]
pub struct Settled {
    pub settings: GatewaySettings,
    pub nonce: u32,
}

/// The family that was given.
pub fn family_of(given: &[Setting]) -> Option<Family>
    ensures { result ≡ family_given given.now }
{
    match setting_at(given, Key::Family) {
        Some(Setting::Family(family)) => Some(family),
        _ => None,
    }
}

fn discovery_of(given: &[Setting]) -> Option<Peer>
    ensures { result ≡ discovery_in (set_at given.now Key.Discovery) }
{
    match setting_at(given, Key::Discovery) {
        Some(Setting::Discovery(peer)) => Some(peer),
        _ => None,
    }
}

fn source_of(given: &[Setting]) -> Option<Ip>
    ensures { result ≡ source_in (set_at given.now Key.Source) }
{
    match setting_at(given, Key::Source) {
        Some(Setting::Source(source)) => Some(source),
        _ => None,
    }
}

fn relay_of(given: &[Setting]) -> Option<Peer>
    ensures { result ≡ relay_in (set_at given.now Key.Relay) }
{
    match setting_at(given, Key::Relay) {
        Some(Setting::Relay(peer)) => Some(peer),
        _ => None,
    }
}

fn port_of(given: &[Setting]) -> u16
    ensures { result ≡ port_in (set_at given.now Key.Port) }
{
    match setting_at(given, Key::Port) {
        Some(Setting::Port(port)) => port,
        _ => AMT_PORT,
    }
}

fn nonce_of(given: &[Setting]) -> u32
    ensures { result ≡ nonce_in (set_at given.now Key.Nonce) }
{
    match setting_at(given, Key::Nonce) {
        Some(Setting::Nonce(nonce)) => nonce,
        _ => 1,
    }
}

fn linux_relay_of(given: &[Setting]) -> bool
    ensures { result ≡ linux_relay_in (set_at given.now Key.LinuxRelay) }
{
    match setting_at(given, Key::LinuxRelay) {
        Some(Setting::LinuxRelay(flag)) => flag,
        _ => false,
    }
}

fn is_v6(family: Family) -> bool
    ensures { result ≡ is_v6 family }
{
    family == Family::V6
}

/// What these settings set; none where one that must be given wasn't.
pub fn settle(given: &[Setting]) -> Option<Settled>
    ensures found { IfSome result (λ settled. Settles given.now settled.settings settled.nonce) }
    ensures none { IfNone result (LacksSetting given.now) }
{
    let family = family_of(given)?;
    let discovery = discovery_of(given)?;
    let source = source_of(given)?;
    Some(Settled {
        settings: GatewaySettings {
            v6: is_v6(family),
            discovery,
            relay: relay_of(given),
            port: port_of(given),
            source,
            linux_relay: linux_relay_of(given),
        },
        nonce: nonce_of(given),
    })
}
