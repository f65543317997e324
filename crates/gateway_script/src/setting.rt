//! A setting, and the one of a key among those given. It knows no text and no default.

ghost use Rattle.std.specs.Prelude.{◌≡◌, ◌↔◌, IsTrue, IsSome};
ghost use Rattle.gateway_script.specs.Setting.{key_of, is_same_key, set_at};

use crate::kind::Key;
use amt_values::{Ip, Peer};
use group_records::Family;

/// What one `set` line gives.
#[derive(Clone, Copy, Debug)]
pub enum Setting {
    /// The gateway's address family.
    Family(Family),
    /// Where Discoveries go.
    Discovery(Peer),
    /// The source of the datagrams that carry reports.
    Source(Ip),
    /// The relay, without a discovery.
    Relay(Peer),
    /// The port of relays that Advertisements name.
    Port(u16),
    /// The first nonce.
    Nonce(u32),
    /// Whether the relay is Linux's own.
    LinuxRelay(bool),
}

fn key_of(setting: &Setting) -> Key
    ensures { result ≡ key_of setting.now }
{
    match setting {
        Setting::Family(_) => Key::Family,
        Setting::Discovery(_) => Key::Discovery,
        Setting::Source(_) => Key::Source,
        Setting::Relay(_) => Key::Relay,
        Setting::Port(_) => Key::Port,
        Setting::Nonce(_) => Key::Nonce,
        Setting::LinuxRelay(_) => Key::LinuxRelay,
    }
}

fn has_key(setting: &Setting, key: Key) -> bool
    ensures { result ≡ is_same_key (key_of setting.now) key }
{
    key_of(setting).word() == key.word()
}

/// The setting of a key among those that were given.
pub fn setting_at(given: &[Setting], key: Key) -> Option<Setting>
    ensures { result ≡ set_at given.now key }
{
    for setting in given {
        if has_key(setting, key) {
            return Some(*setting);
        }
    }
    None
}

pub fn is_given(given: &[Setting], key: Key) -> bool
    ensures { IsTrue result ↔ IsSome (set_at given.now key) }
{
    setting_at(given, key).is_some()
}
