//! A setting, and the one of a key among those given. It knows no text and no default.

ghost use Rattle.std.specs.Prelude.{◌≡◌, ◌↔◌, IsTrue, IsSome};
ghost use Rattle.amt_script.specs.Setting.{key_of, is_same_key, set_at};

use crate::kind::Key;
use amt_values::Ip;
use relay_machine::NumberKey;
use response_mac::Secret;

/// What one `set` line gives.
#[derive(Clone, Copy, Debug)]
pub enum Setting {
    /// The address that Advertisements carry.
    Relay(Ip),
    /// The IPv4 source of General Queries.
    Query4(u32),
    /// The IPv6 source of General Queries.
    Query6(u128),
    /// One of the relay's numbers.
    Number(NumberKey, u32),
    /// The first private secret.
    Secret(Secret),
    /// Whether the relay serves Linux's own gateways too.
    LinuxGateways(bool),
}

fn key_of(setting: &Setting) -> Key
    ensures { result ≡ key_of setting.now }
{
    match setting {
        Setting::Relay(_) => Key::Relay,
        Setting::Query4(_) => Key::Query4,
        Setting::Query6(_) => Key::Query6,
        Setting::Number(key, _) => Key::Number(*key),
        Setting::Secret(_) => Key::Secret,
        Setting::LinuxGateways(_) => Key::LinuxGateways,
    }
}

fn has_key(setting: &Setting, key: Key) -> bool
    ensures { result ≡ is_same_key (key_of setting.now) key }
{
    key_of(setting).word() == key.word()
}

/// The setting of a key among those that were given.
pub fn setting_at(given: &[Setting], key: Key) -> Option<Setting>
    ensures { result ≡ set_at given.now key }
{
    for setting in given {
        if has_key(setting, key) {
            return Some(*setting);
        }
    }
    None
}

pub fn is_given(given: &[Setting], key: Key) -> bool
    ensures { IsTrue result ↔ IsSome (set_at given.now key) }
{
    setting_at(given, key).is_some()
}
