//! Why a settings file isn't read. It knows no key but `join`.

ghost use Rattle.std.specs.Prelude.{◌≡◌, ◌⊎◌};
ghost use Rattle.amt_config.specs.{FileKey.{word_of}, Join.{in_join}, Table.{told}};

use crate::key::FileKey;
use amt_values::Bytes;
use std::alloc::Global;
use thiserror::Error;

/// Why octets are no settings file, with the key that is at fault. Where several hold, the first one is
/// told: `NotToml`; `Unknown`; then the keys in the order of the format, each with the others in this
/// order; and last what is wrong with several values together.
#[derive(Debug, Drop, Error)]
pub enum ConfigFault {
    /// The octets are no text that TOML reads as a table.
    #[error("no TOML")]
    NotToml,
    /// A key that isn't one of the file's; of several, the least one.
    #[error("an unknown key")]
    Unknown(Bytes),
    /// A key that the file must have.
    #[error("a missing key")]
    Missing(Bytes),
    /// A value of another type of TOML.
    #[error("a value of another type")]
    Kind(Bytes),
    /// A text that isn't the address, the peer or the group that the key wants.
    #[error("no such address")]
    Address(Bytes),
    /// A number out of its range, or a word that isn't one of those allowed; or numbers, or a socket, that may not
    /// stand beside the others.
    #[error("a value out of its range")]
    Range(Bytes),
    /// A peer off the loopback, where it must be on it.
    #[error("an address off the loopback")]
    Loopback(Bytes),
    /// Out of memory for the table, the joins or their sockets, or for the key that is at fault.
    #[error("out of memory")]
    Memory,
}

/// Why a key's value isn't taken. The earlier one here is told.
#[derive(Clone, Copy, Debug, PartialEq, Eq)]
pub enum KeyFault {
    /// A file must have the key.
    Missing,
    /// The value is of another type of TOML.
    Kind,
    /// The text isn't the address, the peer or the group that the key wants.
    Address,
    /// The number is out of its range, or the word isn't one of those allowed.
    Range,
    /// The peer is off the loopback, where it must be on it.
    Loopback,
}

/// The fault, with its key.
pub fn told(alloc: Global, key: FileKey, fault: KeyFault) -> ConfigFault
    ensures { (result ≡ told (word_of key) fault) ⊎ (result ≡ ConfigFault.Memory) }
{
    let Ok(key) = Bytes::copied(alloc, key.word().as_bytes()) else {
        return ConfigFault::Memory;
    };
    match fault {
        KeyFault::Missing => ConfigFault::Missing(key),
        KeyFault::Kind => ConfigFault::Kind(key),
        KeyFault::Address => ConfigFault::Address(key),
        KeyFault::Range => ConfigFault::Range(key),
        KeyFault::Loopback => ConfigFault::Loopback(key),
    }
}

/// The fault of a join, with the key under which all joins stand.
pub fn in_join(alloc: Global, fault: ConfigFault) -> ConfigFault
    ensures { (result ≡ in_join fault) ⊎ (result ≡ ConfigFault.Memory) }
{
    let Ok(key) = Bytes::copied(alloc, FileKey::Join.word().as_bytes()) else {
        return ConfigFault::Memory;
    };
    match fault {
        ConfigFault::Unknown(_) => ConfigFault::Unknown(key),
        ConfigFault::Missing(_) => ConfigFault::Missing(key),
        ConfigFault::Kind(_) => ConfigFault::Kind(key),
        ConfigFault::Address(_) => ConfigFault::Address(key),
        ConfigFault::Range(_) => ConfigFault::Range(key),
        ConfigFault::Loopback(_) => ConfigFault::Loopback(key),
        fault => fault,
    }
}
