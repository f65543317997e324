//! The line of a settings file's fault. It knows no file.
ghost use Rattle.std.specs.Prelude.{◌≡◌, ◌≢◌, IfOk};
ghost use Rattle.serving_commands.specs.Texts.{key_line, settings_line};

use amt_config::ConfigFault;
use amt_values::Bytes;
use std::alloc::{AllocError, Global};

fn key_line(alloc: Global, word: &str, key: &Bytes) -> Result<Bytes, AllocError>
    ensures { IfOk result (λ text. text ≡ key_line word.now key.now) }
{
    let mut text = Bytes::copied(alloc, b"amt: settings: ")?;
    text.append(word.as_bytes())?;
    text.append(b" ")?;
    text.append(key.as_slice())?;
    text.append(b"\n")?;
    Ok(text)
}

/// The line that tells the fault: what is wrong, and with which key. The key stands as in the file.
#[tactic(auto, unfolding(crate::specs::Texts::settings_line))]
pub fn settings_line(alloc: Global, fault: &ConfigFault) -> Result<Bytes, AllocError>
    requires fault { fault.now ≢ ConfigFault.Memory }
    ensures { IfOk result (λ text. text ≡ settings_line fault.now) }
{
    match fault {
        ConfigFault::NotToml => Bytes::copied(alloc, b"amt: settings: toml\n"),
        ConfigFault::Unknown(key) => key_line(alloc, "unknown", key),
        ConfigFault::Missing(key) => key_line(alloc, "missing", key),
        ConfigFault::Kind(key) => key_line(alloc, "kind", key),
        ConfigFault::Address(key) => key_line(alloc, "address", key),
        ConfigFault::Range(key) => key_line(alloc, "range", key),
        ConfigFault::Loopback(key) => key_line(alloc, "loopback", key),
        ConfigFault::Memory => Ok(Bytes::new(alloc)),
    }
}
