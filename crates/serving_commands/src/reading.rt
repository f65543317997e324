//! The settings of a file. It knows no device but that of files.
ghost use Rattle.std.specs.Prelude.{◌≡◌, ◌⊎◌, ◌≤◌, ℕ, List, Err, IfErr, IfOk, IsErrOf, Ok, Some, length};
ghost use Rattle.amt_config.specs.declared.fault.ConfigFault.{ConfigFault as Fault};
ghost use Rattle.amt_ports.specs.{Causes.{Rose}, Contents.{IsContent}};
ghost use Rattle.amt_values.specs.declared.bytes.TheConstants.{INPUT_LIMIT};
ghost use Rattle.serving_commands.specs.Reading.{Decides, IsConfigured, IsFaultIn, IsFaultOfReading, TellsFault, fault_by};

use crate::fault::ServingFault;
use crate::kinds::FromSettings;
use amt_config::ConfigFault;
use amt_ports::{FileFault, Files};
use amt_values::Bytes;
use std::alloc::Global;

// The octets of the file.
fn read_octets<F: Files>(alloc: Global, file: &str, files: &mut F) -> Result<Bytes, ServingFault>
    ensures whole { IfOk result (IsContent (F.contents files.old file.now)) }
    ensures short { IfOk result (λ octets. length octets ≤ INPUT_LIMIT) }
    ensures fault { IfErr result (IsFaultOfReading (F.contents files.old file.now)) }
    ensures absent { F.lacks files.old file.now → IsErrOf result ServingFault.NotRead }

    ensures same { (other : List ℕ) → F.contents files.new other ≡ F.contents files.old other }
    ensures failed { IsErrOf result ServingFault.NotRead
        → Rose (F.faults files.old) (F.faults files.new) }
    ensures quiet { ¬ IsErrOf result ServingFault.NotRead
        → F.faults files.new ≡ F.faults files.old }
{
    match files.read_file(alloc, file) {
        Ok(octets) => Ok(octets),
        Err(FileFault::Failed) => Err(ServingFault::NotRead),
        Err(FileFault::TooLong(_)) => Err(ServingFault::TooLong),
        Err(FileFault::Memory) => Err(ServingFault::Memory),
    }
}

fn fault_by(fault: ConfigFault) -> ServingFault
    ensures { result ≡ fault_by fault }
{
    match fault {
        ConfigFault::NotToml => ServingFault::Settings(ConfigFault::NotToml),
        ConfigFault::Unknown(key) => ServingFault::Settings(ConfigFault::Unknown(key)),
        ConfigFault::Missing(key) => ServingFault::Settings(ConfigFault::Missing(key)),
        ConfigFault::Kind(key) => ServingFault::Settings(ConfigFault::Kind(key)),
        ConfigFault::Address(key) => ServingFault::Settings(ConfigFault::Address(key)),
        ConfigFault::Range(key) => ServingFault::Settings(ConfigFault::Range(key)),
        ConfigFault::Loopback(key) => ServingFault::Settings(ConfigFault::Loopback(key)),
        ConfigFault::Memory => ServingFault::Memory,
    }
}

// What the octets say.
fn settings_in<C: FromSettings>(alloc: Global, octets: &[u8]) -> Result<C, ServingFault>
    ensures found { IfOk result (λ config. C.kind.IsFile config octets.now) }
    ensures only { (config : C) → C.kind.IsFile config octets.now
        → (result ≡ Ok config) ⊎ (result ≡ Err ServingFault.Memory) }
    ensures fault { IfErr result (IsFaultIn C.kind octets.now) }
    ensures first { (fault : Fault) → C.kind.IsFault fault octets.now
        → (result ≡ Err (ServingFault.Settings fault)) ⊎ (result ≡ Err ServingFault.Memory) }
{
    match C::from_settings(alloc, octets) {
        Ok(config) => Ok(config),
        Err(fault) => Err(fault_by(fault)),
    }
}

/// Reads the settings file of a run.
pub fn read_settings<C: FromSettings, F: Files>(
    alloc: Global,
    file: &str,
    files: &mut F,
) -> Result<C, ServingFault>
    ensures found { IfOk result (IsConfigured C.kind (F.contents files.old file.now)) }
    ensures fault { IfErr result (TellsFault C.kind (F.contents files.old file.now)) }
    ensures decided { (octets : List ℕ) → F.contents files.old file.now ≡ Some octets
        → Decides C.kind octets result }
    ensures absent { F.lacks files.old file.now → IsErrOf result ServingFault.NotRead }
    ensures opens_none { IsErrOf result ServingFault.NotOpened → ⊥ }

    ensures same { (other : List ℕ) → F.contents files.new other ≡ F.contents files.old other }
    ensures failed { IsErrOf result ServingFault.NotRead
        → Rose (F.faults files.old) (F.faults files.new) }
    ensures quiet { ¬ IsErrOf result ServingFault.NotRead
        → F.faults files.new ≡ F.faults files.old }
{
    let octets = match read_octets(alloc, file, files) {
        Ok(octets) => octets,
        Err(fault) => return Err(fault),
    };
    settings_in::<C>(alloc, octets.as_slice())
}
