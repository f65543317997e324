//! What runs by a settings file: a relay and a gateway, between the arguments of `amt relay` and `amt gateway` and
//! their statuses, the opening of their devices, and what both runs have in common.
//!
//! Contract: a file is read as the settings that it says, or why not is told; devices are opened once, as the file
//! says, and what a run leaves of them is given back whatever its end.
//! It knows no message and no status; runs know of devices and files no more than their traits.
//! Standard: none of its own; the texts stand in docs/FORMATS.md.
#![tactic(auto)]

mod fault;
pub mod gateway;
mod kinds;
mod opening;
mod reading;
pub mod relay;
mod report;
mod settings;

pub use fault::ServingFault;
pub use kinds::FromSettings;
pub use opening::{
    AskedBy, CountedOut, DeviceSet, GatewayDevices, GatewaySet, HostControl, HostGateway, HostLive,
    HostOut, HostRelay, JournaledControl, Live, MemLive, OnGateway, OnRelay, OpenFault, Opening,
    RelayDevices, RelaySet, SharedCopies, Used, WorkerThreads,
};
pub use reading::read_settings;
pub use report::end_text;
pub use settings::settings_line;
