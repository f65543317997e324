//! Opening the devices of a run, and taking them back.
//!
//! Contract: an opening gives a whole set of devices, or fails where its count of faults rose; where the
//! sets to come, the openings asked and the devices given back are told, each call is told.
//! It knows no message, and of the devices nothing but which of them make up a set.
mod asked;
mod counted;
mod devices;
mod gateway_set;
mod host;
mod host_sets;
mod journal;
mod journaled;
mod live;
mod memory;
mod relay_set;
mod returns;
mod sets;

pub use asked::{AskedBy, Opening};
pub use counted::{CountedOut, SharedCopies};
pub use devices::{DeviceSet, GatewayDevices, RelayDevices};
pub use host::HostLive;
pub use host_sets::{HostControl, HostGateway, HostOut, HostRelay, WorkerThreads};
pub use journaled::JournaledControl;
pub use live::{Live, OpenFault};
pub use memory::MemLive;
pub use sets::{GatewaySet, OnGateway, OnRelay, RelaySet, Used};
