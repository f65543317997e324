//! Why there was no run. It knows no text.

use amt_config::ConfigFault;

/// Why a relay or a gateway didn't run.
#[derive(Debug, Drop)]
pub enum ServingFault {
    /// The settings file can't be read.
    NotRead,
    /// The settings file has more octets than an input may have.
    TooLong,
    /// The first fault of the settings file; never that reading it ran out of memory.
    Settings(ConfigFault),
    /// The devices can't be had.
    NotOpened,
    /// Memory ran out before there was a run.
    Memory,
}
