//! A relay that runs by a settings file: what `amt relay` does between its words and its status.
//!
//! Contract: the devices are opened once, as the file and the words say, a relay runs on them, and what it
//! leaves of them is given back whatever the end; a file that isn't read, or has a fault, opens none.
//! It knows no status, and of devices and files no more than their traits.
mod plan;
mod report;
mod running;
mod serving;

pub use report::report_text;
pub use running::run_relay;
