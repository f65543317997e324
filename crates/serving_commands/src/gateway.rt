//! A gateway that runs by a settings file: what `amt gateway` does between its arguments and its status.
//!
//! Contract: the devices are opened once, as the file says, a gateway runs on them, and they are given back as it
//! leaves them whatever the end; a file that isn't read, or has a fault, opens none.
//! It knows no status, and of devices and files no more than their traits.
mod report;
mod running;
mod serving;

pub use report::report_text;
pub use running::run_gateway;
