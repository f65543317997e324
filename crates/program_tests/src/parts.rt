//! What no command shows of the parts below the command.

mod devices;
mod loads;
mod macs;
mod records;
mod reports;
mod settings;
