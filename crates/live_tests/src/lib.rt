//! Tests of the devices: of the machine, over its sockets, files, clock, random words and threads, and in memory; and of
//! opening them and giving them back.
//!
//! Contract: none; it is tests alone, in a crate of their own since some of them open sockets and start threads.
//! It must not know what a device or an opener keeps to itself.
//! No standard.
#![tactic(auto)]

#[cfg(test)]
mod control;
#[cfg(test)]
mod files;
#[cfg(test)]
mod journal;
#[cfg(test)]
mod loopback;
#[cfg(test)]
mod machine;
#[cfg(test)]
mod memory;
#[cfg(test)]
mod openings;
#[cfg(test)]
mod sets;
#[cfg(test)]
mod sockets;
#[cfg(test)]
mod spawners;
