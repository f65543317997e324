//! Tests of the published table and of the workers that copy packets by it, by public calls.
//!
//! Contract: none; it is tests alone. They stand in a crate of their own since the tests of a crate prove
//! all its functions once more, and since they start threads.
//! It must not know what a door, a view, a worker or a running relay keeps to itself.
//! No standard.
#![tactic(auto)]

#[cfg(test)]
mod copies;
#[cfg(test)]
mod devices;
#[cfg(test)]
mod doors;
#[cfg(test)]
mod fixtures;
#[cfg(test)]
mod messages;
#[cfg(test)]
mod outs;
#[cfg(test)]
mod packets;
#[cfg(test)]
mod relay;
#[cfg(test)]
mod runs;
#[cfg(test)]
mod views;
