//! Tests of the running relay and the running gateway that no case can show, by public calls.
//!
//! Contract: none; it is tests alone. They stand in a crate of their own since the tests of a crate prove
//! all its functions once more, and since some of them start threads.
//! It must not know what either loop keeps to itself.
//! No standard.
#![tactic(auto)]

#[cfg(test)]
mod asked;
#[cfg(test)]
mod devices;
#[cfg(test)]
mod gateway;
#[cfg(test)]
mod gateway_ends;
#[cfg(test)]
mod relay;
#[cfg(test)]
mod relay_ends;
#[cfg(test)]
mod starters;
#[cfg(test)]
mod timed;
#[cfg(test)]
mod unasked;
