//! Tests of what no run of a command shows, by the public calls of the crates.
//!
//! Contract: none; it is tests alone. They stand in a crate of their own since the tests of a crate prove
//! all its functions once more, which costs the gate as much again.
//! It must not know what any crate keeps to itself.
#![tactic(auto)]

#[cfg(test)]
mod dns;
#[cfg(test)]
mod dual;
#[cfg(test)]
mod embedding;
#[cfg(test)]
mod gateway;
#[cfg(test)]
mod memory;
#[cfg(test)]
mod merging;
#[cfg(test)]
mod pair;
#[cfg(test)]
mod parts;
#[cfg(test)]
mod relay;
#[cfg(test)]
mod scripts;
#[cfg(test)]
mod settings;
#[cfg(test)]
mod socket_lines;
#[cfg(test)]
mod upstream;
