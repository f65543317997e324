//! Control lines: what a running relay or gateway is asked by a line, and the texts that answer it.
//!
//! Contract: a datagram is read as an asking exactly where its one line is one, else as the first reason why it is
//! none. An answer is cut into datagrams in one way, each of at most 1,400 octets, and each is tried once. A tally
//! is how often each word was said.
//! It knows no relay and no gateway, and of devices the trait of links alone.
//! Standard: none of its own; the lines stand in this crate's README.
#![tactic(auto)]

mod answer;
mod asking;
mod asking_gateway;
mod tally;
#[cfg(test)]
mod tests;

pub use answer::{
    answer_line, answers_are_small, answers_are_whole, bad_text, is_answer, short_answers_are_known,
};
pub use asking::{Asking, read_asking};
pub use asking_gateway::{GatewayAsking, begins_asking, read_gateway_asking};
pub use tally::{Tally, append_number, append_tally, numbers_are_few};
