//! The words by which a running relay counts what its events came to.
ghost use Rattle.std.specs.{Prelude.{◌≡◌, ◌≤◌, ◌<◌, ◌++◌, ℕ, List, [], Some, IfOk, OnOk, length, nat_lt}, List.{slice_get}};
ghost use Rattle.relay_machine.specs.{Packets.{by_head, head_to_copy}, declared.outcome.Outcome.{Outcome as OutcomeValue}};
ghost use Rattle.inner_datagrams.specs.Head.{head_of};
ghost use Rattle.amt_script.specs.Texts.{outcome_text};
ghost use Rattle.control_lines.specs.Tally.{BeginsWithWord, IsTallyOfFew, numbers_of, tally_text};
ghost use Rattle.relay_serving.specs.OutcomeWords.{CountsWord, outcome_words, packet_word, word_of};

use amt_values::{Bytes, forwardable};
use control_lines::{Tally, append_tally};
use inner_datagrams::packet_head;
use relay_machine::Outcome;
use std::alloc::{AllocError, Global};

/// The first word that a replay prints of each outcome.
pub(crate) const OUTCOME_WORDS: [&str; 17] = [
    "moved",
    "rotated",
    "resized",
    "badsource",
    "refused",
    "wrongkind",
    "advertised",
    "queried",
    "badmac",
    "unlawful",
    "limit",
    "updated",
    "torndown",
    "notunnel",
    "copied",
    "toobig",
    "notforwarded",
];

// The place of the outcome's word among all of them.
fn place_of(outcome: &Outcome) -> usize
    ensures { slice_get outcome_words result ≡ Some (word_of outcome.now) }
{
    match outcome {
        Outcome::Moved(_) => 0,
        Outcome::Rotated => 1,
        Outcome::Resized => 2,
        Outcome::BadSource => 3,
        Outcome::Undecoded(_) => 4,
        Outcome::WrongKind(_) => 5,
        Outcome::Advertised => 6,
        Outcome::Queried { .. } => 7,
        Outcome::BadMac => 8,
        Outcome::Unlawful(_) => 9,
        Outcome::Over(_) => 10,
        Outcome::Updated => 11,
        Outcome::TornDown => 12,
        Outcome::NoTunnel => 13,
        Outcome::Copied(_) => 14,
        Outcome::TooBig(_) => 15,
        Outcome::NotForwarded(_) => 16,
    }
}

fn is_too_big(limit: u32, packet: &[u8]) -> bool
    ensures { result ≡ nat_lt limit (length packet.now) }
{
    packet.len() > limit as usize
}

// The place of the word of a packet that isn't too long.
fn place_by_head(packet: &[u8]) -> usize
    requires { length packet.now ≤ 65535 }
    ensures { slice_get outcome_words result ≡ Some (packet_word (by_head (head_of packet.now))) }
{
    match packet_head(packet) {
        Ok(head) => { if forwardable(&head.group) { 14 } else { 16 } }
        Err(_) => 16,
    }
}

// The place of the word of a packet's outcome, at a relay that copies packets up to this length.
fn packet_place(limit: u32, packet: &[u8]) -> usize
    requires { length packet.now ≤ 65535 }
    ensures { slice_get outcome_words result ≡ Some (packet_word (head_to_copy limit packet.now)) }
{
    if is_too_big(limit, packet) {
        15
    } else {
        place_by_head(packet)
    }
}

/// The word by which an outcome is counted is the first one of what a replay prints of it.
pub fn outcome_words_are_those_of_replays()
    ensures { (outcome : OutcomeValue) → BeginsWithWord (outcome_text outcome) (word_of outcome) }
{}

/// How often each word was that of an outcome, at a relay that copies packets up to this length.
#[derive(Drop)]
pub(crate) struct Outcomes {
    limit: u32,
    tally: Tally,
}

impl Outcomes {
    /// None came yet.
    pub(crate) fn new(alloc: Global, limit: u32) -> Result<Outcomes, AllocError>
        ensures limit { IfOk result (λ outcomes. outcomes.limit ≡ limit) }
        ensures none { IfOk result (λ outcomes. outcomes.tally ≡ numbers_of outcome_words []) }
    {
        let tally = Tally::new(alloc, OUTCOME_WORDS.len())?;
        Ok(Outcomes { limit, tally })
    }

    // Counts the word at this place.
    fn count_at(&mut self, place: usize)
        requires within { place < length outcome_words }
        requires few { IsTallyOfFew outcome_words self.old.tally }
        ensures counts { (word : List ℕ) → slice_get outcome_words place ≡ Some word → CountsWord word self.old self.new }
    {
        self.tally.count(place);
    }

    /// Counts an outcome.
    pub(crate) fn count(&mut self, outcome: &Outcome)
        requires few { IsTallyOfFew outcome_words self.old.tally }
        ensures { CountsWord (word_of outcome.now) self.old self.new }
    {
        self.count_at(place_of(outcome));
    }

    /// Puts a line for each word that came at the end.
    pub(crate) fn append(&self, text: &mut Bytes) -> Result<(), AllocError>
        ensures { OnOk result (text.new ≡ text.old ++ tally_text outcome_words self.now.tally) }
    {
        append_tally(text, &OUTCOME_WORDS, &self.tally)
    }

    /// Counts the outcome of a packet.
    pub(crate) fn count_packet(&mut self, packet: &[u8])
        requires short { length packet.now ≤ 65535 }
        requires few { IsTallyOfFew outcome_words self.old.tally }
        ensures { CountsWord (packet_word (head_to_copy self.old.limit packet.now)) self.old self.new }
    {
        self.count_at(packet_place(self.limit, packet));
    }
}
