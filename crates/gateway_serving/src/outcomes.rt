//! The words by which a running gateway counts what its events came to.
ghost use Rattle.std.specs.{Prelude.{◌≡◌, ◌<◌, ◌++◌, ℕ, List, [], Some, IfOk, OnOk, length}, List.{slice_get}};
ghost use Rattle.control_lines.specs.Tally.{BeginsWithWord, HasCounted, IsTallyOfFew, numbers_of, tally_text};
ghost use Rattle.gateway_machine.specs.declared.outcome.GatewayOutcome.{GatewayOutcome as OutcomeValue};
ghost use Rattle.gateway_script.specs.Texts.{outcome_text};
ghost use Rattle.gateway_serving.specs.OutcomeWords.{cause_word, outcome_words, refusal_word, word_of};

use amt_values::Bytes;
use control_lines::{Tally, append_tally};
use gateway_machine::{GatewayOutcome, Ignored, SocketRefusal};
use std::alloc::{AllocError, Global};

/// The first word that a replay prints of each outcome, and of a cause the first word of that.
const OUTCOME_WORDS: [&str; 25] = [
    "quiet",
    "drawn",
    "discovering",
    "requesting",
    "active",
    "idle",
    "changed",
    "kept",
    "delivered",
    "refused taken",
    "refused nosocket",
    "refused sources",
    "refused report",
    "ignored refused",
    "ignored kind",
    "ignored state",
    "ignored sender",
    "ignored nonce",
    "ignored inner",
    "ignored family",
    "ignored body",
    "ignored notgeneral",
    "ignored head",
    "ignored scope",
    "ignored notwanted",
];

// The place of the word of a refused call among all of them.
fn place_of_refusal(refusal: &SocketRefusal) -> usize
    ensures { slice_get outcome_words result ≡ Some (refusal_word refusal.now) }
{
    match refusal {
        SocketRefusal::Taken => 9,
        SocketRefusal::NoSocket => 10,
        SocketRefusal::SourcesFull(_) => 11,
        SocketRefusal::ReportFull(_) => 12,
    }
}

// The same of an ignored datagram.
fn place_of_cause(cause: &Ignored) -> usize
    ensures { slice_get outcome_words result ≡ Some (cause_word cause.now) }
{
    match cause {
        Ignored::Undecoded(_) => 13,
        Ignored::Kind(_) => 14,
        Ignored::State(_) => 15,
        Ignored::Sender(..) => 16,
        Ignored::Nonce(..) => 17,
        Ignored::Inner(_) => 18,
        Ignored::Family => 19,
        Ignored::Body(_) => 20,
        Ignored::NotGeneral(_) => 21,
        Ignored::Head(_) => 22,
        Ignored::Scope(_) => 23,
        Ignored::NotWanted(..) => 24,
    }
}

fn place_of(outcome: &GatewayOutcome) -> usize
    ensures { slice_get outcome_words result ≡ Some (word_of outcome.now) }
{
    match outcome {
        GatewayOutcome::Quiet => 0,
        GatewayOutcome::Drawn => 1,
        GatewayOutcome::Discovering(_) => 2,
        GatewayOutcome::Requesting(_) => 3,
        GatewayOutcome::Active => 4,
        GatewayOutcome::Idle => 5,
        GatewayOutcome::Changed => 6,
        GatewayOutcome::Kept => 7,
        GatewayOutcome::Delivered => 8,
        GatewayOutcome::SocketRefused(refusal) => place_of_refusal(refusal),
        GatewayOutcome::Ignored(cause) => place_of_cause(cause),
    }
}

/// How often each word was that of an outcome.
#[derive(Drop)]
pub(crate) struct Outcomes {
    tally: Tally,
}

impl Outcomes {
    /// None came yet.
    pub(crate) fn new(alloc: Global) -> Result<Outcomes, AllocError>
        ensures { IfOk result (λ outcomes. outcomes.tally ≡ numbers_of outcome_words []) }
    {
        let tally = Tally::new(alloc, OUTCOME_WORDS.len())?;
        Ok(Outcomes { tally })
    }

    // Counts the word at this place.
    fn count_at(&mut self, place: usize)
        requires within { place < length outcome_words }
        requires few { IsTallyOfFew outcome_words self.old.tally }
        ensures { (word : List ℕ) → slice_get outcome_words place ≡ Some word → HasCounted outcome_words word self.old.tally self.new.tally }
    {
        self.tally.count(place);
    }

    /// Counts an outcome.
    pub(crate) fn count(&mut self, outcome: &GatewayOutcome)
        requires few { IsTallyOfFew outcome_words self.old.tally }
        ensures { HasCounted outcome_words (word_of outcome.now) self.old.tally self.new.tally }
    {
        self.count_at(place_of(outcome));
    }

    /// Puts a line for each word that came at the end.
    pub(crate) fn append(&self, text: &mut Bytes) -> Result<(), AllocError>
        ensures { OnOk result (text.new ≡ text.old ++ tally_text outcome_words self.now.tally) }
    {
        append_tally(text, &OUTCOME_WORDS, &self.tally)
    }
}

/// What a replay prints of an outcome is the word by which it is counted, or goes on after it. It does nothing when
/// it runs.
pub fn outcome_words_are_those_of_replays()
    ensures { (outcome : OutcomeValue) → BeginsWithWord (outcome_text outcome) (word_of outcome) }
{}
