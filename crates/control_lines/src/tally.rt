//! How often each of some words was said.

ghost use Rattle.std.specs.Prelude.{◌≡◌, ◌≤◌, ◌∷◌, ◌++◌, ℕ, List, All, length, map, OnOk, OnErr};
ghost use Rattle.script_lines.specs.Texts.{BeginsWith};
ghost use Rattle.control_lines.specs.Tally.{number_line, numbers_of, tally_line, tally_text};

use amt_values::{Bytes, append_numeral};
use std::alloc::{AllocError, Global};
use std::marker::Model;

/// How often each of some words was said: a number for each, in the order of the words.
#[derive(Debug, Drop)]
pub struct Tally {
    numbers: Vec<u64>,
}

impl Model for Tally {
    ghost use Rattle.std.specs.Prelude.{ℕ, List};

    ghost Value = { List ℕ };

    ghost view = { λ tally. tally.numbers.items };
}

impl Tally {
    ghost use Rattle.std.specs.Prelude.{◌≡◌, ◌+◌, ◌<◌, ◌^◌, [], ◌∷◌, ◌++◌, ℕ, List, Some, length, replicate, slice_get, slice_index, slice_set, IfOk};
    ghost use Rattle.control_lines.specs.Tally.{AreApart, numbers_of};

    /// Of this number of words, none was said.
    pub fn new(alloc: Global, number: usize) -> Result<Self, AllocError>
        ensures zeros { IfOk result (λ tally. tally ≡ replicate number 0) }
        ensures none { (words : List (List ℕ)) → length words ≡ number
            → IfOk result (λ tally. tally ≡ numbers_of words []) }
    {
        Ok(Tally {
            numbers: vec![in alloc; 0; number]?,
        })
    }

    /// The word at this place is said once more.
    pub fn count(&mut self, place: usize)
        requires within { place < length self.old }
        requires room { slice_index self.old place < 2 ^ 62 }
        ensures one { self.new ≡ slice_set self.old place (slice_index self.old place + 1) }
        ensures said { (words said : List (List ℕ)) (word : List ℕ) → AreApart words
            → slice_get words place ≡ Some word → self.old ≡ numbers_of words said
            → self.new ≡ numbers_of words (said ++ word ∷ []) }
    {
        self.numbers[place] += 1;
    }
}

/// Puts the line `WORD N` at the end.
pub fn append_number(text: &mut Bytes, word: &str, number: u64) -> Result<(), AllocError>
    ensures text { OnOk result (text.new ≡ text.old ++ number_line word.now number) }
    ensures begun { OnErr result (BeginsWith text.new text.old) }
{
    text.append(word.as_bytes())?;
    text.append(b" ")?;
    append_numeral(text, number)?;
    text.append(b"\n")
}

// Puts the line of a word at the end, if it was said.
fn append_word(text: &mut Bytes, word: &str, number: u64) -> Result<(), AllocError>
    ensures text { OnOk result (text.new ≡ text.old ++ tally_line word.now number) }
    ensures begun { OnErr result (BeginsWith text.new text.old) }
{
    if number == 0 {
        return Ok(());
    }
    text.append(b"= ")?;
    append_number(text, word, number)
}

/// Puts a line `= WORD N` at the end for each word that was said, in order.
pub fn append_tally(text: &mut Bytes, words: &[&str], tally: &Tally) -> Result<(), AllocError>
    ensures text { OnOk result
        (text.new ≡ text.old ++ tally_text (map (λ word. word.now) words.now) tally.now) }
    ensures begun { OnErr result (BeginsWith text.new text.old) }
{
    for (word, number) in words.iter().zip(tally.numbers.iter()) {
        append_word(text, word, *number)?;
    }
    Ok(())
}

/// No word was said more often than all of them together. It does nothing when it runs.
pub fn numbers_are_few()
    ensures { (words said : List (List ℕ))
        → All (λ number. number ≤ length said) (numbers_of words said) }
{}
