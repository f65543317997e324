//! Random words in memory, for tests and callers.
ghost use Rattle.std.specs.Prelude.{◌≡◌, ◌↔◌, [], Some, Ok, Contains, drop, IsErr, IfOk, OnOk, OnErr};
ghost use Rattle.amt_ports.specs.{Causes.{HasCause, next_count}, Scripted.{head_or}, Tally.{fresh_tally, with_call, with_fault}, Told.{Appends}};

use crate::script::Scripted;
use crate::tally::CallTally;
use crate::{Failed, Words};
use std::alloc::Global;
use std::marker::Model;

/// Listed words, which never fail. After the last one each word is 0.
///
/// Their count of faults is 0 at every moment, so a caller at this type knows that no draw fails.
#[derive(Debug, Drop)]
pub struct FaultlessWords {
    words: Scripted<u64>,
}

impl Model for FaultlessWords {
    ghost use Rattle.std.specs.Prelude.{◌≡◌};
    ghost use Rattle.amt_ports.specs.MemWords.{ListedWords};

    ghost Value = { ListedWords };

    ghost view = { λ w. record { coming = w.words.coming; given = w.words.given } };

    ghost invariant = { λ w. w.words.last ≡ 0 };
}

impl FaultlessWords {
    pub fn new(words: Vec<u64>) -> Self
        ensures coming { result.coming ≡ words.items }
        ensures given { result.given ≡ Some [] }
    {
        FaultlessWords {
            words: Scripted::new(words, 0),
        }
    }
}

impl Words for FaultlessWords {
    ghost given = { λ w. w.given };

    ghost faults = { λ _. 0 };

    fn word(&mut self) -> Result<u64, Failed>
        ensures given { IfOk result (Appends self.old.given self.new.given) }
        ensures kept { OnErr result (self.new.given ≡ self.old.given) }
        ensures cause { HasCause 0 0 result }

        ensures word { result ≡ Ok (head_or 0 self.old.coming) }
        ensures coming { self.new.coming ≡ drop 1 self.old.coming }
    {
        Ok(self.words.next())
    }
}

/// Listed words, of which some draws may fail. After the last one each word is 0.
#[derive(Debug, Drop)]
pub struct MemWords {
    words: FaultlessWords,
    tally: CallTally,
}

impl Model for MemWords {
    ghost use Rattle.amt_ports.specs.MemWords.{WordCalls};

    ghost Value = { WordCalls };

    ghost view = { λ w. record { coming = w.words.coming; given = w.words.given; tally = w.tally } };
}

impl MemWords {
    /// No draw of it fails.
    pub fn new(alloc: Global, words: Vec<u64>) -> Self
        ensures coming { result.coming ≡ words.items }
        ensures given { result.given ≡ Some [] }
        ensures tally { result.tally ≡ fresh_tally [] }
    {
        MemWords::failing(words, Vec::new(alloc))
    }

    /// The draws of these numbers fail, counted from 1. A draw that fails takes no word.
    pub fn failing(words: Vec<u64>, calls: Vec<u64>) -> Self
        ensures coming { result.coming ≡ words.items }
        ensures given { result.given ≡ Some [] }
        ensures tally { result.tally ≡ fresh_tally calls.items }
    {
        MemWords {
            words: FaultlessWords::new(words),
            tally: CallTally::new(calls),
        }
    }

    /// How many draws failed.
    pub fn faults(&self) -> u64
        ensures { result ≡ self.now.tally.faults }
    {
        self.tally.faults()
    }
}

impl Words for MemWords {
    ghost given = { λ w. w.given };

    ghost faults = { λ w. w.tally.faults };

    fn word(&mut self) -> Result<u64, Failed>
        ensures given { IfOk result (Appends self.old.given self.new.given) }
        ensures kept { OnErr result (self.new.given ≡ self.old.given) }
        ensures cause { HasCause self.old.tally.faults self.new.tally.faults result }

        ensures word { IfOk result (λ word. word ≡ head_or 0 self.old.coming) }
        ensures taken { OnOk result (self.new.coming ≡ drop 1 self.old.coming) }
        ensures left { OnErr result (self.new.coming ≡ self.old.coming) }
        ensures listed { IsErr result
            ↔ Contains self.old.tally.failing (next_count self.old.tally.made) }
        ensures ok { OnOk result (self.new.tally ≡ with_call self.old.tally) }
        ensures err { OnErr result (self.new.tally ≡ with_fault (with_call self.old.tally)) }
    {
        self.tally.call()?;
        self.words.word()
    }
}
