//! What the commands that serve have in common: FILE and `--turns T`. It knows nothing of a relay or a gateway.

ghost use Rattle.std.specs.Prelude.{◌≡◌, Some, codes, option_map};
ghost use Rattle.clap.specs.Words.{first_value, found_of, one_text};
ghost use Rattle.amt_words.specs.{Given.{HasNumberIfAny, HasWord}, Line.{IsTurns, number_of, turns_or_most}};

use crate::word::Word;
use clap::ArgMatches;

/// The most turns of a run, and those of one for which no number is given.
const MOST_TURNS: u64 = 1_099_511_627_776;

/// The settings file.
pub fn file<'a>(found: &ArgMatches<'a>) -> Word<'a>
    requires given { HasWord (found_of found.now) (codes "FILE") }
    ensures word { first_value (found_of found.now) (codes "FILE") ≡ Some result }
{
    Word::of(found.get_str("FILE").unwrap())
}

/// How many turns a run has at most.
pub fn turns(found: &ArgMatches) -> u64
    requires given { HasNumberIfAny (found_of found.now) (codes "turns") 1 1099511627776 }
    ensures value { turns_or_most (option_map number_of (one_text (found_of found.now) (codes "turns"))) ≡ result }
    ensures range { IsTurns result }
{
    match found.get_one::<u64>("turns") {
        Some(turns) => turns,
        None => MOST_TURNS,
    }
}
