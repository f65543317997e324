//! `load SEED N`. It knows nothing of a load.

ghost use Rattle.std.specs.Prelude.{◌≡◌, ◌≤◌, ◌<◌, ◌^◌, ℕ, Some, map, string_bytes, option_map, IfOk, IsErrOf};
ghost use Rattle.clap.specs.Words.{found_of, one_text};
ghost use Rattle.amt_words.specs.{Given.{HasNumber, HasSomeNumber}, Line.{GivesLoad, IsLoadCount, number_of}, Usage.{Takes, load_usage}};

use crate::command::WordsFault;
use crate::definition::load_definition;
use crate::parsing::parse;
use clap::ArgMatches;
use std::alloc::Global;

// The number that was found for a required argument. Its text was checked by the parse.
fn number(found: &ArgMatches, id: &str) -> u32
    requires given { HasSomeNumber (found_of found.now) id.now }
    ensures value { option_map number_of (one_text (found_of found.now) id.now) ≡ Some result }
    ensures within { (least most : ℕ) → most < 2 ^ 32
        → HasNumber (found_of found.now) id.now least most → (least ≤ result) × (result ≤ most) }
{
    found.get_one::<u32>(id).unwrap()
}

/// The seed and the count that the words after `load` give.
pub fn read_load(alloc: Global, words: &[String]) -> Result<(u32, u32), WordsFault>
    ensures taken { IfOk result (λ numbers. Takes load_usage (map string_bytes words.now)) }
    ensures numbers { IfOk result (λ numbers.
        GivesLoad numbers.0 numbers.1 (map string_bytes words.now)) }
    ensures range { IfOk result (λ numbers. IsLoadCount numbers.1) }
    ensures usage { IsErrOf result WordsFault.Usage
        → Takes load_usage (map string_bytes words.now) → ⊥ }
{
    let Ok(definition) = load_definition(alloc) else {
        return Err(WordsFault::Memory);
    };
    match parse(definition, words) {
        Ok(found) => {
            let seed = number(&found, "SEED");
            let count = number(&found, "N");
            Ok((seed, count))
        }
        Err(fault) => Err(fault),
    }
}
