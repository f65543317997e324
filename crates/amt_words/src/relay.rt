//! `relay FILE [--turns T] [--workers W]`. It knows nothing of a relay.

ghost use Rattle.std.specs.Prelude.{◌≡◌, codes, map, string_bytes, option_map, IfOk, IsErrOf};
ghost use Rattle.clap.specs.Words.{found_of, one_text};
ghost use Rattle.amt_words.specs.{Given.{HasNumberIfAny}, Line.{AreWorkers, GivesRelay, IsTurns, number_of}, Usage.{Takes, relay_usage}};

use crate::command::WordsFault;
use crate::definition::relay_definition;
use crate::parsing::parse;
use crate::serving::{file, turns};
use crate::word::Word;
use clap::ArgMatches;
use std::alloc::Global;

fn workers(found: &ArgMatches) -> Option<u32>
    requires given { HasNumberIfAny (found_of found.now) (codes "workers") 0 64 }
    ensures value { option_map number_of (one_text (found_of found.now) (codes "workers")) ≡ result }
    ensures range { AreWorkers result }
{
    found.get_one::<u32>("workers")
}

/// The file, the turns and the workers that the words after `relay` give.
pub fn read_relay<'a>(
    alloc: Global,
    words: &'a [String],
) -> Result<(Word<'a>, u64, Option<u32>), WordsFault>
    ensures taken { IfOk result (λ given. Takes relay_usage (map string_bytes words.entry.now)) }
    ensures given { IfOk result (λ given. GivesRelay given.0 given.1 given.2 (map string_bytes words.entry.now)) }
    ensures range { IfOk result (λ given. IsTurns given.1 × AreWorkers given.2) }
    ensures usage { IsErrOf result WordsFault.Usage
        → Takes relay_usage (map string_bytes words.entry.now) → ⊥ }
{
    let Ok(definition) = relay_definition(alloc) else {
        return Err(WordsFault::Memory);
    };
    match parse(definition, words) {
        Ok(found) => Ok((file(&found), turns(&found), workers(&found))),
        Err(fault) => Err(fault),
    }
}
