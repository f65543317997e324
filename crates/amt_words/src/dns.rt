//! `dns SOURCE`. It knows nothing of a query.

ghost use Rattle.std.specs.Prelude.{◌≡◌, Some, codes, map, string_bytes, IfOk, IsErrOf};
ghost use Rattle.clap.specs.Words.{first_value, found_of};
ghost use Rattle.amt_words.specs.{Given.{HasWord}, Line.{word_in}, Usage.{Takes, dns_usage}};

use crate::command::WordsFault;
use crate::definition::dns_definition;
use crate::parsing::parse;
use crate::word::Word;
use clap::ArgMatches;
use std::alloc::Global;

fn source<'a>(found: &ArgMatches<'a>) -> Word<'a>
    requires given { HasWord (found_of found.now) (codes "SOURCE") }
    ensures word { first_value (found_of found.now) (codes "SOURCE") ≡ Some result }
{
    Word::of(found.get_str("SOURCE").unwrap())
}

/// The source that the words after `dns` give.
pub fn read_dns<'a>(alloc: Global, words: &'a [String]) -> Result<Word<'a>, WordsFault>
    ensures taken { IfOk result (λ given. Takes dns_usage (map string_bytes words.entry.now)) }
    ensures given { IfOk result (λ given. word_in dns_usage (codes "SOURCE") (map string_bytes words.entry.now)
        ≡ Some given) }
    ensures usage { IsErrOf result WordsFault.Usage
        → Takes dns_usage (map string_bytes words.entry.now) → ⊥ }
{
    let Ok(definition) = dns_definition(alloc) else {
        return Err(WordsFault::Memory);
    };
    match parse(definition, words) {
        Ok(found) => Ok(source(&found)),
        Err(fault) => Err(fault),
    }
}
