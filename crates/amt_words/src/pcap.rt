//! `pcap [RELAY]`. It knows nothing of a capture.

ghost use Rattle.std.specs.Prelude.{◌≡◌, codes, map, string_bytes, IfOk, IsErrOf};
ghost use Rattle.clap.specs.Words.{first_value, found_of};
ghost use Rattle.amt_words.specs.{Line.{word_in}, Usage.{Takes, pcap_usage}};

use crate::command::WordsFault;
use crate::definition::pcap_definition;
use crate::parsing::parse;
use crate::word::Word;
use clap::ArgMatches;
use std::alloc::Global;

fn relay<'a>(found: &ArgMatches<'a>) -> Option<Word<'a>>
    ensures word { first_value (found_of found.now) (codes "RELAY") ≡ result }
{
    match found.get_str("RELAY") {
        Some(word) => Some(Word::of(word)),
        None => None,
    }
}

/// The relay that the words after `pcap` give, if any.
pub fn read_pcap<'a>(alloc: Global, words: &'a [String]) -> Result<Option<Word<'a>>, WordsFault>
    ensures taken { IfOk result (λ given. Takes pcap_usage (map string_bytes words.entry.now)) }
    ensures given { IfOk result (λ given. word_in pcap_usage (codes "RELAY") (map string_bytes words.entry.now)
        ≡ given) }
    ensures usage { IsErrOf result WordsFault.Usage
        → Takes pcap_usage (map string_bytes words.entry.now) → ⊥ }
{
    let Ok(definition) = pcap_definition(alloc) else {
        return Err(WordsFault::Memory);
    };
    match parse(definition, words) {
        Ok(found) => Ok(relay(&found)),
        Err(fault) => Err(fault),
    }
}
