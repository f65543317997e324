//! `gateway FILE [--turns T]`. It knows nothing of a gateway.

ghost use Rattle.std.specs.Prelude.{map, string_bytes, IfOk, IsErrOf};
ghost use Rattle.amt_words.specs.{Line.{GivesRun, IsTurns}, Usage.{Takes, gateway_usage}};

use crate::command::WordsFault;
use crate::definition::gateway_definition;
use crate::parsing::parse;
use crate::serving::{file, turns};
use crate::word::Word;
use std::alloc::Global;

/// The file and the turns that the words after `gateway` give.
pub fn read_gateway<'a>(alloc: Global, words: &'a [String]) -> Result<(Word<'a>, u64), WordsFault>
    ensures taken { IfOk result (λ given. Takes gateway_usage (map string_bytes words.entry.now)) }
    ensures given { IfOk result (λ given. GivesRun gateway_usage given.0 given.1 (map string_bytes words.entry.now)) }
    ensures range { IfOk result (λ given. IsTurns given.1) }
    ensures usage { IsErrOf result WordsFault.Usage
        → Takes gateway_usage (map string_bytes words.entry.now) → ⊥ }
{
    let Ok(definition) = gateway_definition(alloc) else {
        return Err(WordsFault::Memory);
    };
    match parse(definition, words) {
        Ok(found) => Ok((file(&found), turns(&found))),
        Err(fault) => Err(fault),
    }
}
