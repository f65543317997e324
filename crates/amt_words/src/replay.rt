//! `replay relay|gateway|pair|dual|upstream`. It knows no script.

ghost use Rattle.std.specs.Prelude.{◌≡◌, ◌≢◌, Some, map, string_bytes, IfOk, IsErrOf, IfSome, IfNone};
ghost use Rattle.amt_words.specs.{declared.command.Replayable.{Replayable as ReplayableValue}, Line.{replayed_name}, Usage.{Takes, replay_usage, replayable_name}};

use crate::command::{Replayable, WordsFault};
use crate::definition::replay_definition;
use crate::parsing::parse;
use std::alloc::Global;

fn replayable_of(name: &str) -> Option<Replayable>
    ensures some { IfSome result (λ kind. name.now ≡ replayable_name kind) }
    ensures none { IfNone result ((kind : ReplayableValue) → name.now ≢ replayable_name kind) }
{
    match name {
        "relay" => Some(Replayable::Relay),
        "gateway" => Some(Replayable::Gateway),
        "pair" => Some(Replayable::Pair),
        "dual" => Some(Replayable::Dual),
        "upstream" => Some(Replayable::Upstream),
        _ => None,
    }
}

/// What the words after `replay` ask to replay.
pub fn read_replay(alloc: Global, words: &[String]) -> Result<Replayable, WordsFault>
    ensures taken { IfOk result (λ kind. Takes replay_usage (map string_bytes words.now)) }
    ensures name { IfOk result (λ kind. replayed_name (map string_bytes words.now)
        ≡ Some (replayable_name kind)) }
    ensures usage { IsErrOf result WordsFault.Usage
        → Takes replay_usage (map string_bytes words.now) → ⊥ }
{
    let Ok(definition) = replay_definition(alloc) else {
        return Err(WordsFault::Memory);
    };
    match parse(definition, words) {
        Ok(found) => match found.subcommand_name() {
            Some(name) => match replayable_of(name) {
                Some(kind) => Ok(kind),
                None => Err(WordsFault::Usage),
            },
            None => Err(WordsFault::Usage),
        },
        Err(fault) => Err(fault),
    }
}
