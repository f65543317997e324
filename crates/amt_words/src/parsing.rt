//! The words after a command's name, by its written definition. It knows no command.

ghost use Rattle.std.specs.Prelude.{◌≡◌, true, map, string_bytes, IfOk, IsErrOf};
ghost use Rattle.clap.specs.Words.{IsParsedFrom, app_of, found_of, is_simple_and_free, matches_of, rows_of, subcommand_of, subcommand_rows_of};
ghost use Rattle.amt_words.specs.Usage.{Takes, bare_usage};

use crate::command::WordsFault;
use crate::definition::bare_definition;
use clap::ArgMatches;
use clap::error::ErrorKind;
use std::alloc::Global;

/// What the definition finds in the words.
pub fn parse<'a>(
    definition: clap::Command<'a>,
    words: &'a [String],
) -> Result<ArgMatches<'a>, WordsFault>
    requires simple { is_simple_and_free (app_of definition) ≡ true }
    ensures taken { IfOk result (λ found. Takes (app_of definition.entry)
        (map string_bytes words.entry.now)) }
    ensures rows { IfOk result (λ found. rows_of (found_of found)
        ≡ matches_of (app_of definition.entry) (map string_bytes words.entry.now)) }
    ensures subcommand { IfOk result (λ found. subcommand_rows_of found
        ≡ subcommand_of (app_of definition.entry) (map string_bytes words.entry.now)) }
    ensures parsed { IfOk result (λ found. IsParsedFrom definition.entry found) }

    ensures usage { IsErrOf result WordsFault.Usage → Takes (app_of definition.entry)
        (map string_bytes words.entry.now) → ⊥ }
{
    match definition.try_get_matches_from(words) {
        Ok(found) => Ok(found),
        Err(error) => match error.kind() {
            ErrorKind::OutOfMemory => Err(WordsFault::Memory),
            _ => Err(WordsFault::Usage),
        },
    }
}

/// The words after the name of a command that takes none.
pub fn read_bare(alloc: Global, name: &str, words: &[String]) -> Result<(), WordsFault>
    ensures taken { IfOk result (λ _. Takes (bare_usage name.now) (map string_bytes words.now)) }
    ensures usage { IsErrOf result WordsFault.Usage
        → Takes (bare_usage name.now) (map string_bytes words.now) → ⊥ }
{
    match parse(bare_definition(alloc, name), words) {
        Ok(_) => Ok(()),
        Err(fault) => Err(fault),
    }
}
