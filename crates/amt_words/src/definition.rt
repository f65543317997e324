//! The written definitions of the commands, for `clap`. It reads no word.

ghost use Rattle.std.specs.Prelude.{◌≡◌, [], codes, false, true, IfOk};
ghost use Rattle.clap.specs.{Words.{IsParsedFrom, IsPlainArg, app_of, args_of, found_of, groups_of, rule_of, with_subcommand}, Simple.{new_shape}, Built.{TakesValue}, declared.{builder.command.Command.TheViews.{out-Command as fields_of}, parser.matches.ArgMatches.{ArgMatches as MatchesValue}}};
ghost use Rattle.amt_words.specs.{Given.{HasNumber, HasNumberIfAny, HasWord}, Usage.{bare_usage, dns_usage, gateway_usage, load_usage, number_rule, option_rule, optional_word_rule, pcap_usage, relay_usage, replay_usage, word_rule}};

use clap::builder::ValueParser;
use clap::{Arg, ArgAction};
use std::alloc::{AllocError, Global};

/// A command with nothing after its name.
pub fn bare_definition<'a>(alloc: Global, name: &'a str) -> clap::Command<'a>
    ensures usage { app_of result ≡ bare_usage name.entry.now }
    ensures empty { (args_of result ≡ []) × (groups_of result ≡ []) }
    ensures local { ((fields_of result).has_globals ≡ false)
        × ((fields_of result).subcommand_negates_reqs ≡ false) }
{
    clap::Command::new(alloc, name)
        .no_binary_name(true)
        .disable_help_flag(true)
        .disable_version_flag(true)
}

// One more subcommand, with nothing after its name.
fn with_replayable<'a>(
    alloc: Global,
    definition: clap::Command<'a>,
    name: &'a str,
) -> Result<clap::Command<'a>, AllocError>
    ensures { IfOk result (λ more. app_of more
        ≡ with_subcommand (app_of definition.entry) (new_shape name.entry.now)) }
{
    definition.subcommand(clap::Command::new(alloc, name))
}

/// `replay`, and what can be replayed as its subcommands.
pub fn replay_definition<'a>(alloc: Global) -> Result<clap::Command<'a>, AllocError>
    ensures { IfOk result (λ definition. app_of definition ≡ replay_usage) }
{
    let head = bare_definition(alloc, "replay")
        .disable_help_subcommand(true)
        .subcommand_required(true);
    let relay = with_replayable(alloc, head, "relay")?;
    let gateway = with_replayable(alloc, relay, "gateway")?;
    let pair = with_replayable(alloc, gateway, "pair")?;
    let dual = with_replayable(alloc, pair, "dual")?;
    with_replayable(alloc, dual, "upstream")
}

fn seed_argument<'a>(alloc: Global) -> Arg<'a>
    ensures rule { rule_of result ≡ number_rule (codes "SEED") 0 4294967295 }
    ensures plain { IsPlainArg result × (result.global ≡ false) }
    ensures value { TakesValue result }
{
    Arg::new(alloc, "SEED")
        .required(true)
        .action(ArgAction::Set)
        .value_parser(clap::value_parser!(u32))
}

fn count_argument<'a>(alloc: Global) -> Arg<'a>
    ensures rule { rule_of result ≡ number_rule (codes "N") 1 65536 }
    ensures plain { IsPlainArg result × (result.global ≡ false) }
    ensures value { TakesValue result }
{
    Arg::new(alloc, "N")
        .required(true)
        .action(ArgAction::Set)
        .value_parser(clap::value_parser!(u32).range(1..=65536))
}

/// `load SEED N`.
pub fn load_definition<'a>(alloc: Global) -> Result<clap::Command<'a>, AllocError>
    ensures usage { IfOk result (λ definition. app_of definition ≡ load_usage) }
    ensures numbers { IfOk result (λ definition. (found : MatchesValue)
        → IsParsedFrom definition found → HasNumber (found_of found) (codes "SEED") 0 4294967295
        × HasNumber (found_of found) (codes "N") 1 65536) }
{
    let definition = bare_definition(alloc, "load").arg(seed_argument(alloc))?;
    definition.arg(count_argument(alloc))
}

fn word_argument<'a>(alloc: Global, id: &'a str) -> Arg<'a>
    ensures rule { rule_of result ≡ word_rule id.entry.now }
    ensures plain { IsPlainArg result × (result.global ≡ false) }
    ensures value { TakesValue result }
{
    Arg::new(alloc, id).required(true).action(ArgAction::Set)
}

fn turns_argument<'a>(alloc: Global) -> Arg<'a>
    ensures rule { rule_of result ≡ option_rule (codes "turns") 1 1099511627776 }
    ensures plain { IsPlainArg result × (result.global ≡ false) }
{
    Arg::new(alloc, "turns")
        .long("turns")
        .action(ArgAction::Set)
        .value_parser(ValueParser::signed(1, 1_099_511_627_776))
}

fn workers_argument<'a>(alloc: Global) -> Arg<'a>
    ensures rule { rule_of result ≡ option_rule (codes "workers") 0 64 }
    ensures plain { IsPlainArg result × (result.global ≡ false) }
{
    Arg::new(alloc, "workers")
        .long("workers")
        .action(ArgAction::Set)
        .value_parser(clap::value_parser!(u32).range(0..=64))
}

/// `gateway FILE [--turns T]`.
pub fn gateway_definition<'a>(alloc: Global) -> Result<clap::Command<'a>, AllocError>
    ensures usage { IfOk result (λ definition. app_of definition ≡ gateway_usage) }
    ensures given { IfOk result (λ definition. (found : MatchesValue)
        → IsParsedFrom definition found → HasWord (found_of found) (codes "FILE")
        × HasNumberIfAny (found_of found) (codes "turns") 1 1099511627776) }
{
    let definition = bare_definition(alloc, "gateway").arg(word_argument(alloc, "FILE"))?;
    definition.arg(turns_argument(alloc))
}

/// `relay FILE [--turns T] [--workers W]`.
pub fn relay_definition<'a>(alloc: Global) -> Result<clap::Command<'a>, AllocError>
    ensures usage { IfOk result (λ definition. app_of definition ≡ relay_usage) }
    ensures given { IfOk result (λ definition. (found : MatchesValue)
        → IsParsedFrom definition found → HasWord (found_of found) (codes "FILE")
        × HasNumberIfAny (found_of found) (codes "turns") 1 1099511627776
        × HasNumberIfAny (found_of found) (codes "workers") 0 64) }
{
    let definition = bare_definition(alloc, "relay").arg(word_argument(alloc, "FILE"))?;
    definition
        .arg(turns_argument(alloc))?
        .arg(workers_argument(alloc))
}

/// `dns SOURCE`.
pub fn dns_definition<'a>(alloc: Global) -> Result<clap::Command<'a>, AllocError>
    ensures usage { IfOk result (λ definition. app_of definition ≡ dns_usage) }
    ensures given { IfOk result (λ definition. (found : MatchesValue)
        → IsParsedFrom definition found → HasWord (found_of found) (codes "SOURCE")) }
{
    bare_definition(alloc, "dns").arg(word_argument(alloc, "SOURCE"))
}

fn optional_word_argument<'a>(alloc: Global, id: &'a str) -> Arg<'a>
    ensures rule { rule_of result ≡ optional_word_rule id.entry.now }
    ensures local { result.global ≡ false }
{
    Arg::new(alloc, id).action(ArgAction::Set)
}

/// `pcap [RELAY]`.
pub fn pcap_definition<'a>(alloc: Global) -> Result<clap::Command<'a>, AllocError>
    ensures usage { IfOk result (λ definition. app_of definition ≡ pcap_usage) }
{
    bare_definition(alloc, "pcap").arg(optional_word_argument(alloc, "RELAY"))
}
