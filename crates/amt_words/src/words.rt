//! The arguments as a command: the first names it, and the rest are read by its written definition.

ghost use Rattle.std.specs.Prelude.{◌≡◌, [], ◌∷◌, List, map, string_bytes, IfOk, IsErrOf};
ghost use Rattle.clap.specs.Words.{Text};
ghost use Rattle.amt_words.specs.{declared.command.Command.{Command as CommandValue}, Line.{IsAccepted, IsCommandLine, IsTakenBy, IsWithinLimits, TakesPlainLines}, Usage.{dns_usage, gateway_usage, pcap_usage, relay_usage, usages}};

use crate::command::{Command, WordsFault};
use crate::dns::read_dns;
use crate::gateway::read_gateway;
use crate::load::read_load;
use crate::parsing::read_bare;
use crate::pcap::read_pcap;
use crate::relay::read_relay;
use crate::replay::read_replay;
use std::alloc::Global;

// The commands that take a word as it stands.
fn read_worded<'a>(alloc: Global, name: &str, rest: &'a [String]) -> Result<Command<'a>, WordsFault>
    ensures found { IfOk result (λ command.
        IsCommandLine command (name.now ∷ map string_bytes rest.entry.now)) }
    ensures range { IfOk result IsWithinLimits }
    ensures refused { IsErrOf result WordsFault.Usage
        → IsTakenBy (relay_usage ∷ gateway_usage ∷ dns_usage ∷ pcap_usage ∷ []) name.now
        (map string_bytes rest.entry.now) → ⊥ }
{
    match name {
        "relay" => match read_relay(alloc, rest) {
            Ok((file, turns, workers)) => Ok(Command::Relay {
                file,
                turns,
                workers,
            }),
            Err(fault) => Err(fault),
        },
        "gateway" => match read_gateway(alloc, rest) {
            Ok((file, turns)) => Ok(Command::Gateway { file, turns }),
            Err(fault) => Err(fault),
        },
        "dns" => match read_dns(alloc, rest) {
            Ok(source) => Ok(Command::Dns { source }),
            Err(fault) => Err(fault),
        },
        "pcap" => match read_pcap(alloc, rest) {
            Ok(relay) => Ok(Command::Pcap { relay }),
            Err(fault) => Err(fault),
        },
        _ => Err(WordsFault::Usage),
    }
}

// The words after a name, as the command of that name.
fn read_named<'a>(alloc: Global, name: &str, rest: &'a [String]) -> Result<Command<'a>, WordsFault>
    ensures found { IfOk result (λ command.
        IsCommandLine command (name.now ∷ map string_bytes rest.entry.now)) }
    ensures range { IfOk result IsWithinLimits }
    ensures refused { IsErrOf result WordsFault.Usage
        → IsTakenBy usages name.now (map string_bytes rest.entry.now) → ⊥ }
{
    match name {
        "replay" => match read_replay(alloc, rest) {
            Ok(kind) => Ok(Command::Replay(kind)),
            Err(fault) => Err(fault),
        },
        "dump" => match read_bare(alloc, "dump", rest) {
            Ok(()) => Ok(Command::Dump),
            Err(fault) => Err(fault),
        },
        "vectors" => match read_bare(alloc, "vectors", rest) {
            Ok(()) => Ok(Command::Vectors),
            Err(fault) => Err(fault),
        },
        "load" => match read_load(alloc, rest) {
            Ok((seed, count)) => Ok(Command::Load { seed, count }),
            Err(fault) => Err(fault),
        },
        _ => read_worded(alloc, name, rest),
    }
}

/// The command that the arguments name, those after the program's name.
///
/// No line asks for help: `--help`, `-h` and `help` are usage faults. Only as the FILE of `relay` or `gateway`, the
/// SOURCE of `dns` or the RELAY of `pcap` they may stand, the first two after `--`.
#[tactic(auto, using(crate::proofs::PlainLines::plain_lines))]
pub fn read_words<'a>(alloc: Global, words: &'a [String]) -> Result<Command<'a>, WordsFault>
    ensures found { IfOk result (λ command. IsCommandLine command (map string_bytes words.entry.now)) }
    ensures range { IfOk result IsWithinLimits }

    ensures usage { IsErrOf result WordsFault.Usage
        → (command : CommandValue) → IsCommandLine command (map string_bytes words.entry.now) → ⊥ }
    ensures refused { IsErrOf result WordsFault.Usage → IsAccepted (map string_bytes words.entry.now) → ⊥ }

    // Arguments are a line of at most one command.
    ensures one_command { (words : List Text) (one other : CommandValue)
        → IsCommandLine one words → IsCommandLine other words → one ≡ other }
    ensures plain { TakesPlainLines }
{
    match words.split_first() {
        Some((name, rest)) => read_named(alloc, name.as_str(), rest),
        None => Err(WordsFault::Usage),
    }
}
