//! The command: arguments in, status out. It knows devices by their traits alone.

ghost use Rattle.std.specs.{Prelude.{◌≡◌, ◌⊎◌, ℕ, List, Option, map, string_bytes, IsOk, IsErrOf}, Io.KnownBytes.{Appends}};
ghost use Rattle.amt_ports.specs.Causes.{Rose};
ghost use Rattle.amt_words.specs.{Line.{IsAccepted, IsCommandLine, IsWithinLimits}, declared.command.Command.{Command as CommandValue}};
ghost use Rattle.script_lines.specs.Writing.{WritesPrefix};
ghost use Rattle.serving_commands.specs.Lives.{tells};
ghost use Rattle.amt_command.specs.{Command.{work_of}, Ending.{EndsFor, LeavesDevices, status_of, line_of}, Exit.{status_in}, Running.{Gateways, IsGatewayLine, IsRelayLine, Relays, ServesFor}, Serving.{ServesAndTells}, Status.{Answers, Reports, ReportsMemory}, Task.{HasOneFaultFor, HasOneValue}};

use crate::dns::DnsTask;
use crate::ending::Ending;
use crate::exit::Exit;
use crate::gateway::serve_gateway_file;
use crate::pcap::{CaptureLines, CaptureScript};
use crate::relay::serve_relay_file;
use crate::running::{run_task, write_load};
use crate::scripts::{DualReplay, GatewayReplay, PairReplay, RelayReplay, UpstreamReplay};
use crate::texts::{Dump, Vectors};
use amt_ports::{Files, Sink, Source, write_all_own};
use amt_words::{Command, Replayable, Word, WordsFault, read_words};
use serving_commands::Live;
use std::alloc::Global;
use std::sync::Wait;

fn replay<S: Source, O: Sink>(
    alloc: Global,
    kind: Replayable,
    input: &mut S,
    out: &mut O,
) -> Result<(), Ending>
    ensures no_usage { IsErrOf result Ending.Usage → ⊥ }
    ensures ends { EndsFor (work_of (CommandValue.Replay kind)) S.left S.faults O.written O.faults
        input.old input.new out.old out.new result }
    ensures devices { LeavesDevices S.left S.faults O.faults input.old input.new out.old out.new
        result }
{
    match kind {
        Replayable::Relay => run_task(&RelayReplay {}, alloc, input, out),
        Replayable::Gateway => run_task(&GatewayReplay {}, alloc, input, out),
        Replayable::Pair => run_task(&PairReplay {}, alloc, input, out),
        Replayable::Dual => run_task(&DualReplay {}, alloc, input, out),
        Replayable::Upstream => run_task(&UpstreamReplay {}, alloc, input, out),
    }
}

// The lines of a capture, or the script of the relay that is given.
fn run_capture<S: Source, O: Sink>(
    alloc: Global,
    relay: Option<Word>,
    input: &mut S,
    out: &mut O,
) -> Result<(), Ending>
    ensures no_usage { IsErrOf result Ending.Usage → ⊥ }
    ensures ends { EndsFor (work_of (CommandValue.Pcap relay.entry)) S.left S.faults O.written O.faults
        input.old input.new out.old out.new result }
    ensures devices { LeavesDevices S.left S.faults O.faults input.old input.new out.old out.new
        result }
{
    match relay {
        None => run_task(&CaptureLines {}, alloc, input, out),
        Some(relay) => run_task(&CaptureScript { relay }, alloc, input, out),
    }
}

fn run_command<S: Source, F: Files, O: Sink, V: Live>(
    rt: &impl Wait,
    alloc: Global,
    command: Command,
    input: &mut S,
    files: &mut F,
    out: &mut O,
    live: &mut V,
) -> Result<(), Ending>
    requires { IsWithinLimits command }
    ensures no_usage { IsErrOf result Ending.Usage → ⊥ }
    ensures serves { ServesFor F.Files (tells V.Live V.Relay.seen V.Gateway.seen)
        files.old files.new live.old live.new command.entry O.written out.old out.new
        (status_of result) (line_of result) }
    ensures ends { EndsFor (work_of command.entry) S.left S.faults O.written O.faults
        input.old input.new out.old out.new result }
    ensures devices { LeavesDevices S.left S.faults O.faults input.old input.new out.old out.new
        result }
{
    match command {
        Command::Replay(kind) => replay(alloc, kind, input, out),
        Command::Dump => run_task(&Dump {}, alloc, input, out),
        Command::Vectors => run_task(&Vectors {}, alloc, input, out),
        Command::Dns { source } => run_task(&DnsTask { source }, alloc, input, out),
        Command::Pcap { relay } => run_capture(alloc, relay, input, out),
        Command::Load { seed, count } => write_load(alloc, seed, count, input, out),
        Command::Relay {
            file,
            turns,
            workers,
        } => serve_relay_file(rt, alloc, file.as_str(), turns, workers, files, out, live),
        Command::Gateway { file, turns } => {
            serve_gateway_file(alloc, file.as_str(), turns, files, out, live)
        }
    }
}

fn run<S: Source, F: Files, O: Sink, V: Live>(
    rt: &impl Wait,
    alloc: Global,
    words: &[String],
    input: &mut S,
    files: &mut F,
    out: &mut O,
    live: &mut V,
) -> Result<(), Ending>
    ensures usage { IsErrOf result Ending.Usage → IsAccepted (map string_bytes words.now) → ⊥ }
    ensures words { ((IsErrOf result Ending.Usage ⊎ IsErrOf result Ending.Memory)
        × (input.new ≡ input.old) × (out.new ≡ out.old) × (files.new ≡ files.old) × (live.new ≡ live.old))
        ⊎ ((command : CommandValue) × IsCommandLine command (map string_bytes words.now)) }

    ensures serves { (command : CommandValue) → IsCommandLine command (map string_bytes words.now)
        → ServesFor F.Files (tells V.Live V.Relay.seen V.Gateway.seen)
        files.old files.new live.old live.new command O.written out.old out.new
        (status_of result) (line_of result) }
    ensures of_command { (command : CommandValue) → IsCommandLine command (map string_bytes words.now)
        → EndsFor (work_of command) S.left S.faults O.written O.faults
        input.old input.new out.old out.new result }
    ensures devices { LeavesDevices S.left S.faults O.faults input.old input.new out.old out.new
        result }
{
    let command = match read_words(alloc, words) {
        Ok(command) => command,
        Err(WordsFault::Usage) => return Err(Ending::Usage),
        Err(WordsFault::Memory) => return Err(Ending::Memory),
    };
    match run_command(rt, alloc, command, input, files, out, live) {
        Ok(()) => Ok(()),
        Err(ending) => Err(ending),
    }
}

fn status_of(ending: &Result<(), Ending>) -> u8
    ensures { result ≡ status_of ending.now }
{
    match ending {
        Ok(()) => 0,
        Err(ending) => ending.status(),
    }
}

// A fault of the sink is ignored, since the status tells the same.
fn report<E: Sink>(ending: &Result<(), Ending>, err: &mut E)
    ensures line { (Rose (E.faults err.old) (E.faults err.new) → ⊥)
        → Appends (E.written err.old) (E.written err.new) (line_of ending.now) }
    ensures prefix { WritesPrefix (E.written err.old) (E.written err.new) (line_of ending.now) }
    ensures silent { IsOk ending.now → err.new ≡ err.old }
{
    if let Err(ending) = ending {
        let _ = write_all_own(err, ending.line());
    }
}

/// The command `amt`: takes the words after the program's name, and answers the exit status.
///
/// The words are judged first, then the input is read whole, then it is read as what the command reads; only
/// then is a step taken and something written to `out`. `load`, `relay` and `gateway` leave the input alone;
/// `relay` and `gateway` alone use the files and the devices of `live`, and write after their run.
pub fn amt<S: Source, F: Files, O: Sink, E: Sink, V: Live>(
    rt: &impl Wait,
    alloc: Global,
    words: &[String],
    input: &mut S,
    files: &mut F,
    out: &mut O,
    err: &mut E,
    live: &mut V,
) -> u8
    ensures answers { Answers S.left S.faults O.written O.faults
        (map string_bytes words.now) input.old input.new out.old out.new result }
    ensures reports { Reports S.left E.written E.faults (map string_bytes words.now)
        input.old input.new err.old err.new result }
    ensures relays { (file : List ℕ) (turns : ℕ) (workers : Option ℕ)
        → IsCommandLine (CommandValue.Relay file turns workers) (map string_bytes words.now)
        → ServesAndTells (Relays F.Files (tells V.Live V.Relay.seen V.Gateway.seen)
        file turns workers files.old files.new live.old live.new O.written out.old out.new result)
        E.written E.faults err.old err.new }
    ensures gateways { (file : List ℕ) (turns : ℕ)
        → IsCommandLine (CommandValue.Gateway file turns) (map string_bytes words.now)
        → ServesAndTells (Gateways F.Files (tells V.Live V.Relay.seen V.Gateway.seen)
        file turns files.old files.new live.old live.new O.written out.old out.new result)
        E.written E.faults err.old err.new }
    ensures unused { ¬ IsRelayLine (map string_bytes words.now) → ¬ IsGatewayLine (map string_bytes words.now)
        → (files.new ≡ files.old) × (live.new ≡ live.old) }

    // The octets of an input are read as one value at most, and have one fault at most.
    ensures one_value { (command : CommandValue) → HasOneValue (work_of command) }
    ensures one_fault { (command : CommandValue) → HasOneFaultFor (work_of command) }
{
    let ending = run(rt, alloc, words, input, files, out, live);
    report(&ending, err);
    status_of(&ending)
}

/// `amt`, with the status as the one that the process ends with.
pub fn amt_exit<S: Source, F: Files, O: Sink, E: Sink, V: Live>(
    rt: &impl Wait,
    alloc: Global,
    words: &[String],
    input: &mut S,
    files: &mut F,
    out: &mut O,
    err: &mut E,
    live: &mut V,
) -> Exit
    ensures answers { Answers S.left S.faults O.written O.faults
        (map string_bytes words.now) input.old input.new out.old out.new (status_in result) }
    ensures reports { Reports S.left E.written E.faults (map string_bytes words.now)
        input.old input.new err.old err.new (status_in result) }
    ensures relays { (file : List ℕ) (turns : ℕ) (workers : Option ℕ)
        → IsCommandLine (CommandValue.Relay file turns workers) (map string_bytes words.now)
        → ServesAndTells (Relays F.Files (tells V.Live V.Relay.seen V.Gateway.seen)
        file turns workers files.old files.new live.old live.new O.written out.old out.new
        (status_in result)) E.written E.faults err.old err.new }
    ensures gateways { (file : List ℕ) (turns : ℕ)
        → IsCommandLine (CommandValue.Gateway file turns) (map string_bytes words.now)
        → ServesAndTells (Gateways F.Files (tells V.Live V.Relay.seen V.Gateway.seen)
        file turns files.old files.new live.old live.new O.written out.old out.new
        (status_in result)) E.written E.faults err.old err.new }
    ensures unused { ¬ IsRelayLine (map string_bytes words.now) → ¬ IsGatewayLine (map string_bytes words.now)
        → (files.new ≡ files.old) × (live.new ≡ live.old) }
    ensures one_value { (command : CommandValue) → HasOneValue (work_of command) }
    ensures one_fault { (command : CommandValue) → HasOneFaultFor (work_of command) }
{
    Exit::of(amt(rt, alloc, words, input, files, out, err, live))
}

/// What `amt` answers where memory runs out before there are words.
pub fn amt_without_memory<E: Sink>(err: &mut E) -> u8
    ensures { ReportsMemory E.written E.faults err.old err.new result }
{
    let ending = Err(Ending::Memory);
    report(&ending, err);
    status_of(&ending)
}

/// `amt_without_memory`, with the status as the one that the process ends with.
pub fn exit_without_memory<E: Sink>(err: &mut E) -> Exit
    ensures { ReportsMemory E.written E.faults err.old err.new (status_in result) }
{
    Exit::of(amt_without_memory(err))
}
