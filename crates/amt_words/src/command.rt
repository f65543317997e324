//! The commands, by what they are asked to do. It reads no word.

use crate::word::Word;

/// What can be replayed from a script.
#[derive(Clone, Copy, Debug, PartialEq, Eq)]
pub enum Replayable {
    Relay,
    Gateway,
    /// A relay and its gateways.
    Pair,
    /// A relay and its gateways, each of both families.
    Dual,
    /// A relay, with what its own network has to hear.
    Upstream,
}

/// What `amt` is asked to do.
#[derive(Debug, Drop, PartialEq, Eq)]
pub enum Command<'a> {
    /// Read a script, run it, and write the text of its steps.
    Replay(Replayable),
    /// Write the text of each message.
    Dump,
    /// Compare known answers.
    Vectors,
    /// Run a relay under `count` endpoints that `seed` makes.
    Load {
        seed: u32,
        count: u32,
    },
    /// Serve as the relay that the settings of `file` say, for so many turns at most. `workers`
    /// outweighs the settings.
    Relay {
        file: Word<'a>,
        turns: u64,
        workers: Option<u32>,
    },
    /// Serve as the gateway that the settings of `file` say, for so many turns at most.
    Gateway {
        file: Word<'a>,
        turns: u64,
    },
    /// Find the relays of a source, by the query for them and its answer.
    Dns {
        source: Word<'a>,
    },
    /// Read a capture, and write a relay's script of it, or the datagrams of the tunnel.
    Pcap {
        relay: Option<Word<'a>>,
    },
}

/// Why arguments are no command.
#[derive(Clone, Copy, Debug, PartialEq, Eq)]
pub enum WordsFault {
    /// No written definition takes them.
    Usage,
    Memory,
}
