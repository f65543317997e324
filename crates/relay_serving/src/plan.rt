//! What a run of a serving relay is told, and what it comes to.

use amt_ports::End;
use published_table::Views;
use replication_workers::Outs;

/// How a relay is to be run.
#[derive(Clone, Copy, Debug, PartialEq, Eq)]
pub struct ServePlan {
    /// How many turns there are, from 1 to 1,099,511,627,776.
    pub turns: u64,
    /// How many workers copy packets, at most 64. With none the turns' own thread does.
    pub workers: u32,
    /// After how many milliseconds a new secret is drawn, at least 1.
    pub rotate_ms: u64,
}

/// What a run came to, in numbers.
#[derive(Clone, Copy, Debug, PartialEq, Eq)]
pub struct ServeReport {
    /// Why the run ended.
    pub end: End,
    /// The turns that were done whole.
    pub turns: u64,
    /// The datagrams that were taken from the link, without those whose event memory refused.
    pub datagrams: u64,
    /// The packets that were taken from the feed, without those whose event memory refused.
    pub packets: u64,
    /// The Updates that were accepted (RFC 7450, section 5.1.5).
    pub updated: u64,
    /// The Teardowns of live endpoints that were accepted (RFC 7450, section 5.1.7).
    pub torn: u64,
    /// The datagrams that link and outs sent.
    pub sent: u64,
    /// The datagrams that link and outs didn't take.
    pub unsent: u64,
    /// The packets that the turns' own thread copied: all of them where there are no workers, and else none.
    pub inline: u64,
    /// The moments, datagrams and packets that memory refused. They changed nothing.
    pub starved: u64,
    /// The publishings that memory refused. What they left owed goes first at the next one.
    pub late: u64,
    /// The entries that weren't published at the end.
    pub owed: u64,
    /// The entries that were published.
    pub published: u64,
    /// The views whose log at the end isn't the published one.
    pub apart: u64,
}

/// What is left of a run.
#[derive(Drop)]
pub struct Served<O> {
    pub report: ServeReport,
    /// The outs that were given, in order, but for that of a worker whose start was refused.
    pub outs: Outs<O>,
    /// The views of the outs, in order; none where no worker or replicator was made.
    pub views: Views,
}
