//! Why a run ended.

/// Why a run ended.
#[derive(Clone, Copy, Debug, PartialEq, Eq)]
pub enum End {
    /// All turns were done.
    Turns,
    /// The link or the feed answered that it is closed.
    Closed,
    /// A receiving from the link failed.
    LinkFault,
    /// A receiving from the feed failed.
    FeedFault,
    /// A random word couldn't be drawn.
    WordsFault,
    /// A worker couldn't be started. No turn was begun.
    SpawnFault,
    /// Out of memory before the first turn. In a turn, running out of memory ends no run.
    Memory,
}
