//! Devices in memory, for tests and for callers whose input is at hand.
mod buffer;
mod clock;
mod feed;
mod files;
mod link;
mod out;
mod sink;
mod source;
mod words;

pub use clock::MemClock;
pub use feed::{FaultlessFeed, MemFeed};
pub use files::{MemFile, MemFiles};
pub use link::MemLink;
pub use out::MemOut;
pub use sink::MemSink;
pub use source::{FaultlessSource, MemSource};
pub use words::{FaultlessWords, MemWords};
