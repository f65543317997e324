//! The outside as traits: bytes, datagrams, packets, moments, random words, files and threads, with
//! devices in memory, adapters over std's readers, writers, sockets, clock, random source and files, and
//! spawners over std's threads. And what the loops of a serving relay and of a serving gateway have in common: why
//! a run ends, how often a device is asked in a turn, and what its answers come to.
//!
//! Contract: a call answers that its device failed where the device's count of faults rose, and only there;
//! where a device tells what it gave, took or tried, that is what its calls answered. Of turns there are definitions
//! alone, in which the loops' own contracts are stated.
//! It knows no message, no endpoint and no machine, and of time the moments alone.
//! No standard.
#![tactic(auto)]

mod adapters;
mod asked;
mod clock;
mod end;
mod fault;
mod feed;
mod files;
mod link;
mod memory;
mod out_link;
mod reading;
mod script;
mod sink;
mod source;
mod spawners;
mod tally;
mod task;
mod tried;
mod words;
mod writing;

pub use adapters::{
    Adapted, HostClock, HostFiles, HostWords, ReaderSource, UdpControl, UdpFeed, UdpLink, UdpOut,
    WriterSink, open_control, open_gateway_sockets, open_sockets,
};
pub use asked::{Asked, BUFFER, BURST, WAIT_MS};
pub use clock::Clock;
pub use end::End;
pub use fault::Failed;
pub use feed::{Feed, FeedAnswer, FeedGot};
pub use files::{FileFault, Files};
pub use link::{Got, Link, LinkAnswer};
pub use memory::{
    FaultlessFeed, FaultlessSource, FaultlessWords, MemClock, MemFeed, MemFile, MemFiles, MemLink,
    MemOut, MemSink, MemSource, MemWords,
};
pub use out_link::OutLink;
pub use reading::{READ_SIZE, ReadAllFault, read_all};
pub use sink::Sink;
pub use source::Source;
pub use spawners::{GivenBy, ListedSpawner, Starts, ThreadSpawner, start_promised};
pub use tally::CallTally;
pub use task::{Spawner, Task};
pub use tried::Tried;
pub use words::Words;
pub use writing::{WriteFault, write_all_own};
