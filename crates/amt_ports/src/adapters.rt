//! The real things as devices: std's readers and writers, UDP sockets, clock, random words and files.
mod adapted;
mod host_clock;
mod host_files;
mod host_words;
mod reader;
mod udp;
mod writer;

pub use adapted::Adapted;
pub use host_clock::HostClock;
pub use host_files::HostFiles;
pub use host_words::HostWords;
pub use reader::ReaderSource;
pub use udp::{
    UdpControl, UdpFeed, UdpLink, UdpOut, open_control, open_gateway_sockets, open_sockets,
};
pub use writer::WriterSink;
