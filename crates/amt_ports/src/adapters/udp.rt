//! UDP sockets as links, feeds and control sockets.
//!
//! Two sockets are received from in turn by one thread, so a wait for one of them would leave the other's
//! datagrams lying, and a full buffer drops them. Both are non-blocking: a receiving asks first, and only
//! where nothing is there it waits, for either socket.
mod control;
mod feed;
mod link;
mod open;
mod options;
mod out;
mod outlet;
mod sharing;
mod sources;
mod watch;

pub use control::UdpControl;
pub use feed::UdpFeed;
pub use link::UdpLink;
pub use open::{open_control, open_gateway_sockets, open_sockets};
pub use out::UdpOut;
