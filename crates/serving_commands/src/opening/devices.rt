//! The devices of a run, as one value.

use relay_serving::Control;
use replication_workers::Outs;

/// What a relay runs on: its link, its feed of packets, its clock and random words, one link out for each
/// slot, what starts its workers, and maybe where it is asked.
#[derive(Drop)]
pub struct RelayDevices<L, F, C, W, O, P, K, N> {
    /// By which datagrams of endpoints come, and the relay's answers go out.
    pub link: L,
    /// Where the packets to copy come from.
    pub feed: F,
    /// What tells the relay's moments.
    pub clock: C,
    /// Where secrets are drawn from.
    pub words: W,
    /// By which copies go out, in slot order.
    pub outs: Outs<O>,
    /// What starts the workers.
    pub spawner: P,
    /// Where it is asked by lines, if a control socket is wanted.
    pub control: Option<Control<K, N>>,
}

/// What a gateway runs on: its link, its control socket, the link out for packets that it hands on, its clock and
/// random words.
#[derive(Drop)]
pub struct GatewayDevices<L, K, O, C, W> {
    /// By which datagrams of relays come, and the gateway's messages go out.
    pub link: L,
    /// Where the lines of its sockets' calls come from, and lines that ask it, whose answers go out there.
    pub control: K,
    /// By which packets that relays sent are handed on.
    pub out: O,
    /// What tells the gateway's moments.
    pub clock: C,
    /// Where nonces are drawn from.
    pub words: W,
}

/// A set of devices: what one run is opened on, and gives back.
#[derive(Drop)]
pub enum DeviceSet<R, G> {
    /// What a relay runs on.
    Relay(R),
    /// What a gateway runs on.
    Gateway(G),
}
