//! What copies a packet to those that want it.
ghost use Rattle.std.specs.Prelude.{◌≤◌, ◌+◌, vec_capacity};
ghost use Rattle.published_table.specs.Views.{terms_of};

use amt_ports::OutLink;
use endpoint_membership::Targets;
use published_table::View;

mod making;
mod replicating;
mod sending;

pub use replicating::read_length;

/// Copies packets, one at a time, to the endpoints that want them. All its memory is taken when it is
/// made, so that no packet waits for memory or is lost without it.
#[derive(Drop)]
pub struct Replicator<O: OutLink> {
    view: View,
    out: O,
    targets: Targets,
    // The message that carries the packet.
    message: Vec<u8>,
    packet_limit: u32,
    ghost receivers: { (terms_of view).limits.endpoints ≤ targets.room },
    ghost few: { targets.room ≤ 65536 },
    ghost room: { packet_limit + 2 ≤ vec_capacity message },
}

/// Out of memory the view and the link come back.
#[derive(Drop)]
pub struct NewFault<O: OutLink> {
    pub view: View,
    pub out: O,
}
