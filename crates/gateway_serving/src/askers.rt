//! Those who are to be answered after a turn.
ghost use Rattle.std.specs.Prelude.{◌≤◌, vec_capacity};

use amt_values::Peer;
use control_lines::GatewayAsking;
use script_lines::Reason;

mod list;

/// Whoever sent a line that is to be answered, and as what it was read: what it asks for, or why it is bad.
#[derive(Clone, Copy, Debug)]
pub struct Asker {
    pub from: Peer,
    pub reading: Result<GatewayAsking, Reason>,
}

/// Those who asked in a turn. There is room for each of its lines, so turns take no memory for them.
#[derive(Drop)]
pub(crate) struct Askers {
    list: Vec<Asker>,
    ghost room: { 64 ≤ vec_capacity list },
}
