//! What slots left, one after another.
ghost use Rattle.std.specs.Prelude.{◌≤◌, ◌+◌, ◌*◌};

use published_table::Views;

mod adding;

/// The links and the views of ended slots, in order, and the sums of what they counted.
#[derive(Drop)]
pub struct Gathered<O> {
    pub outs: Vec<O>,
    pub views: Views,
    pub jobs: u64,
    pub sent: u64,
    pub unsent: u64,
    ghost few: { sent + unsent ≤ 65536 * jobs },
}
