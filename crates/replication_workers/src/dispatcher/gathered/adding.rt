//! How what a slot left is added.
ghost use Rattle.std.specs.Prelude.{◌≤◌, ◌+◌, ◌*◌, ◌^◌, IfOk};
ghost use Rattle.replication_workers.specs.Gathering.{HasAdded, HasRoom, IsFresh, LeavesRoom};

use super::Gathered;
use crate::slot::Left;
use published_table::Views;
use std::alloc::{AllocError, Global};

impl<O> Gathered<O> {
    /// Nothing yet, and room for what so many slots leave.
    pub fn with_room(alloc: Global, slots: u32) -> Result<Gathered<O>, AllocError>
        ensures none { IfOk result IsFresh }
        ensures room { IfOk result (HasRoom slots) }
    {
        let views = Views::with_room(alloc, slots)?;
        let outs = Vec::with_capacity(alloc, slots as usize)?;
        Ok(Gathered {
            outs,
            views,
            jobs: 0,
            sent: 0,
            unsent: 0,
        })
    }
}

impl<O: Drop> Gathered<O> {
    /// Adds what one slot more left.
    pub fn add(&mut self, left: Left<O>)
        requires room { HasRoom 1 self.old }
        requires jobs { self.old.jobs + left.jobs ≤ 2 ^ 46 }
        requires few { left.sent + left.unsent ≤ 65536 * left.jobs }
        ensures added { HasAdded left self.old self.new }
        ensures room { LeavesRoom self.old self.new }
    {
        let Left {
            out,
            view,
            jobs,
            sent,
            unsent,
        } = left;
        self.outs.push_reserved(out);
        match self.views.push(view) {
            Ok(()) => {}
            // There is room for it.
            Err(_) => unreachable!(),
        }
        self.jobs += jobs;
        self.sent += sent;
        self.unsent += unsent;
    }
}
