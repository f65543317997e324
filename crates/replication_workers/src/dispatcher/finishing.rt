//! How all slots are ended.
ghost use Rattle.std.specs.{Prelude.{◌≡◌, ◌≤◌, ◌^◌, length, map}, List.{All}};
ghost use Rattle.replication_workers.specs.{Gathering.{HasRoom, HaveEnded, IsFresh}, KeptSlots.{IsRunBy, state_of}, SlotStates.{jobs_in_all}};

use super::gathered::Gathered;
use super::kept::{Kept, finish_kept};
use crate::worker::Worker;
use amt_ports::{OutLink, Spawner};
use std::sync::Wait;

/// Ends the slots in order, and gathers what they leave.
pub fn finish_all<O: OutLink + Drop, R: Wait, P: Spawner<Worker<O>>>(
    rt: &R,
    kept: Vec<Kept<O, P::Started>>,
    mut gathered: Gathered<O>,
    spawner: &mut P,
) -> Gathered<O>
    requires fresh { IsFresh gathered }
    requires room { HasRoom (length kept.items) gathered }
    requires few { jobs_in_all (map state_of kept.items) ≤ 2 ^ 46 }
    requires run { All (IsRunBy P.task_of) kept.items }
    ensures ended { HaveEnded kept.items result }
    ensures starts { P.starts spawner.new ≡ P.starts spawner.old }
    ensures faults { P.faults spawner.new ≡ P.faults spawner.old }
{
    let mut rest = kept.into_iter();
    while let Some(one) = rest.next() {
        gathered.add(finish_kept(rt, one, spawner));
    }
    rest.destroy_empty();
    gathered
}
