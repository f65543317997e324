//! The devices of a relay, as one value.
ghost use Rattle.serving_commands.specs.DeviceSets.{relay_seen};

use super::Spawner;
use amt_ports::{
    Clock, Feed, Link, MemClock, MemFeed, MemLink, MemOut, MemWords, OutLink, Spawner as Spawns,
    Words,
};
use relay_serving::{Copies, MemCopies};
use replication_workers::Worker;
use serving_commands::{OnRelay, RelayDevices, RelaySet, Used};
use std::sync::Wait;
use std::thread::Threads;

/// What a relay runs on in a case. It is a type of its own, since a bound on one with a spawner of threads in it can't
/// be stated.
#[derive(Drop)]
pub struct OfRelay<'a, R> {
    pub devices: RelayDevices<
        MemLink,
        MemFeed,
        MemClock,
        MemWords,
        MemOut,
        Spawner<'a, R>,
        MemLink,
        MemCopies,
    >,
}

impl<'a, R: Threads + Wait + 'static> RelaySet for OfRelay<'a, R> {
    ghost seen = { λ set. relay_seen ⟦<MemLink as Link>⟧ ⟦<MemFeed as Feed>⟧ ⟦<MemClock as Clock>⟧
        ⟦<MemWords as Words>⟧ ⟦<MemOut as OutLink>⟧ ⟦<Spawner<'a, R> as Spawns<Worker<MemOut>>>⟧.starts
        ⟦<Spawner<'a, R> as Spawns<Worker<MemOut>>>⟧.faults ⟦<MemLink as Link>⟧ ⟦<MemCopies as Copies>⟧ set.devices };

    fn is_for(&self, slots: u32, asked: bool) -> bool {
        self.devices.is_for(slots, asked)
    }

    fn lend<T: OnRelay, W: Wait>(self, rt: &W, to: T) -> Used<OfRelay<'a, R>, T::Given> {
        let OfRelay { devices } = self;
        let Used { devices, given } = to.go_on(rt, devices);
        Used {
            devices: OfRelay { devices },
            given,
        }
    }
}
