//! What runs go on at the machine.
ghost use Rattle.serving_commands.specs.DeviceSets.{relay_seen};

use crate::opening::counted::{CountedOut, SharedCopies};
use crate::opening::devices::{GatewayDevices, RelayDevices};
use crate::opening::journaled::JournaledControl;
use crate::opening::sets::{OnRelay, RelaySet, Used};
use amt_ports::{
    Clock, Failed, Feed, GivenBy, HostClock, HostWords, Link, OutLink, Spawner, Starts,
    ThreadSpawner, UdpControl, UdpFeed, UdpLink, UdpOut, Words, WriterSink,
};
use relay_serving::Copies;
use replication_workers::{Worker, WorkerDone, start_worker};
use std::io::Stderr;
use std::random::RandomSource;
use std::sync::Wait;
use std::thread::{PromisedHandle, Threads};
use std::time;

/// A worker's end of the link's socket, whose sends may be counted.
pub type HostOut = CountedOut<UdpOut>;

/// What starts workers that send through UDP sockets, each in a thread of its own.
#[derive(Debug, Drop)]
pub struct WorkerThreads<R> {
    rt: R,
}

impl<R> WorkerThreads<R> {
    pub(crate) fn new(rt: R) -> Self {
        WorkerThreads { rt }
    }
}

impl<R: Threads + Wait + 'static> Starts<Worker<HostOut>> for WorkerThreads<R> {
    fn start_thread(
        &self,
        work: Worker<HostOut>,
    ) -> Result<PromisedHandle<WorkerDone<HostOut>, GivenBy<Worker<HostOut>>>, Failed> {
        start_worker(&self.rt, work)
    }
}

/// Where an end is asked: by lines of a socket, and by itself for its journal on standard error.
pub type HostControl<R> = JournaledControl<UdpControl, HostClock<R>, WriterSink<Stderr>>;

/// What a relay runs on at the machine that `R` runs on.
///
/// It is a type of its own, since an associated type with a spawner of threads in it can't be stated.
#[derive(Drop)]
pub struct HostRelay<R> {
    pub devices: RelayDevices<
        UdpLink,
        UdpFeed,
        HostClock<R>,
        HostWords<R>,
        HostOut,
        ThreadSpawner<R, WorkerThreads<R>>,
        HostControl<R>,
        SharedCopies,
    >,
}

/// What a gateway runs on there.
pub type HostGateway<R> = GatewayDevices<
    UdpLink,
    HostControl<R>,
    HostOut,
    HostClock<R>,
    HostWords<R>,
>;

impl<R: time::Clock + RandomSource + Threads + Wait + Drop + 'static> RelaySet for HostRelay<R> {
    ghost seen = { λ set. relay_seen ⟦<UdpLink as Link>⟧ ⟦<UdpFeed as Feed>⟧ ⟦<HostClock<R> as Clock>⟧
        ⟦<HostWords<R> as Words>⟧ ⟦<HostOut as OutLink>⟧
        ⟦<ThreadSpawner<R, WorkerThreads<R>> as Spawner<Worker<HostOut>>>⟧.starts
        ⟦<ThreadSpawner<R, WorkerThreads<R>> as Spawner<Worker<HostOut>>>⟧.faults
        ⟦<HostControl<R> as Link>⟧ ⟦<SharedCopies as Copies>⟧ set.devices };

    fn is_for(&self, slots: u32, asked: bool) -> bool {
        self.devices.is_for(slots, asked)
    }

    fn lend<T: OnRelay, W: Wait>(self, rt: &W, to: T) -> Used<HostRelay<R>, T::Given> {
        let HostRelay { devices } = self;
        let Used { devices, given } = to.go_on(rt, devices);
        Used {
            devices: HostRelay { devices },
            given,
        }
    }
}
