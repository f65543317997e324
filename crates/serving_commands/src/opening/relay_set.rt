//! The devices of a relay lend themselves.
ghost use Rattle.std.specs.Prelude.{◌≡◌};
ghost use Rattle.serving_commands.specs.{DeviceSets.{relay_seen}, Seen.{is_as_asked}};

use crate::opening::devices::RelayDevices;
use crate::opening::sets::{OnRelay, RelaySet, Used};
use amt_ports::{Clock, Feed, Link, OutLink, Spawner, Words};
use relay_serving::Copies;
use replication_workers::Worker;
use std::sync::Wait;

// Whether there is a control exactly where one is asked for.
fn is_as_asked<T>(asked: bool, control: &Option<T>) -> bool
    ensures { result ≡ is_as_asked asked control.now }
{
    if asked {
        control.is_some()
    } else {
        control.is_none()
    }
}

impl<L, F, C, W, O, P, K, N> RelaySet for RelayDevices<L, F, C, W, O, P, K, N>
where
    L: Link,
    F: Feed,
    C: Clock,
    W: Words,
    O: OutLink + Drop,
    P: Spawner<Worker<O>>,
    K: Link,
    N: Copies,
{
    ghost seen = { relay_seen L.Link F.Feed C.Clock W.Words O.OutLink P.starts P.faults K.Link N.Copies };

    fn is_for(&self, slots: u32, asked: bool) -> bool {
        self.outs.len() == slots as usize && is_as_asked(asked, &self.control)
    }

    fn lend<T: OnRelay, R: Wait>(
        self,
        rt: &R,
        to: T,
    ) -> Used<RelayDevices<L, F, C, W, O, P, K, N>, T::Given> {
        to.go_on(rt, self)
    }
}
