//! What a run needs of its devices: that they are one value, which lends them to the run.
//!
//! A set shows what its devices tell themselves. `lend` must hold for every `OnRelay`, of which a set knows nothing: so
//! only `go_on` can give what `comes` claims, and only of what the lent devices show.
ghost use Rattle.std.specs.Prelude.{◌≡◌};
ghost use Rattle.gateway_serving.specs.Devices.{Devices};
ghost use Rattle.serving_commands.specs.{DeviceSets.{gateway_seen, relay_seen}, Seen.{RelaySeen, is_set_for}};

use crate::opening::devices::{GatewayDevices, RelayDevices};
use amt_ports::{Clock, Feed, Link, OutLink, Spawner, Words};
use relay_serving::Copies;
use replication_workers::Worker;
use std::sync::Wait;

/// What is left where something went on devices.
pub struct Used<D, T> {
    /// The devices, as it left them.
    pub devices: D,
    /// What it gives.
    pub given: T,
}

/// What goes on a relay's devices, of whatever types they are.
pub trait OnRelay {
    type Given;

    /// On which devices it may go, by what they tell.
    ghost may: { Self → RelaySeen → Type 0 };

    /// What it gives, by what they tell before and after.
    ghost comes: { Self → RelaySeen → RelaySeen → Self.Given → Type 0 };

    /// Goes on these devices. It may wait for other threads.
    fn go_on<L, F, C, W, O, P, K, N, R>(
        self,
        rt: &R,
        devices: RelayDevices<L, F, C, W, O, P, K, N>,
    ) -> Used<RelayDevices<L, F, C, W, O, P, K, N>, Self::Given>
    where
        L: Link,
        F: Feed,
        C: Clock,
        W: Words,
        O: OutLink + Drop,
        P: Spawner<Worker<O>>,
        K: Link,
        N: Copies,
        R: Wait,
        requires { may self (relay_seen L.Link F.Feed C.Clock W.Words O.OutLink P.starts P.faults K.Link N.Copies devices) }
        ensures { comes self (relay_seen L.Link F.Feed C.Clock W.Words O.OutLink P.starts P.faults K.Link N.Copies devices)
            (relay_seen L.Link F.Feed C.Clock W.Words O.OutLink P.starts P.faults K.Link N.Copies result.devices) result.given };
}

/// What a relay runs on.
pub trait RelaySet {
    /// What is seen of its devices.
    ghost seen: { Self → RelaySeen };

    /// Whether there is a link out for each of so many slots, and a control exactly where one is asked for.
    fn is_for(&self, slots: u32, asked: bool) -> bool
        ensures { result ≡ is_set_for slots asked (seen self.now) };

    /// Lends its devices, once.
    fn lend<T: OnRelay, R: Wait>(self, rt: &R, to: T) -> Used<Self, T::Given>
        requires { T.may to (seen self) }
        ensures { T.comes to (seen self) (seen result.devices) result.given };
}

/// What goes on a gateway's devices, of whatever types they are.
pub trait OnGateway {
    type Given;

    /// On which devices it may go, by what they tell.
    ghost may: { Self → Devices → Type 0 };

    /// What it gives, by what they tell before and after.
    ghost comes: { Self → Devices → Devices → Self.Given → Type 0 };

    /// Goes on these devices.
    fn go_on<L: Link, K: Link, O: OutLink, C: Clock, W: Words>(
        self,
        devices: GatewayDevices<L, K, O, C, W>,
    ) -> Used<GatewayDevices<L, K, O, C, W>, Self::Given>
        requires { may self (gateway_seen L.Link K.Link O.OutLink C.Clock W.Words devices) }
        ensures { comes self (gateway_seen L.Link K.Link O.OutLink C.Clock W.Words devices) (gateway_seen L.Link K.Link O.OutLink C.Clock W.Words result.devices) result.given };
}

/// What a gateway runs on.
pub trait GatewaySet {
    /// What is seen of its devices.
    ghost seen: { Self → Devices };

    /// Lends its devices, once.
    fn lend<T: OnGateway>(self, to: T) -> Used<Self, T::Given>
        requires { T.may to (seen self) }
        ensures { T.comes to (seen self) (seen result.devices) result.given };
}
