//! The devices of a gateway lend themselves.
ghost use Rattle.serving_commands.specs.DeviceSets.{gateway_seen};

use crate::opening::devices::GatewayDevices;
use crate::opening::sets::{GatewaySet, OnGateway, Used};
use amt_ports::{Clock, Link, OutLink, Words};

impl<L: Link, K: Link, O: OutLink, C: Clock, W: Words> GatewaySet
    for GatewayDevices<L, K, O, C, W> {
    ghost seen = { gateway_seen L.Link K.Link O.OutLink C.Clock W.Words };

    fn lend<T: OnGateway>(self, to: T) -> Used<GatewayDevices<L, K, O, C, W>, T::Given> {
        to.go_on(self)
    }
}
