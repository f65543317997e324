//! What an event is answered by.

ghost use Rattle.std.proofs.Props.{props};
ghost use Rattle.gateway_machine.specs.{Settings.{HasSourceOfFamily}, State.{AreOfSettings, IsAtMoment}};

use crate::exchange::Exchange;
use crate::settings::GatewaySettings;
use socket_merge::Sockets;

/// A gateway as it stands before an event. Reports go out from an address of the gateway's family, as its sockets'
/// groups are, and no socket call is later than the exchange's moment.
#[derive(Clone, Copy)]
pub struct Situation<'a> {
    pub settings: GatewaySettings,
    pub exchange: Exchange,
    pub sockets: &'a Sockets,
    ghost source: { HasSourceOfFamily settings } by { Prim.hlevel props },
    ghost at_moment: { IsAtMoment exchange sockets.now } by { Prim.hlevel props },
    ghost of_settings: { AreOfSettings settings sockets.now } by { Prim.hlevel props },
}
