//! What a gateway is set up with. It knows no script and no file that says it.
ghost use Rattle.std.specs.Prelude.{◌↔◌, IsTrue};
ghost use Rattle.gateway_machine.specs.Settings.{HasSourceOfFamily};

use amt_values::{Ip, Peer};

/// What a gateway is set up with.
#[derive(Clone, Copy, Debug, PartialEq, Eq)]
pub struct GatewaySettings {
    /// Whether the gateway's groups are of IPv6, with MLDv2, or of IPv4, with IGMPv3.
    pub v6: bool,
    /// Where Discoveries go (RFC 7450, section 5.2.3.4.2): the relay discovery address and the port.
    pub discovery: Peer,
    /// The relay, where it is known without a discovery.
    pub relay: Option<Peer>,
    /// The port of a relay that an Advertisement names by its address alone.
    pub port: u16,
    /// The source of the datagrams that carry reports: an address of the gateway's family.
    pub source: Ip,
    /// Whether the relay is Linux's own, whose driver counts the flags' bits from the other end: a Request for
    /// MLD then has the second octet `80`, where RFC 7450, section 5.1.3, has `01`; one for IGMP stays. At
    /// another relay that doesn't serve Linux's gateways, groups of IPv6 then get nothing.
    pub linux_relay: bool,
}

impl GatewaySettings {
    /// Whether a gateway may have these settings: its reports go out from an address of its family, as its
    /// groups are.
    pub fn lawful(&self) -> bool
        ensures { IsTrue result ↔ HasSourceOfFamily self.now }
    {
        match self.source {
            Ip::V4(_) => !self.v6,
            Ip::V6(_) => self.v6,
        }
    }
}
