//! What settings files say. It knows no text.

ghost use Rattle.std.specs.Prelude.{◌≡◌};
ghost use Rattle.amt_config.specs.Relay.{settings_of};

use amt_values::{Bytes, Ip, Items, Peer};
use endpoint_membership::Limits;
use relay_machine::Settings;
use source_filter::Filter;

/// What the file of a relay says: a field for each key.
#[derive(Clone, Copy, Debug, PartialEq, Eq)]
pub struct RelayConfig {
    /// The address that Advertisements carry.
    pub relay: Ip,
    /// Where the relay takes and sends AMT messages.
    pub listen: Peer,
    /// Where it takes multicast packets.
    pub feed: Peer,
    /// Whether the relay may take control lines at any address, or on the loopback alone.
    pub control_anywhere: bool,
    /// Where the relay takes the lines by which it is asked.
    pub control: Option<Peer>,
    /// The IPv4 source of General Queries.
    pub query4: u32,
    /// The IPv6 source of General Queries.
    pub query6: u128,
    pub robustness: u8,
    pub query_seconds: u32,
    pub response_tenths: u32,
    pub endpoints: u32,
    pub groups: u32,
    pub sources: u32,
    pub packet_limit: u32,
    /// The seconds from one secret to the next.
    pub rotate_seconds: u32,
    /// How many of the newest secrets' response MACs the relay accepts.
    pub secrets: u32,
    /// The threads that copy packets; with 0 the relay's own thread does.
    pub workers: u32,
    /// Whether the relay serves Linux's own gateways too.
    pub linux_gateways: bool,
    /// The least seconds from one line of counts on standard error to the next; with 0 there is none.
    pub report_seconds: u32,
}

impl RelayConfig {
    /// The settings of the relay itself.
    pub fn settings(&self) -> Settings
        ensures { result ≡ settings_of self.now }
    {
        Settings {
            relay: self.relay,
            query4: self.query4,
            query6: self.query6,
            robustness: self.robustness,
            query_seconds: self.query_seconds,
            response_tenths: self.response_tenths,
            secrets: self.secrets,
            limits: Limits {
                endpoints: self.endpoints,
                groups: self.groups,
                sources: self.sources,
            },
            packet_limit: self.packet_limit,
            linux_gateways: self.linux_gateways,
        }
    }
}

/// A socket that a gateway opens first.
#[derive(Debug, Drop)]
pub struct Join {
    pub name: Bytes,
    pub group: Ip,
    pub filter: Filter,
}

/// Joins in the order in which they are opened.
pub type Joins = Items<Join>;

/// What the file of a gateway says: a field for each key.
#[derive(Debug, Drop)]
pub struct GatewayConfig {
    /// Whether the gateway's groups are of IPv6, or of IPv4: the `family`.
    pub v6: bool,
    /// Where the gateway takes and sends AMT messages.
    pub listen: Peer,
    /// Where it hands packets on to.
    pub deliver: Peer,
    /// Where it takes the lines that make socket calls.
    pub control: Peer,
    /// Where Discoveries go.
    pub discovery: Peer,
    /// The source of the datagrams that carry reports.
    pub source: Ip,
    /// The relay, where it is known without a discovery.
    pub relay: Option<Peer>,
    /// The port of a relay that an Advertisement names by its address alone.
    pub port: u16,
    /// Whether the relay is Linux's own.
    pub linux_relay: bool,
    /// The least seconds from one line of counts on standard error to the next; with 0 there is none.
    pub report_seconds: u32,
    pub joins: Joins,
}
