//! What an event came to, in words that the scripts print.
use amt_messages::Refused;
use amt_values::{Ip, Moment};
use endpoint_membership::LimitFault;
use inner_datagrams::{HeadFault, InnerFault};
use source_filter::ReportFault;

/// Why an Update carries no membership report: the datagram is judged before what it carries.
#[derive(Clone, Copy, Debug, PartialEq, Eq)]
pub enum Unlawful {
    /// The inner octets are no datagram that carries membership messages.
    Inner(InnerFault),
    /// What the inner datagram carries is no membership report.
    Report(ReportFault),
}

/// Why a packet is copied to nobody, whoever wants its group: its head is read before its scope is
/// judged.
#[derive(Clone, Copy, Debug, PartialEq, Eq)]
pub enum NotForwarded {
    /// The octets begin with no header that names a source and a group.
    Head(HeadFault),
    /// The destination is no multicast group, or one whose packets stay on their link.
    Scope(Ip),
}

/// What an event came to. A datagram is judged by its source, then by its octets, then by its type;
/// an Update by its MAC, then by the report in it, then by the limits in force; a Teardown by its MAC
/// for the tunnel endpoint that it names, whatever its source. A packet is judged by its length, then
/// by its head, then by its group's scope.
#[derive(Clone, Copy, Debug, PartialEq, Eq)]
pub enum Outcome {
    /// The relay's moment, from now on.
    Moved(Moment),
    /// A secret became the current one.
    Rotated,
    /// Other limits are in force.
    Resized,
    /// The source is an IPv6 address in ::/96 or ::ffff:0:0/96, which stand for IPv4 addresses
    /// (RFC 4291, section 2.5.5).
    BadSource,
    /// The octets are no message.
    Undecoded(Refused),
    /// A message of this type is for gateways.
    WrongKind(u8),
    /// A Discovery was answered.
    Advertised,
    /// A Request was answered, for MLD where `v6` is true, its P flag (RFC 7450, section 5.1.3).
    /// Where `limited` is true, the Query says by its L flag that new tunnel endpoints find no room
    /// (section 5.1.4).
    Queried { v6: bool, limited: bool },
    /// The response MAC of an Update or a Teardown is not one that the relay gave the source of the
    /// Update, or the endpoint that the Teardown names, for its nonce lately (RFC 7450, section
    /// 5.3.3).
    BadMac,
    /// An Update with a good MAC carries no membership report.
    Unlawful(Unlawful),
    /// With the report of an Update the memberships would pass a limit in force at the relay, and be
    /// more than without it.
    Over(LimitFault),
    /// The report of an Update was accepted.
    Updated,
    /// Every group of the endpoint that a Teardown names was taken away.
    TornDown,
    /// A Teardown names an endpoint without a membership.
    NoTunnel,
    /// A packet went to so many endpoints: those that want its source in its group (RFC 7450, section
    /// 5.3.3).
    Copied(u32),
    /// A packet of so many octets is longer than the relay copies.
    TooBig(u32),
    /// A packet that no relay forwards.
    NotForwarded(NotForwarded),
}
