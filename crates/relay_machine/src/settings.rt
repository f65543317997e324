//! What a relay is set up with, by the table of numbers. It knows no script and no file that says it.
ghost use Rattle.std.specs.Prelude.{◌≡◌, ◌≤◌, ◌*◌, ◌↔◌, IsTrue, IsFalse};
ghost use Rattle.endpoint_membership.specs.Limits.{AreWithin};
ghost use Rattle.relay_machine.specs.{declared.number_key.NumberKey.{NumberKey as Key}, Settings.{AreLawfulSettings, HasCode, HasMldCode, HasQueryTimes, IsInKeyRange, default_settings, membership_interval_ms, number_at, with_number}};

use crate::number_key::{NUMBER_KEYS, NumberKey};
use amt_values::Ip;
use endpoint_membership::Limits;
use igmp_records::value_code4;
use mld_records::value_code6;

/// The most sources that the limits may allow in all: endpoints by groups by sources.
pub const SOURCE_LIMIT: u32 = 16_777_216;

/// What a relay is set up with. [`NumberKey::range`] has the range and the default of each number.
#[derive(Clone, Copy, Debug, PartialEq, Eq)]
pub struct Settings {
    /// The address that Advertisements carry.
    pub relay: Ip,
    /// The IPv4 source of General Queries.
    pub query4: u32,
    /// The IPv6 source of General Queries: a link-local address, where hosts are to take them
    /// (RFC 3810, section 5.1.14).
    pub query6: u128,
    /// The Robustness Variable: one more than the reports in a row that may be lost without harm
    /// (RFC 3376, section 8.1).
    pub robustness: u8,
    /// The seconds from one General Query to the next (RFC 3376, section 8.2).
    pub query_seconds: u32,
    /// The tenths of a second within which a listener answers a General Query (RFC 3376, section
    /// 8.3).
    pub response_tenths: u32,
    /// How many secrets the relay keeps, the newest ones: the MACs of each are good (RFC 7450, section
    /// 5.3.6).
    pub secrets: u32,
    /// How much the relay keeps: live tunnel endpoints, groups of one, sources of one group; and at
    /// most 16,777,216 sources in all. Lower ones may be in force for a time.
    pub limits: Limits,
    /// The longest packet that is copied, in octets. A packet of more is dropped, since the tunnel's
    /// datagrams aren't fragmented here.
    pub packet_limit: u32,
    /// Whether the relay serves Linux's own gateways too. Their driver counts the flags' bits from the other
    /// end: it drops a Query with the L or the G flag of RFC 7450, section 5.1.4, so none has one, and asks
    /// for MLD by the second octet `80` (section 5.1.3 has `01`), which is taken so. Without the name that G
    /// announces a gateway isn't told that its endpoint changed, so it sends no Teardown.
    pub linux_gateways: bool,
}

impl Settings {
    /// The settings of a relay with this address: the defaults of RFC 3376, sections 8.1 to 8.3,
    /// and queries that come from 0.0.0.0 and fe80::1. Linux's gateways aren't served.
    pub fn of_relay(relay: Ip) -> Settings
        ensures value { result ≡ default_settings relay }
        ensures lawful { AreLawfulSettings result }
    {
        Settings {
            relay,
            query4: 0,
            query6: 0xfe80_0000_0000_0000_0000_0000_0000_0001,
            robustness: NumberKey::Robustness.range().default as u8,
            query_seconds: NumberKey::QuerySeconds.range().default,
            response_tenths: NumberKey::ResponseTenths.range().default,
            secrets: NumberKey::Secrets.range().default,
            limits: Limits {
                endpoints: NumberKey::Endpoints.range().default,
                groups: NumberKey::Groups.range().default,
                sources: NumberKey::Sources.range().default,
            },
            packet_limit: NumberKey::PacketLimit.range().default,
            linux_gateways: false,
        }
    }

    /// The key's number.
    pub fn number(&self, key: NumberKey) -> u32
        ensures { result ≡ number_at self.now key }
    {
        match key {
            NumberKey::Robustness => u32::from(self.robustness),
            NumberKey::QuerySeconds => self.query_seconds,
            NumberKey::ResponseTenths => self.response_tenths,
            NumberKey::Secrets => self.secrets,
            NumberKey::Endpoints => self.limits.endpoints,
            NumberKey::Groups => self.limits.groups,
            NumberKey::Sources => self.limits.sources,
            NumberKey::PacketLimit => self.packet_limit,
        }
    }

    /// Sets the key's number where it is in the key's range, and answers whether it is.
    pub fn set_number(&mut self, key: NumberKey, number: u32) -> bool
        ensures allowed { IsTrue result ↔ IsInKeyRange key number }
        ensures set { IsTrue result → self.new ≡ with_number self.old key number }
        ensures same { IsFalse result → self.new ≡ self.old }
    {
        if !key.allows(number) {
            return false;
        }
        self.put_number(key, number);
        true
    }

    fn put_number(&mut self, key: NumberKey, number: u32)
        requires { IsInKeyRange key number }
        ensures { self.new ≡ with_number self.old key number }
    {
        match key {
            NumberKey::Robustness => self.robustness = number as u8,
            NumberKey::QuerySeconds => self.query_seconds = number,
            NumberKey::ResponseTenths => self.response_tenths = number,
            NumberKey::Secrets => self.secrets = number,
            NumberKey::Endpoints => self.limits.endpoints = number,
            NumberKey::Groups => self.limits.groups = number,
            NumberKey::Sources => self.limits.sources = number,
            NumberKey::PacketLimit => self.packet_limit = number,
        }
    }

    /// Whether a relay may have these settings: each number is in its range, General Queries can carry
    /// each time as a code, which not every number has (RFC 3376, sections 4.1.1, 4.1.7); those of MLD
    /// carry the response time in milliseconds, by a code of their own (RFC 3810, section 5.1.3); and
    /// the product of the limits bounds the memory.
    pub fn lawful(&self) -> bool
        ensures { IsTrue result ↔ AreLawfulSettings self.now }
    {
        if !self.are_in_range() {
            return false;
        }
        self.has_query_times() && has_lawful_product(&self.limits)
    }

    fn are_in_range(&self) -> bool
        ensures { IsTrue result ↔ ((key : Key) → IsInKeyRange key (number_at self.now key)) }
    {
        for key in NUMBER_KEYS {
            if !key.allows(self.number(key)) {
                return false;
            }
        }
        true
    }

    fn has_query_times(&self) -> bool
        requires { self.now.response_tenths ≤ 31744 }
        ensures { IsTrue result ↔ HasQueryTimes self.now }
    {
        has_code(self.query_seconds)
            && has_code(self.response_tenths)
            && has_mld_code(self.response_tenths * 100)
    }

    /// Whether these limits may be in force at a relay of these settings: each is at least 1, and at
    /// most that of the settings.
    pub fn allows_limits(&self, limits: &Limits) -> bool
        ensures { IsTrue result ↔ AreWithin self.now.limits limits.now }
    {
        self.limits.allow(limits)
    }

    /// How long a membership report counts, in milliseconds (RFC 3376, section 8.4).
    pub fn lifetime_ms(&self) -> u64
        ensures { result ≡ membership_interval_ms self.now }
    {
        let interval = u64::from(self.robustness) * u64::from(self.query_seconds);
        interval * 1000 + u64::from(self.response_tenths) * 100
    }
}

/// Whether General Queries can carry the time, as a code, which not every number has (RFC 3376, sections
/// 4.1.1 and 4.1.7).
pub fn has_code(time: u32) -> bool
    ensures { IsTrue result ↔ HasCode time }
{
    value_code4(time).is_some()
}

fn has_mld_code(time: u32) -> bool
    ensures { IsTrue result ↔ HasMldCode time }
{
    value_code6(time).is_some()
}

fn has_lawful_product(limits: &Limits) -> bool
    requires endpoints { limits.now.endpoints ≤ 65536 }
    requires groups { limits.now.groups ≤ 256 }
    requires sources { limits.now.sources ≤ 64 }
    ensures { IsTrue result
        ↔ (limits.now.endpoints * limits.now.groups * limits.now.sources ≤ 16777216) }
{
    limits.endpoints * limits.groups * limits.sources <= SOURCE_LIMIT
}
