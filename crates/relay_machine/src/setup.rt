//! A relay's settings, and the General Queries that follow from them. It knows no Request.
ghost use Rattle.std.specs.Prelude.{◌≡◌, ◌≤◌, true, false};
ghost use Rattle.igmp_records.specs.Code.{code_of};
ghost use Rattle.mld_records.specs.Code.{code_of as mld_code_of};
ghost use Rattle.relay_machine.specs.{Queries.{query_fields}, Settings.{HasCode, HasMldCode}};

use crate::settings::Settings;
use amt_messages::Message;
use amt_values::{Bytes, Endpoint};
use igmp_records::{value_code4, write_query4};
use inner_datagrams::{write_inner4, write_inner6};
use mld_records::{value_code6, write_query6};
use response_mac::MacKey;
use source_filter::QueryFields;
use std::alloc::{AllocError, Global};

// 224.0.0.1 (RFC 3376, section 4.1.12).
const ALL_SYSTEMS: u32 = 0xe000_0001;

// ff02::1 (RFC 3810, section 5.1.15).
const ALL_NODES: u128 = 0xff02_0000_0000_0000_0000_0000_0000_0001;

// The P flag of a Request as Linux's driver writes it.
const LINUX_P: u8 = 0x80;

/// The settings of a relay, and by them the fields of its General Queries of both families: the codes
/// of their times are found once, and not again at each Request.
#[derive(Clone, Copy, Debug)]
pub struct Setup {
    pub settings: Settings,
    pub igmp: QueryFields,
    pub mld: QueryFields,
    ghost igmp_of_settings: { igmp ≡ query_fields settings false },
    ghost mld_of_settings: { mld ≡ query_fields settings true },
    ghost code_fits: { igmp.max_code ≤ 255 },
    ghost robustness_fits: { settings.robustness ≤ 7 },
    ghost packets_fit: { settings.packet_limit ≤ 65000 },
    ghost endpoints_fit: { settings.limits.endpoints ≤ 65536 },
}

impl Setup {
    ghost use Rattle.std.specs.Prelude.{IfOk};
    ghost use Rattle.amt_messages.specs.Messages.{IsSendable};
    ghost use Rattle.relay_machine.specs.{Queries.{asks_for_mld, gateway_named, general_query, query_for, says_limited}, Settings.{AreLawfulSettings}};

    pub fn new(settings: Settings) -> Setup
        requires { AreLawfulSettings settings }
        ensures { result.settings ≡ settings }
    {
        let igmp = QueryFields {
            max_code: u16::from(code_of(settings.response_tenths)),
            robustness: settings.robustness,
            interval_code: code_of(settings.query_seconds),
        };
        let mld = QueryFields {
            max_code: mld_code_of(settings.response_tenths * 100),
            ..igmp
        };
        Setup {
            settings,
            igmp,
            mld,
        }
    }

    fn igmp_query(&self, alloc: Global) -> Result<Bytes, AllocError>
        ensures { IfOk result (λ inner. inner ≡ general_query self.now.settings false) }
    {
        let query = write_query4(alloc, &self.igmp)?;
        write_inner4(alloc, self.settings.query4, ALL_SYSTEMS, query.as_slice())
    }

    fn mld_query(&self, alloc: Global) -> Result<Bytes, AllocError>
        ensures { IfOk result (λ inner. inner ≡ general_query self.now.settings true) }
    {
        let source = self.settings.query6;
        let query = write_query6(alloc, source, ALL_NODES, &self.mld)?;
        write_inner6(alloc, source, ALL_NODES, query.as_slice())
    }

    /// Whether a Request of these octets, whose P flag is given, asks for MLD.
    pub fn asks_for_mld(&self, octets: &[u8], p_flag: bool) -> bool
        ensures { result ≡ asks_for_mld self.now.settings octets.now p_flag }
    {
        p_flag || self.settings.linux_gateways && octets.len() > 1 && octets[1] == LINUX_P
    }

    fn gateway_named(&self, source: Endpoint) -> Option<Endpoint>
        ensures { result ≡ gateway_named self.now.settings source }
    {
        if self.settings.linux_gateways {
            None
        } else {
            Some(source)
        }
    }

    fn says_limited(&self, limited: bool) -> bool
        ensures { result ≡ says_limited self.now.settings limited }
    {
        limited && !self.settings.linux_gateways
    }

    /// The Query that answers a source's Request under this key, for MLD where `v6` is true.
    pub fn query_for(
        &self,
        alloc: Global,
        key: &MacKey,
        v6: bool,
        limited: bool,
        source: Endpoint,
        nonce: u32,
    ) -> Result<Message, AllocError>
        ensures value { IfOk result
            (λ query. query ≡ query_for self.now.settings key.now v6 limited source nonce) }
        ensures sendable { IfOk result IsSendable }
    {
        let inner = match v6 {
            true => self.mld_query(alloc)?,
            false => self.igmp_query(alloc)?,
        };
        Ok(Message::Query {
            limited: self.says_limited(limited),
            mac: key.mac(&source, nonce),
            nonce,
            inner,
            seen: self.gateway_named(source),
        })
    }
}

fn code_of(time: u32) -> u8
    requires { HasCode time }
    ensures { result ≡ code_of time }
{
    value_code4(time).unwrap()
}

fn mld_code_of(time: u32) -> u16
    requires { HasMldCode time }
    ensures { result ≡ mld_code_of time }
{
    value_code6(time).unwrap()
}
