//! Keys whose values are peers that have to be on the loopback. It knows no key.

ghost use Rattle.std.specs.Prelude.{◌≡◌, IfOk, IfErr, OnOk};
ghost use Rattle.toml.specs.View.{table_view};
ghost use Rattle.amt_config.specs.{FileKey.{word_of}, Key.{HasOptional, IsRight, a_guarded_peer, optional}, Loopback.{IsGuardedText, is_loopback, may_be_at}, Reading.{MayFail}};

use crate::fault::{ConfigFault, KeyFault, told};
use crate::forms::Place;
use crate::key::FileKey;
use crate::texts::optional;
use amt_values::{Ip, Peer};
use std::alloc::Global;
use toml::Table;

fn is_loopback(ip: Ip) -> bool
    ensures { result ≡ is_loopback ip }
{
    match ip {
        Ip::V4(number) => number >> 24 == 127,
        Ip::V6(number) => number == 1,
    }
}

fn may_be_at(anywhere: bool, ip: Ip) -> bool
    ensures { result ≡ may_be_at anywhere ip }
{
    anywhere || is_loopback(ip)
}

/// The peer of a key, if the key is there: on the loopback, unless it may be anywhere.
pub fn guarded_at(
    alloc: Global,
    table: &Table,
    key: FileKey,
    anywhere: bool,
) -> Result<Option<Peer>, ConfigFault>
    ensures found { IfOk result (HasOptional (word_of key) (table_view table.now) (IsGuardedText anywhere)) }
    ensures right { OnOk result (IsRight (table_view table.now) (optional (word_of key) (a_guarded_peer anywhere))) }
    ensures fault { IfErr result (MayFail (table_view table.now) (optional (word_of key) (a_guarded_peer anywhere))) }
{
    let peer = match optional(alloc, table, key, &Place) {
        Ok(Some(peer)) => peer,
        Ok(None) => return Ok(None),
        Err(fault) => return Err(fault),
    };
    if !may_be_at(anywhere, peer.ip) {
        return Err(told(alloc, key, KeyFault::Loopback));
    }
    Ok(Some(peer))
}
