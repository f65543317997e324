//! What the types of settings, peers and events say of their numbers, for contracts.

ghost use Rattle.std.specs.Prelude.{◌<◌, ◌^◌, All};
ghost use Rattle.amt_values.specs.Address.{IsAddress};
ghost use Rattle.amt_pair.specs.{Events.{IsEvent, IsFilter}, Queries.{HasQuerySources}, Schedule.{FitsItsType}, Setup.{IsPeer}};

use crate::event::PairEvent;
use amt_values::{Ip, Peer, wire16};
use gateway_machine::GatewayEvent;
use relay_machine::Settings;
use source_filter::Filter;

/// A contract knows the range of a number once it is read.
pub fn settings_fit(settings: &Settings)
    ensures queries { HasQuerySources settings.now }
    ensures relay { IsAddress settings.now.relay }
{
    let _query4 = settings.query4;
    let _query6 = settings.query6;
    let _relay = wire16(&settings.relay);
}

/// The same of a peer.
pub fn peer_fits(peer: &Peer)
    ensures { IsPeer peer.now }
{
    let _address = wire16(&peer.ip);
    let _port = peer.port;
}

fn nonce_fits(nonce: u32)
    ensures { nonce < 2 ^ 32 }
{}

fn addresses_fit(sources: &[Ip])
    ensures { All IsAddress sources.now }
{
    for source in sources {
        let _address = wire16(source);
    }
}

fn filter_fits(filter: &Filter)
    ensures { IsFilter filter.now }
{
    addresses_fit(filter.sources());
}

/// The same of a gateway's event: a filter's sources are addresses, and ascend.
pub fn gateway_event_fits(event: &GatewayEvent)
    ensures { IsEvent event.now }
{
    match event {
        GatewayEvent::Moment(_) => {}
        GatewayEvent::Nonce(nonce) => nonce_fits(*nonce),
        GatewayEvent::Datagram { .. } => {}
        GatewayEvent::Open { filter, .. } => filter_fits(filter),
        GatewayEvent::Change { filter, .. } => filter_fits(filter),
        GatewayEvent::Close { .. } => {}
        GatewayEvent::LeaveAll => {}
    }
}

/// The same of a pair's event.
pub fn pair_event_fits(event: &PairEvent)
    ensures { FitsItsType event.now }
{
    match event {
        PairEvent::Moment(_) => {}
        PairEvent::Rotate(_) => {}
        PairEvent::Packet { .. } => {}
        PairEvent::Socket { event, .. } => gateway_event_fits(event),
        PairEvent::Up(_) => {}
        PairEvent::Down(_) => {}
    }
}
