//! Calls of a pair that no script shows: gateways that are refused. A script with such a gateway is none.

use crate::memory::is_out_of_memory;
use amt_pair::{Pair, PairEvent, PairFault, PairStep, Part};
use amt_values::{Ip, Moment, Peer};
use relay_machine::Settings;
use response_mac::Secret;
use std::alloc::{AllocError, Global};
use std::process::Abort;

// A gateway of this name, which the relay sees as 198.51.100.7 at this port, and what comes of adding it.
const GATEWAYS: [(&[u8], u16, Result<(), PairFault>); 5] = [
    (b"g", 5000, Ok(())),
    (b"g", 5001, Err(PairFault::Taken)),
    (b"h", 5000, Err(PairFault::Taken)),
    (b"h", 5001, Ok(())),
    (b"h", 5001, Err(PairFault::Taken)),
];

fn is_added(
    rt: &impl Abort,
    alloc: Global,
    pair: &mut Pair,
    gateway: (&[u8], u16, Result<(), PairFault>),
) {
    let (name, port, answer) = gateway;
    let peer = Peer {
        ip: Ip::V4(0xc633_6407),
        port,
    };
    let added = pair.add(alloc, name, peer, false, false, Ip::V4(0x0a00_0002));
    assert_eq!(rt; added, answer, "{name:?} {port}");
}

fn is_of(part: &Part, name: &[u8]) -> bool {
    match part {
        Part::Gateway { name: own, .. } => own.as_slice() == name,
        _ => false,
    }
}

// A moment came to the relay, to g and to h.
fn came_to_both(step: &PairStep) -> bool {
    match step.parts.as_slice() {
        [Part::Relay(_), first, second] => is_of(first, b"g") && is_of(second, b"h"),
        _ => false,
    }
}

// The pair has the gateways g and h alone, no datagram was sent, and there is no membership.
fn has_both(rt: &impl Abort, alloc: Global, pair: &mut Pair) -> Result<(), AllocError> {
    let at = Moment::new(0).expect(rt, "a moment");
    let step = pair.step(alloc, &PairEvent::Moment(at))?;
    assert!(rt; came_to_both(&step) && step.up == 0 && step.down == 0);
    let rows = pair.rows(alloc)?;
    assert!(rt; rows.as_slice().is_empty());
    Ok(())
}

fn goes_on(rt: &impl Abort, alloc: Global) -> Result<(), AllocError> {
    let settings = Settings::of_relay(Ip::V4(0xc000_0201));
    let mut pair = Pair::new(alloc, settings, Secret([0; 32]))?;
    for gateway in GATEWAYS {
        is_added(rt, alloc, &mut pair, gateway);
    }
    has_both(rt, alloc, &mut pair)
}

#[test]
fn a_gateway_of_a_taken_name_or_peer_is_refused_and_changes_nothing(rt: HostRuntime) {
    if goes_on(&rt, rt.alloc()).is_err() {
        is_out_of_memory(&rt, "a pair of two gateways");
    }
}
