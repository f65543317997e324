//! Calls of gateways of both families that no script shows: first nonces that wrap, a datagram that neither machine
//! takes, and gateways that are refused.

ghost use Rattle.std.specs.Prelude.{◌≡◌, Bool};
ghost use Rattle.amt_dual.specs.Answers.{settings_at};

use crate::memory::is_out_of_memory;
use amt_dual::{Dual, DualEvent, DualFault, DualPair, DualPairEvent, DualPart, DualStep};
use amt_values::{Bytes, Ip, Moment, Peer};
use gateway_machine::{GatewayOutcome, GatewaySettings, GatewayStep};
use gateway_script::read_socket_line;
use relay_machine::Settings;
use response_mac::Secret;
use std::alloc::{AllocError, Global};
use std::process::Abort;

const RELAY: Peer = Peer {
    ip: Ip::V4(0xc000_0201),
    port: 2268,
};

// The machines, with 10.0.0.2 and fe80::2 as their sources.
const IPV4: GatewaySettings = GatewaySettings {
    v6: false,
    discovery: RELAY,
    relay: None,
    port: 2268,
    source: Ip::V4(0x0a00_0002),
    linux_relay: false,
};

const IPV6: GatewaySettings = GatewaySettings {
    v6: true,
    discovery: RELAY,
    relay: None,
    port: 2268,
    source: Ip::V6(0xfe80_0000_0000_0000_0000_0000_0000_0002),
    linux_relay: false,
};

// The nonce that a dual gateway is made with, and the first Discovery of each machine.
const NONCES: [(u32, &[u8], &[u8]); 3] = [
    (
        0x8000_0000,
        b"\x01\x00\x00\x00\x80\x00\x00\x00",
        b"\x01\x00\x00\x00\x00\x00\x00\x00",
    ),
    (
        1,
        b"\x01\x00\x00\x00\x00\x00\x00\x01",
        b"\x01\x00\x00\x00\x80\x00\x00\x01",
    ),
    (
        0xffff_ffff,
        b"\x01\x00\x00\x00\xff\xff\xff\xff",
        b"\x01\x00\x00\x00\x7f\xff\xff\xff",
    ),
];

// A gateway of this name, which the relay sees as 198.51.100.7 at this port, and what comes of adding it.
const GATEWAYS: [(&[u8], u16, Result<(), DualFault>); 5] = [
    (b"g", 5000, Ok(())),
    (b"g", 5001, Err(DualFault::Taken)),
    (b"h", 5000, Err(DualFault::Taken)),
    (b"h", 5001, Ok(())),
    (b"h", 5001, Err(DualFault::Taken)),
];

// What the socket call comes to, which the machine of this family takes.
fn call(alloc: Global, dual: &mut Dual, v6: bool, line: &[u8]) -> Result<DualStep, AllocError>
    requires { (family : Bool) → (settings_at dual.old family).v6 ≡ family }
    ensures { (family : Bool) → (settings_at dual.new family).v6 ≡ family }
{
    let Ok(event) = read_socket_line(alloc, v6, line) else {
        return Err(AllocError);
    };
    dual.step(alloc, &DualEvent::Socket { v6, event })
}

fn sends(step: &Option<GatewayStep>, octets: &[u8]) -> bool {
    match step {
        Some(step) => match step.sends.as_slice() {
            [send] => send.bytes.as_slice() == octets,
            _ => false,
        },
        None => false,
    }
}

fn is_ignored(step: &Option<GatewayStep>) -> bool {
    match step {
        Some(step) => match step.outcome {
            GatewayOutcome::Ignored(_) => true,
            _ => false,
        },
        None => false,
    }
}

// Each machine begins with its own nonce, neither takes part in a call of the other, and what neither takes comes to both.
fn goes_on(rt: &impl Abort, alloc: Global, nonces: (u32, &[u8], &[u8])) -> Result<(), AllocError> {
    let (nonce, first, second) = nonces;
    let mut dual = Dual::new(alloc, IPV4, IPV6, nonce)?;
    let step = call(alloc, &mut dual, false, b"open a 239.1.1.1 exclude")?;
    assert!(rt; sends(&step.v4, first) && step.v6.is_none() && !step.starved);
    let step = call(
        alloc,
        &mut dual,
        true,
        b"open b ff3e::1 include 2001:db8::9",
    )?;
    assert!(rt; step.v4.is_none() && sends(&step.v6, second) && !step.starved);
    let bytes = Bytes::copied(alloc, b"\x02")?;
    let step = dual.step(alloc, &DualEvent::Datagram { from: RELAY, bytes })?;
    assert!(rt; is_ignored(&step.v4) && is_ignored(&step.v6) && !step.starved);
    admits_both(rt, &dual);
    Ok(())
}

// It admits what either machine does, and nothing else.
fn admits_both(rt: &impl Abort, dual: &Dual) {
    let sender = Ip::V6(0x2001_0db8_0000_0000_0000_0000_0000_0009);
    let other = Ip::V6(0x2001_0db8_0000_0000_0000_0000_0000_000a);
    let group = Ip::V6(0xff3e_0000_0000_0000_0000_0000_0000_0001);
    assert!(rt; dual.admits(&Ip::V4(0xef01_0101), &Ip::V4(0x0a00_0001)));
    assert!(rt; !dual.admits(&Ip::V4(0xef01_0102), &Ip::V4(0x0a00_0001)));
    assert!(rt; dual.admits(&group, &sender) && !dual.admits(&group, &other));
}

fn is_added(
    rt: &impl Abort,
    alloc: Global,
    pair: &mut DualPair,
    gateway: (&[u8], u16, Result<(), DualFault>),
) {
    let (name, port, answer) = gateway;
    let peer = Peer {
        ip: Ip::V4(0xc633_6407),
        port,
    };
    let source6 = 0xfe80_0000_0000_0000_0000_0000_0000_0002;
    let added = pair.add(alloc, name, peer, 0x0a00_0002, source6);
    assert_eq!(rt; added, answer, "{name:?} {port}");
}

fn is_of(part: &DualPart, name: &[u8], family: bool) -> bool {
    match part {
        DualPart::Gateway { name: own, v6, .. } => own.as_slice() == name && *v6 == family,
        _ => false,
    }
}

// A moment came to the relay, and to both machines of g and of h.
fn came_to_all(parts: &[DualPart]) -> bool {
    match parts {
        [DualPart::Relay(_), g4, g6, h4, h6] => {
            is_of(g4, b"g", false)
                && is_of(g6, b"g", true)
                && is_of(h4, b"h", false)
                && is_of(h6, b"h", true)
        }
        _ => false,
    }
}

// The gateways that are refused change nothing: a moment comes to those that were added, and nothing was sent.
fn adds_two(rt: &impl Abort, alloc: Global) -> Result<(), AllocError> {
    let settings = Settings::of_relay(Ip::V4(0xc000_0201));
    let mut pair = DualPair::new(alloc, settings, Secret([0; 32]))?;
    for gateway in GATEWAYS {
        is_added(rt, alloc, &mut pair, gateway);
    }
    let at = Moment::new(0).expect(rt, "a moment");
    let step = pair.step(alloc, &DualPairEvent::Moment(at))?;
    assert!(rt; came_to_all(step.parts.as_slice()) && step.up == 0 && step.down == 0);
    let rows = pair.rows(alloc)?;
    assert!(rt; rows.as_slice().is_empty());
    Ok(())
}

#[test]
fn each_machine_begins_with_its_own_nonce(rt: HostRuntime) {
    for nonces in NONCES {
        if goes_on(&rt, rt.alloc(), nonces).is_err() {
            is_out_of_memory(&rt, "a gateway of both families");
        }
    }
}

#[test]
fn a_dual_gateway_of_a_taken_name_or_peer_is_refused_and_changes_nothing(rt: HostRuntime) {
    if adds_two(&rt, rt.alloc()).is_err() {
        is_out_of_memory(&rt, "a pair of two dual gateways");
    }
}
