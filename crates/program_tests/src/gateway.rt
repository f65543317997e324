//! Calls that no script shows: what a gateway is about and what it wants.

ghost use Rattle.std.specs.Prelude.{◌≡◌, ◌≤◌, false, length, IfOk};
ghost use Rattle.gateway_machine.specs.{Events.{IsEventOf}, Runs.{settings_of}, declared.settings.GatewaySettings.{GatewaySettings as SettingsValue}};

use amt_values::{Bytes, Ip, Moment, Peer};
use gateway_machine::{Gateway, GatewayEvent, GatewaySettings, GatewayState};
use source_filter::{Filter, Mode};
use std::alloc::{AllocError, Global};
use std::process::Abort;
use std::test::Fail;

const RELAY: Peer = Peer {
    ip: Ip::V4(0xc000_0201),
    port: 2268,
};

// Of IPv4, with 10.0.0.2 as its source.
const SETTINGS: GatewaySettings = GatewaySettings {
    v6: false,
    discovery: RELAY,
    relay: None,
    port: 2268,
    source: Ip::V4(0x0a00_0002),
    linux_relay: false,
};

// An Advertisement of 192.0.2.1 with the nonce 00000001, and a Query with the next one that is answered
// with a General Query every 125 s.
const ADVERTISEMENT: &[u8] = b"\x02\x00\x00\x00\x00\x00\x00\x01\xc0\x00\x02\x01";

const QUERY: &[u8] =
    b"\x04\x00\xa1\xa2\xa3\xa4\xa5\xa6\x00\x00\x00\x02\x46\xc0\x00\x24\x00\x00\x00\x00\x01\x02\x82\x11\xc0\x00\x02\x01\xe0\x00\x00\x01\x94\x04\x00\x00\x11\x64\xec\x1e\x00\x00\x00\x00\x02\x7d\x00\x00";

// What happens; a datagram comes from the relay, and the socket wants all of 239.1.1.1.
#[derive(Clone, Copy)]
enum Given {
    Time(u64),
    Datagram(&'static [u8]),
    Open,
    LeaveAll,
}

// What happens, what the gateway is about then, and whether it wants 10.0.0.1 of 239.1.1.1.
const DAY: [(Given, GatewayState, bool); 6] = [
    (Given::Open, GatewayState::Discovering, true),
    (
        Given::Datagram(ADVERTISEMENT),
        GatewayState::Requesting,
        true,
    ),
    (Given::Datagram(QUERY), GatewayState::Active, true),
    (Given::Time(125_000), GatewayState::Requesting, true),
    (Given::LeaveAll, GatewayState::Requesting, false),
    (Given::Time(445_000), GatewayState::Idle, false),
];

fn payload(rt: &impl Abort, alloc: Global, octets: &[u8]) -> Result<Bytes, AllocError>
    ensures { IfOk result (λ bytes. length bytes ≤ 65535) }
{
    assert!(rt; octets.len() <= 65535);
    Bytes::copied(alloc, octets)
}

fn event_of(rt: &impl Abort, alloc: Global, given: Given) -> Result<GatewayEvent, AllocError>
    ensures { (settings : SettingsValue) → settings.v6 ≡ false → IfOk result (IsEventOf settings) }
{
    match given {
        Given::Time(ms) => Ok(GatewayEvent::Moment(Moment::new(ms).expect(rt, "a moment"))),
        Given::Datagram(octets) => {
            let bytes = payload(rt, alloc, octets)?;
            Ok(GatewayEvent::Datagram { from: RELAY, bytes })
        }
        Given::Open => Ok(GatewayEvent::Open {
            name: Bytes::copied(alloc, b"a")?,
            group: Ip::V4(0xef01_0101),
            filter: Filter::new(alloc, Mode::Exclude, &[])?,
        }),
        Given::LeaveAll => Ok(GatewayEvent::LeaveAll),
    }
}

fn is_about(rt: &impl Abort, gateway: &Gateway, state: GatewayState, wants: bool) {
    assert_eq!(rt; gateway.state(), state);
    assert!(rt;
        gateway.admits(&Ip::V4(0xef01_0101), &Ip::V4(0x0a00_0001)) == wants,
        "{state:?}"
    );
    assert!(rt;
        !gateway.admits(&Ip::V4(0xef01_0102), &Ip::V4(0x0a00_0001)),
        "{state:?}"
    );
}

fn take(
    rt: &impl Abort,
    alloc: Global,
    gateway: &mut Gateway,
    given: Given,
) -> Result<(), AllocError>
    requires { (settings_of gateway.old).v6 ≡ false }
    ensures { (settings_of gateway.new).v6 ≡ false }
{
    let event = event_of(rt, alloc, given)?;
    gateway.step(alloc, &event)?;
    Ok(())
}

fn goes_through(
    rt: &impl Abort,
    alloc: Global,
    gateway: &mut Gateway,
    rows: &[(Given, GatewayState, bool)],
) -> Result<(), AllocError>
    requires { (settings_of gateway.old).v6 ≡ false }
    ensures { (settings_of gateway.new).v6 ≡ false }
{
    for (given, state, wants) in rows {
        take(rt, alloc, gateway, *given)?;
        is_about(rt, gateway, *state, *wants);
    }
    Ok(())
}

#[test]
fn a_gateway_shows_its_state_and_what_it_wants(rt: HostRuntime) -> Result<(), Fail> {
    let mut gateway = Gateway::new(rt.alloc(), SETTINGS, 1)?;
    is_about(&rt, &gateway, GatewayState::Idle, false);
    goes_through(&rt, rt.alloc(), &mut gateway, &DAY)?;
    Ok(())
}

fn has_no_cell<T: Sync>() {}

// Contracts don't see what a cell holds, so one could hide what came. What threads may share has no
// `Cell` and no `RefCell`.
#[test]
fn a_gateway_has_no_cell(_rt: HostRuntime) {
    has_no_cell::<Gateway>();
}
