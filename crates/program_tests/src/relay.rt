//! The entries that a relay gives out, event by event, for whoever keeps a copy of its memberships.
ghost use Rattle.std.specs.Prelude.{◌≤◌, IfOk, length};
ghost use Rattle.relay_machine.specs.{EventSize.{IsEvent}, declared.settings.Settings.{Settings as SettingsValue}};

use crate::memory::is_out_of_memory;
use amt_values::{Bytes, Ip, Moment, Peer};
use endpoint_membership::{Change, Limits};
use relay_machine::*;
use response_mac::Secret;
use std::alloc::{AllocError, Global};
use std::process::Abort;

// 198.51.100.7.
const GATEWAY: u32 = 0xc633_6407;

const DISCOVERY: &[u8] = b"\x01\x00\x00\x00\x01\x02\x03\x04";

// For IGMP, and by the P flag for MLD.
const REQUEST: &[u8] = b"\x03\x00\x00\x00\x0a\x0b\x0c\x0d";

const REQUEST6: &[u8] = b"\x03\x01\x00\x00\x0a\x0b\x0c\x0d";

// Updates of the gateway at port 5000, with the MAC of the nonce 0a0b0c0d under 32 zero octets, which
// was computed with another implementation, Python's hmac module. This one has no inner datagram.
const EMPTY: &[u8] = b"\x05\x00\x4d\xb7\x58\xa1\x75\x55\x0a\x0b\x0c\x0d";

// 239.1.1.1 is wanted from every source.
const ONE_GROUP: &[u8] =
    b"\x05\x00\x4d\xb7\x58\xa1\x75\x55\x0a\x0b\x0c\x0d\x46\xc0\x00\x28\x00\x00\x00\x00\x01\x02\x39\xf8\x0a\x00\x00\x02\xe0\x00\x00\x16\x94\x04\x00\x00\x22\x00\xeb\xfb\x00\x00\x00\x01\x02\x00\x00\x00\xef\x01\x01\x01";

// The same of port 5001.
const OF_ANOTHER: &[u8] =
    b"\x05\x00\xc9\x2b\x03\x8a\x5c\x0a\x0a\x0b\x0c\x0d\x46\xc0\x00\x28\x00\x00\x00\x00\x01\x02\x39\xf8\x0a\x00\x00\x02\xe0\x00\x00\x16\x94\x04\x00\x00\x22\x00\xeb\xfb\x00\x00\x00\x01\x02\x00\x00\x00\xef\x01\x01\x01";

// Two records: 232.1.1.1 is wanted from every source, and of 224.0.0.251 nothing is.
const TWO_RECORDS: &[u8] =
    b"\x05\x00\x4d\xb7\x58\xa1\x75\x55\x0a\x0b\x0c\x0d\x46\xc0\x00\x30\x00\x00\x00\x00\x01\x02\x39\xf0\x0a\x00\x00\x02\xe0\x00\x00\x16\x94\x04\x00\x00\x22\x00\x10\xff\x00\x00\x00\x02\x02\x00\x00\x00\xe8\x01\x01\x01\x01\x00\x00\x00\xe0\x00\x00\xfb";

// By MLD from fe80::2, 2001:db8::9 is wanted of ff3e::1.
const ONE_SOURCE6: &[u8] =
    b"\x05\x00\x4d\xb7\x58\xa1\x75\x55\x0a\x0b\x0c\x0d\x60\x00\x00\x00\x00\x34\x00\x01\xfe\x80\x00\x00\x00\x00\x00\x00\x00\x00\x00\x00\x00\x00\x00\x02\xff\x02\x00\x00\x00\x00\x00\x00\x00\x00\x00\x00\x00\x00\x00\x16\x3a\x00\x05\x02\x00\x00\x01\x00\x8f\x00\x44\xf9\x00\x00\x00\x01\x01\x00\x00\x01\xff\x3e\x00\x00\x00\x00\x00\x00\x00\x00\x00\x00\x00\x00\x00\x01\x20\x01\x0d\xb8\x00\x00\x00\x00\x00\x00\x00\x00\x00\x00\x00\x09";

// A Teardown of the gateway at port 5000, and one with another MAC.
const TEARDOWN: &[u8] =
    b"\x07\x00\x4d\xb7\x58\xa1\x75\x55\x0a\x0b\x0c\x0d\x13\x88\x00\x00\x00\x00\x00\x00\x00\x00\x00\x00\x00\x00\xc6\x33\x64\x07";

const BAD_TEARDOWN: &[u8] =
    b"\x07\x00\x4d\xb7\x58\xa1\x75\x56\x0a\x0b\x0c\x0d\x13\x88\x00\x00\x00\x00\x00\x00\x00\x00\x00\x00\x00\x00\xc6\x33\x64\x07";

// From 2001:db8::9 to ff3e::1, with nothing after the header.
const PACKET: &[u8] =
    b"\x60\x00\x00\x00\x00\x00\x3b\x04\x20\x01\x0d\xb8\x00\x00\x00\x00\x00\x00\x00\x00\x00\x00\x00\x09\xff\x3e\x00\x00\x00\x00\x00\x00\x00\x00\x00\x00\x00\x00\x00\x01";

// What happens; a datagram comes from the gateway, at this port.
#[derive(Clone, Copy)]
enum Given {
    Time(u64),
    Datagram(u16, &'static [u8]),
    Packet(&'static [u8]),
    Drawn(u8),
}

// An entry that is handed out, with its endpoint's address and port, the number of its records, and its
// moment.
#[derive(Clone, Copy, Debug, PartialEq, Eq)]
enum Entry {
    None,
    Reported(u128, u16, usize, u64),
    Clear(u128, u16, u64),
    Mark(u64),
}

// What is given, and the entry: at moment 1000, where the limits are one endpoint, two groups and one source.
const DAY: [(Given, Entry); 17] = [
    (Given::Time(1000), Entry::Mark(1000)),
    (Given::Time(500), Entry::Mark(1000)),
    (Given::Drawn(0), Entry::None),
    (Given::Datagram(5000, DISCOVERY), Entry::None),
    (Given::Datagram(5000, REQUEST), Entry::None),
    (Given::Datagram(5000, EMPTY), Entry::None),
    (
        Given::Datagram(5000, TWO_RECORDS),
        Entry::Reported(0xc633_6407, 5000, 1, 1000),
    ),
    (
        Given::Datagram(5000, ONE_SOURCE6),
        Entry::Reported(0xc633_6407, 5000, 1, 1000),
    ),
    (Given::Datagram(5000, ONE_GROUP), Entry::None),
    (Given::Datagram(5001, ONE_GROUP), Entry::None),
    (Given::Datagram(5001, OF_ANOTHER), Entry::None),
    (Given::Datagram(5001, REQUEST6), Entry::None),
    (Given::Packet(PACKET), Entry::None),
    (Given::Packet(b""), Entry::None),
    (Given::Datagram(6000, BAD_TEARDOWN), Entry::None),
    (
        Given::Datagram(6000, TEARDOWN),
        Entry::Clear(0xc633_6407, 5000, 1000),
    ),
    (Given::Datagram(6000, TEARDOWN), Entry::None),
];

fn relay(rt: &impl Abort, alloc: Global) -> Result<Relay, AllocError> {
    let mut settings = Settings::of_relay(Ip::V4(0xc000_0201));
    settings.limits = Limits {
        endpoints: 1,
        groups: 2,
        sources: 1,
    };
    assert!(rt; settings.lawful());
    Relay::new(alloc, settings, Secret([0; 32]))
}

fn payload(rt: &impl Abort, alloc: Global, octets: &[u8]) -> Result<Bytes, AllocError>
    ensures { IfOk result (λ bytes. length bytes ≤ 65535) }
{
    assert!(rt; octets.len() <= 65535);
    Bytes::copied(alloc, octets)
}

fn event_of(rt: &impl Abort, alloc: Global, given: Given) -> Result<Event, AllocError>
    ensures { (settings : SettingsValue) → IfOk result (IsEvent settings) }
{
    match given {
        Given::Time(ms) => Ok(Event::Moment(Moment::new(ms).expect(rt, "a moment"))),
        Given::Drawn(octet) => Ok(Event::Rotate(Secret([octet; 32]))),
        Given::Packet(octets) => {
            let bytes = payload(rt, alloc, octets)?;
            Ok(Event::Packet { bytes })
        }
        Given::Datagram(port, octets) => {
            let ip = Ip::V4(GATEWAY);
            let from = Peer { ip, port };
            let bytes = payload(rt, alloc, octets)?;
            Ok(Event::Datagram { from, bytes })
        }
    }
}

fn step_of(
    rt: &impl Abort,
    alloc: Global,
    relay: &mut Relay,
    given: Given,
) -> Result<Step, AllocError> {
    let event = event_of(rt, alloc, given)?;
    relay.step(alloc, &event)
}

fn entry_of(change: &Option<Change>) -> Entry {
    match change {
        None => Entry::None,
        Some(Change::Mark { at }) => Entry::Mark(at.ms()),
        Some(Change::Clear { endpoint, at }) => {
            Entry::Clear(endpoint.address(), endpoint.port(), at.ms())
        }
        Some(
            Change::Reported {
                endpoint,
                records,
                at,
            },
        ) => Entry::Reported(endpoint.address(), endpoint.port(), records.len(), at.ms()),
    }
}

fn gives(
    rt: &impl Abort,
    alloc: Global,
    relay: &mut Relay,
    given: Given,
    entry: Entry,
) -> Result<(), AllocError> {
    let step = step_of(rt, alloc, relay, given)?;
    assert_eq!(rt; entry_of(&step.change), entry, "{:?}", step.outcome);
    Ok(())
}

fn goes_through(rt: &impl Abort, alloc: Global) -> Result<(), AllocError> {
    let mut relay = relay(rt, alloc)?;
    for (given, entry) in DAY {
        gives(rt, alloc, &mut relay, given, entry)?;
    }
    assert!(rt; relay.now().ms() == 1000 && relay.live_endpoints() == 0);
    Ok(())
}

#[test]
fn each_event_has_its_entry(rt: HostRuntime) {
    if goes_through(&rt, rt.alloc()).is_err() {
        is_out_of_memory(&rt, "a relay");
    }
}

fn has_no_cell<T: Sync>() {}

// Contracts don't see what a cell holds, so one could hide what came. What threads may share has no
// `Cell` and no `RefCell`.
#[test]
fn a_relay_has_no_cell(_rt: HostRuntime) {
    has_no_cell::<Relay>();
}
