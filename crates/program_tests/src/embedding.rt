//! The examples of the READMEs of relay_machine and gateway_machine.

use amt_values::{Bytes, Ip, Moment, Peer};
use gateway_machine::{Gateway, GatewayEvent, GatewaySettings};
use relay_machine::{Event, Relay, Settings};
use response_mac::Secret;
use source_filter::{Filter, Mode};
use std::test::Fail;

// The example of the README of `relay_machine`, line by line.
#[test]
fn a_relay_is_made_stepped_and_its_sends_are_read(rt: HostRuntime) -> Result<(), Fail> {
    let settings = Settings::of_relay(Ip::V4(0xc000_0201));
    let mut relay = Relay::new(rt.alloc(), settings, Secret([0; 32]))?;
    let from = Peer {
        ip: Ip::V4(0xc633_6407),
        port: 5000,
    };
    let bytes = Bytes::copied(rt.alloc(), b"\x01\x00\x00\x00\x01\x02\x03\x04")?;
    let step = relay.step(rt.alloc(), &Event::Datagram { from, bytes })?;
    for send in step.sends.as_slice() {
        assert_eq!(rt; send.to.peer(), from);
        assert_eq!(rt; send.bytes.len(), 12);
    }
    Ok(())
}

// The example of the README of `gateway_machine`, line by line.
#[test]
fn a_gateway_is_made_stepped_and_its_sends_are_read(rt: HostRuntime) -> Result<(), Fail> {
    let settings = GatewaySettings {
        v6: false,
        discovery: Peer {
            ip: Ip::V4(0xc034_c101),
            port: 2268,
        },
        relay: None,
        port: 2268,
        source: Ip::V4(0xc633_6407),
        linux_relay: false,
    };
    assert!(rt; settings.lawful());
    let mut gateway = Gateway::new(rt.alloc(), settings, 0x0102_0304)?;
    let event = GatewayEvent::Open {
        name: Bytes::copied(rt.alloc(), b"a")?,
        group: Ip::V4(0xef01_0101),
        filter: Filter::new(rt.alloc(), Mode::Exclude, &[])?,
    };
    let step = gateway.step(rt.alloc(), &event)?;
    for send in step.sends.as_slice() {
        assert_eq!(rt; send.to, settings.discovery);
        assert_eq!(rt; send.bytes.len(), 8);
    }
    assert_eq!(rt; gateway.due(), Moment::new(1000));
    Ok(())
}
