//! A gateway that can't draw its first word asks no device.

use crate::devices::{Devices, Script};
use crate::gateway::{KNOWING, SCRIPT, devices_of, serve};
use amt_ports::{BUFFER, Clock, Got, Link, MemLink, MemOut, WAIT_MS};
use std::process::Abort;

const WORDLESS: Script<'static> = Script {
    moments: &[500],
    drawing: 1,
    ..SCRIPT
};

// The devices still have all that they had.
fn assert_unasked(rt: &impl Abort, devices: &mut Devices<MemLink, MemLink>, buf: &mut [u8]) {
    assert!(rt; buf.len() >= BUFFER);
    assert!(rt; devices.link.tried().is_empty());
    assert!(rt; matches!(devices.link.recv(buf, WAIT_MS), Ok(Got::Datagram(_, 48))));
    assert!(rt; matches!(devices.feed.recv(buf, WAIT_MS), Ok(Got::Datagram(_, 24))));
    assert_eq!(rt; devices.clock.now().ms(), 500);
}

#[test]
fn without_a_first_word_no_device_is_asked(rt: HostRuntime) {
    let Ok(mut devices) = devices_of(rt.alloc(), &WORDLESS) else {
        panic!(rt; "out of memory");
    };
    let mut out = MemOut::new(rt.alloc());
    let _ = serve(&rt, rt.alloc(), KNOWING, 3, &mut devices, &mut out);
    assert!(rt; out.tried().is_empty());
    let Ok(mut buf) = Vec::from_elem(rt.alloc(), 0, BUFFER) else {
        panic!(rt; "out of memory");
    };
    assert_unasked(&rt, &mut devices, buf.as_mut_slice());
}
