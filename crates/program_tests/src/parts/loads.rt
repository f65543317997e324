//! The script of a load, which no command prints. It knows public calls alone.

use amt_script::{RelayScript, read_relay_script};
use amt_values::INPUT_LIMIT;
use relay_load::load_script;
use std::alloc::Global;

// The octets were computed from the format by another implementation, with Python's hmac module.
const SETTINGS: &str = "set relay 192.0.2.1\nset endpoints 2\nset groups 4\nset sources 4\nat 0\n";

// A seed, and the two Updates of its load of two endpoints.
const UPDATES: [(u32, &str); 3] = [
    (
        0,
        "dg 10.0.0.1:24638 050082850011f2ce1a08ee1146c0002c00000000010239f40a000002e0000016940400002200c3c30000000101000001ef010003c6336401
dg 10.0.0.2:1274 0500f7922b82e86d8f947f3646c0002800000000010239f80a000002e0000016940400002200ecfb0000000102000000ef010001
",
    ),
    (
        1,
        "dg 10.0.0.1:30572 0500880f821fa684826886b346c0002c00000000010239f40a000002e0000016940400002200c3bc0000000101000001ef01000ac6336401
dg 10.0.0.2:23092 050091926a77aaa9802181e646c0002c00000000010239f40a000002e0000016940400002200c3c10000000101000001ef010005c6336401
",
    ),
    (
        7,
        "dg 10.0.0.1:31580 0500472e6773c01ff4a61a7f46c0002800000000010239f80a000002e0000016940400002200ecf90000000102000000ef010003
dg 10.0.0.2:12114 0500a3b3f95a58d6236f920746c0002800000000010239f80a000002e0000016940400002200ecfb0000000102000000ef010001
",
    ),
];

const PACKETS: &str = "mc 450000140000000004119da2c6336401ef010001
mc 450000140000000004119da1c6336401ef010002
mc 450000140000000004119da0c6336401ef010003
mc 450000140000000004119d9fc6336401ef010004
mc 450000140000000004119d9ec6336401ef010005
mc 450000140000000004119d9dc6336401ef010006
mc 450000140000000004119d9cc6336401ef010007
mc 450000140000000004119d9bc6336401ef010008
mc 450000140000000004119d9ac6336401ef010009
mc 450000140000000004119d99c6336401ef01000a
mc 450000140000000004119d98c6336401ef01000b
mc 450000140000000004119d97c6336401ef01000c
mc 450000140000000004119d96c6336401ef01000d
mc 450000140000000004119d95c6336401ef01000e
mc 450000140000000004119d94c6336401ef01000f
mc 450000140000000004119d93c6336401ef010010
";

fn text_of(alloc: Global, script: &RelayScript) -> Option<String> {
    format!(in alloc; "{script:?}").ok()
}

// A secret's derived text shows none of its octets.
fn is_without_secret(script: &RelayScript) -> bool {
    let secret = script.secret;
    secret.0 == [0; 32]
}

fn load_text(alloc: Global, seed: u32) -> Option<String> {
    let Ok(script) = load_script(alloc, seed, 2) else {
        return None;
    };
    if !is_without_secret(&script) {
        return None;
    }
    text_of(alloc, &script)
}

fn script_text(alloc: Global, updates: &str) -> Option<String> {
    let script = format!(in alloc; "{SETTINGS}{updates}{PACKETS}").ok()?;
    if script.len() > INPUT_LIMIT {
        return None;
    }
    match read_relay_script(alloc, script.as_bytes()) {
        Ok(script) => text_of(alloc, &script),
        Err(_) => None,
    }
}

fn is_same(load: Option<String>, script: Option<String>) -> bool {
    match (load, script) {
        (Some(load), Some(script)) => load.as_bytes() == script.as_bytes(),
        _ => false,
    }
}

#[test]
fn a_load_is_the_script_of_its_seed(rt: HostRuntime) {
    for (seed, updates) in UPDATES.as_slice() {
        let load = load_text(rt.alloc(), *seed);
        let is = is_same(load, script_text(rt.alloc(), updates));
        assert!(rt; is, "seed {seed}");
    }
}
