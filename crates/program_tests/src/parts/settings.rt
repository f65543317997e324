//! Whole settings files, and what they say. It knows public calls alone.

use amt_config::{gateway_settings, relay_settings};
use std::alloc::Global;

// Each row: what it shows, a file, and its settings as derived `Debug` writes them. The numbers of addresses were
// computed from their texts in Python.
const RELAYS: [(&str, &str, &str); 5] = [
    (
        "what a file leaves out has its default",
        "relay = \"192.0.2.1\"\nlisten = \"127.0.0.1:2268\"\nfeed = \"127.0.0.1:9000\"\n",
        "RelayConfig { relay: V4(3221225985), listen: Peer { ip: V4(2130706433), port: 2268 }, feed: Peer { ip: V4(2130706433), port: 9000 }, control_anywhere: false, control: None, query4: 0, query6: 338288524927261089654018896841347694593, robustness: 2, query_seconds: 125, response_tenths: 100, endpoints: 1024, groups: 64, sources: 64, packet_limit: 1450, rotate_seconds: 7200, secrets: 2, workers: 4, linux_gateways: false, report_seconds: 0 }",
    ),
    (
        "a mark of the byte order may stand first, and a default may be written out",
        "\u{feff}relay = \"192.0.2.1\"\nlisten = \"127.0.0.1:2268\"\nfeed = \"127.0.0.1:9000\"\nsources = 64",
        "RelayConfig { relay: V4(3221225985), listen: Peer { ip: V4(2130706433), port: 2268 }, feed: Peer { ip: V4(2130706433), port: 9000 }, control_anywhere: false, control: None, query4: 0, query6: 338288524927261089654018896841347694593, robustness: 2, query_seconds: 125, response_tenths: 100, endpoints: 1024, groups: 64, sources: 64, packet_limit: 1450, rotate_seconds: 7200, secrets: 2, workers: 4, linux_gateways: false, report_seconds: 0 }",
    ),
    (
        "each key is read, in any order, with the greatest numbers",
        "report_seconds = 86400\nlinux_gateways = true\nworkers = 64\nsecrets = 4\nrotate_seconds = 1000000\npacket_limit = 65000\nsources = 1\ngroups = 256\nendpoints = 65536\nresponse_tenths = 31744\nquery_seconds = 31744\nrobustness = 7\nquery6 = \"fe80::2\"\nquery4 = \"192.0.2.9\"\ncontrol = \"192.0.2.1:9003\"\ncontrol_anywhere = true\nfeed = \"[::1]:1\"\nlisten = \"[::1]:2\"\nrelay = \"2001:db8::1\"",
        "RelayConfig { relay: V6(42540766411282592856903984951653826561), listen: Peer { ip: V6(1), port: 2 }, feed: Peer { ip: V6(1), port: 1 }, control_anywhere: true, control: Some(Peer { ip: V4(3221225985), port: 9003 }), query4: 3221225993, query6: 338288524927261089654018896841347694594, robustness: 7, query_seconds: 31744, response_tenths: 31744, endpoints: 65536, groups: 256, sources: 1, packet_limit: 65000, rotate_seconds: 1000000, secrets: 4, workers: 64, linux_gateways: true, report_seconds: 86400 }",
    ),
    (
        "the least numbers",
        "relay = \"192.0.2.1\"\nlisten = \"127.0.0.1:2268\"\nfeed = \"127.0.0.1:9000\"\nrobustness = 1\nquery_seconds = 1\nresponse_tenths = 1\nendpoints = 1\ngroups = 1\nsources = 1\npacket_limit = 20\nrotate_seconds = 1\nsecrets = 1\nworkers = 0",
        "RelayConfig { relay: V4(3221225985), listen: Peer { ip: V4(2130706433), port: 2268 }, feed: Peer { ip: V4(2130706433), port: 9000 }, control_anywhere: false, control: None, query4: 0, query6: 338288524927261089654018896841347694593, robustness: 1, query_seconds: 1, response_tenths: 1, endpoints: 1, groups: 1, sources: 1, packet_limit: 20, rotate_seconds: 1, secrets: 1, workers: 0, linux_gateways: false, report_seconds: 0 }",
    ),
    (
        "the example of a relay",
        "# The settings of a relay. What is commented out has its default.\n\n# The address that Relay Advertisements carry.\nrelay = \"192.0.2.1\"\n\n# Where the relay takes and sends AMT messages, and where it takes multicast packets.\nlisten = \"0.0.0.0:2268\"\nfeed = \"127.0.0.1:9000\"\n\n# Where it is asked, and stopped as the service stops it. Off the loopback it may be only with\n# `control_anywhere = true`.\ncontrol = \"127.0.0.1:9003\"\n# control_anywhere = false\n\n# The sources of General Queries in tunnels.\n# query4 = \"0.0.0.0\"\n# query6 = \"fe80::1\"\n\n# A membership lasts robustness * query_seconds + response_tenths / 10 seconds without a report.\nrobustness = 3\nquery_seconds = 60\n# response_tenths = 100\n\n# What the relay keeps: endpoints, groups of one endpoint, sources of one group. Their product is at\n# most 16777216.\nendpoints = 2048\ngroups = 32\n# sources = 64\n\n# Longer packets are dropped.\n# packet_limit = 1450\n\n# The seconds from one secret to the next, and how many of the newest are accepted.\nrotate_seconds = 3600\n# secrets = 2\n\n# The threads that copy packets.\nworkers = 2\n\n# Whether Linux's own gateways are served too: then no Query names its gateway.\n# linux_gateways = false\n\n# The least seconds from one line of the counts that changed, on standard error, to the next; 0 is none.\n# report_seconds = 0\n",
        "RelayConfig { relay: V4(3221225985), listen: Peer { ip: V4(0), port: 2268 }, feed: Peer { ip: V4(2130706433), port: 9000 }, control_anywhere: false, control: Some(Peer { ip: V4(2130706433), port: 9003 }), query4: 0, query6: 338288524927261089654018896841347694593, robustness: 3, query_seconds: 60, response_tenths: 100, endpoints: 2048, groups: 32, sources: 64, packet_limit: 1450, rotate_seconds: 3600, secrets: 2, workers: 2, linux_gateways: false, report_seconds: 0 }",
    ),
];

const GATEWAYS: [(&str, &str, &str); 5] = [
    (
        "each key is read, in any order, and peers of either family",
        "report_seconds = 1\nlinux_relay = true\nport = 0\nrelay = \"[2001:db8::1]:2269\"\nsource = \"fe80::7\"\ndiscovery = \"192.0.2.1:2268\"\ncontrol = \"127.0.0.1:3\"\ndeliver = \"[::1]:2\"\nlisten = \"[::]:1\"\nfamily = \"v6\"\njoin = []",
        "GatewayConfig { v6: true, listen: Peer { ip: V6(0), port: 1 }, deliver: Peer { ip: V6(1), port: 2 }, control: Peer { ip: V4(2130706433), port: 3 }, discovery: Peer { ip: V4(3221225985), port: 2268 }, source: V6(338288524927261089654018896841347694599), relay: Some(Peer { ip: V6(42540766411282592856903984951653826561), port: 2269 }), port: 0, linux_relay: true, report_seconds: 1, joins: Items { items: [] } }",
    ),
    (
        "what a file leaves out has its default",
        "family = \"v4\"\nlisten = \"127.0.0.1:2268\"\ndeliver = \"127.0.0.1:9001\"\ncontrol = \"127.0.0.1:9002\"\ndiscovery = \"192.0.2.1:2268\"\nsource = \"198.51.100.7\"\n",
        "GatewayConfig { v6: false, listen: Peer { ip: V4(2130706433), port: 2268 }, deliver: Peer { ip: V4(2130706433), port: 9001 }, control: Peer { ip: V4(2130706433), port: 9002 }, discovery: Peer { ip: V4(3221225985), port: 2268 }, source: V4(3325256711), relay: None, port: 2268, linux_relay: false, report_seconds: 0, joins: Items { items: [] } }",
    ),
    (
        "the greatest port, and joins of one group in their order",
        "family = \"v4\"\nlisten = \"127.0.0.1:2268\"\ndeliver = \"127.0.0.1:9001\"\ncontrol = \"127.0.0.1:9002\"\ndiscovery = \"192.0.2.1:2268\"\nsource = \"198.51.100.7\"\nport = 65535\n[[join]]\nname = \"a\"\ngroup = \"239.1.1.1\"\nmode = \"include\"\nsources = [\"10.0.0.1\"]\n[[join]]\nname = \"b\"\ngroup = \"239.1.1.1\"\nmode = \"include\"\nsources = [\"10.0.0.2\"]\n",
        "GatewayConfig { v6: false, listen: Peer { ip: V4(2130706433), port: 2268 }, deliver: Peer { ip: V4(2130706433), port: 9001 }, control: Peer { ip: V4(2130706433), port: 9002 }, discovery: Peer { ip: V4(3221225985), port: 2268 }, source: V4(3325256711), relay: None, port: 65535, linux_relay: false, report_seconds: 0, joins: Items { items: [Join { name: Items { items: [97] }, group: V4(4009820417), filter: Filter { mode: Include, sources: Items { items: [V4(167772161)] } } }, Join { name: Items { items: [98] }, group: V4(4009820417), filter: Filter { mode: Include, sources: Items { items: [V4(167772162)] } } }] } }",
    ),
    (
        "the longest name, and a source that stands twice is kept once",
        "family = \"v6\"\nlisten = \"127.0.0.1:2268\"\ndeliver = \"127.0.0.1:9001\"\ncontrol = \"127.0.0.1:9002\"\ndiscovery = \"192.0.2.1:2268\"\nsource = \"2001:db8::7\"\n[[join]]\nname = \"abcdefghijklmnopqrstuvwxyz_01234\"\ngroup = \"ff3e::1\"\nmode = \"include\"\nsources = [\"2001:db8::9\", \"2001:db8:0::9\"]",
        "GatewayConfig { v6: true, listen: Peer { ip: V4(2130706433), port: 2268 }, deliver: Peer { ip: V4(2130706433), port: 9001 }, control: Peer { ip: V4(2130706433), port: 9002 }, discovery: Peer { ip: V4(3221225985), port: 2268 }, source: V6(42540766411282592856903984951653826567), relay: None, port: 2268, linux_relay: false, report_seconds: 0, joins: Items { items: [Join { name: Items { items: [97, 98, 99, 100, 101, 102, 103, 104, 105, 106, 107, 108, 109, 110, 111, 112, 113, 114, 115, 116, 117, 118, 119, 120, 121, 122, 95, 48, 49, 50, 51, 52] }, group: V6(339275061330382706903439691143899512833), filter: Filter { mode: Include, sources: Items { items: [V6(42540766411282592856903984951653826569)] } } }] } }",
    ),
    (
        "the example of a gateway, whose sources ascend",
        "# The settings of a gateway. What is commented out has its default, or is left out.\n\n# The family of its groups, and the source of its membership reports, of that family.\nfamily = \"v4\"\nsource = \"198.51.100.7\"\n\n# Where the gateway takes and sends AMT messages, where it hands packets on to, and where it takes the\n# lines that open, change and close sockets.\nlisten = \"0.0.0.0:40000\"\ndeliver = \"127.0.0.1:9001\"\ncontrol = \"127.0.0.1:9002\"\n\n# Where Relay Discoveries go. With `relay` there is no discovery.\ndiscovery = \"192.0.2.1:2268\"\n# relay = \"192.0.2.1:2268\"\n# port = 2268\n\n# Whether the relay is Linux's own.\n# linux_relay = false\n\n# The least seconds from one line of the counts that changed, on standard error, to the next; 0 is none.\n# report_seconds = 0\n\n# The sockets that it opens first, in order.\n[[join]]\nname = \"news\"\ngroup = \"239.1.1.1\"\nmode = \"exclude\"\nsources = []\n\n[[join]]\nname = \"radio\"\ngroup = \"232.1.1.1\"\nmode = \"include\"\nsources = [\"203.0.113.9\", \"203.0.113.5\"]\n",
        "GatewayConfig { v6: false, listen: Peer { ip: V4(0), port: 40000 }, deliver: Peer { ip: V4(2130706433), port: 9001 }, control: Peer { ip: V4(2130706433), port: 9002 }, discovery: Peer { ip: V4(3221225985), port: 2268 }, source: V4(3325256711), relay: None, port: 2268, linux_relay: false, report_seconds: 0, joins: Items { items: [Join { name: Items { items: [110, 101, 119, 115] }, group: V4(4009820417), filter: Filter { mode: Exclude, sources: Items { items: [] } } }, Join { name: Items { items: [114, 97, 100, 105, 111] }, group: V4(3892379905), filter: Filter { mode: Include, sources: Items { items: [V4(3405803781), V4(3405803785)] } } }] } }",
    ),
];

// Each row: lines of a relay's file, after the keys that it must have, and its control socket or its fault as derived
// `Debug` writes it. A key is written as its octets.
const CONTROLS: [(&str, &str); 31] = [
    ("", "None"),
    (
        "control = \"127.0.0.1:9\"",
        "Some(Peer { ip: V4(2130706433), port: 9 })",
    ),
    (
        "control = \"127.0.0.0:9\"",
        "Some(Peer { ip: V4(2130706432), port: 9 })",
    ),
    (
        "control = \"127.255.0.1:9\"",
        "Some(Peer { ip: V4(2147418113), port: 9 })",
    ),
    (
        "control = \"127.255.255.255:9\"",
        "Some(Peer { ip: V4(2147483647), port: 9 })",
    ),
    (
        "control = \"126.255.255.255:9\"",
        "Loopback(Items { items: [99, 111, 110, 116, 114, 111, 108] })",
    ),
    (
        "control = \"128.0.0.1:9\"",
        "Loopback(Items { items: [99, 111, 110, 116, 114, 111, 108] })",
    ),
    (
        "control = \"0.0.0.0:9\"",
        "Loopback(Items { items: [99, 111, 110, 116, 114, 111, 108] })",
    ),
    ("control = \"[::1]:9\"", "Some(Peer { ip: V6(1), port: 9 })"),
    (
        "control = \"[::2]:9\"",
        "Loopback(Items { items: [99, 111, 110, 116, 114, 111, 108] })",
    ),
    (
        "control = \"[::]:9\"",
        "Loopback(Items { items: [99, 111, 110, 116, 114, 111, 108] })",
    ),
    (
        "control = \"[::ffff:7f00:1]:9\"",
        "Loopback(Items { items: [99, 111, 110, 116, 114, 111, 108] })",
    ),
    (
        "control = \"[::ffff:127.0.0.1]:9\"",
        "Address(Items { items: [99, 111, 110, 116, 114, 111, 108] })",
    ),
    (
        "control = \"127.0.0.1\"",
        "Address(Items { items: [99, 111, 110, 116, 114, 111, 108] })",
    ),
    (
        "control = 9",
        "Kind(Items { items: [99, 111, 110, 116, 114, 111, 108] })",
    ),
    ("control_anywhere = false", "None"),
    (
        "control_anywhere = false\ncontrol = \"128.0.0.1:9\"",
        "Loopback(Items { items: [99, 111, 110, 116, 114, 111, 108] })",
    ),
    (
        "control_anywhere = false\ncontrol = \"127.0.0.1:9\"",
        "Some(Peer { ip: V4(2130706433), port: 9 })",
    ),
    ("control_anywhere = true", "None"),
    (
        "control_anywhere = true\ncontrol = \"127.0.0.1:9\"",
        "Some(Peer { ip: V4(2130706433), port: 9 })",
    ),
    (
        "control_anywhere = true\ncontrol = \"127.255.0.1:9\"",
        "Some(Peer { ip: V4(2147418113), port: 9 })",
    ),
    (
        "control_anywhere = true\ncontrol = \"128.0.0.1:9\"",
        "Some(Peer { ip: V4(2147483649), port: 9 })",
    ),
    (
        "control_anywhere = true\ncontrol = \"[::1]:9\"",
        "Some(Peer { ip: V6(1), port: 9 })",
    ),
    (
        "control_anywhere = true\ncontrol = \"[::2]:9\"",
        "Some(Peer { ip: V6(2), port: 9 })",
    ),
    (
        "control_anywhere = true\ncontrol = \"[::ffff:7f00:1]:9\"",
        "Some(Peer { ip: V6(281472812449793), port: 9 })",
    ),
    (
        "control_anywhere = true\ncontrol = \"[::ffff:127.0.0.1]:9\"",
        "Address(Items { items: [99, 111, 110, 116, 114, 111, 108] })",
    ),
    (
        "control_anywhere = true\ncontrol = 9",
        "Kind(Items { items: [99, 111, 110, 116, 114, 111, 108] })",
    ),
    (
        "control_anywhere = 1",
        "Kind(Items { items: [99, 111, 110, 116, 114, 111, 108, 95, 97, 110, 121, 119, 104, 101, 114, 101] })",
    ),
    (
        "control_anywhere = \"true\"",
        "Kind(Items { items: [99, 111, 110, 116, 114, 111, 108, 95, 97, 110, 121, 119, 104, 101, 114, 101] })",
    ),
    (
        "control_anywhere = 1\ncontrol = \"128.0.0.1:9\"",
        "Kind(Items { items: [99, 111, 110, 116, 114, 111, 108, 95, 97, 110, 121, 119, 104, 101, 114, 101] })",
    ),
    (
        "control = \"128.0.0.1:9\"\nworkers = 65",
        "Loopback(Items { items: [99, 111, 110, 116, 114, 111, 108] })",
    ),
];

// Files that are at fault, and the derived text of each kind of fault, which no clause and no command has.
const FAULTS: [(&str, &str); 7] = [
    ("relay", "no TOML"),
    ("colour = 1", "an unknown key"),
    ("", "a missing key"),
    ("relay = 1", "a value of another type"),
    ("relay = \"x\"", "no such address"),
    (
        "relay = \"192.0.2.1\"\nlisten = \"127.0.0.1:2268\"\nfeed = \"127.0.0.1:9000\"\nworkers = 65",
        "a value out of its range",
    ),
    (
        "relay = \"192.0.2.1\"\nlisten = \"127.0.0.1:2268\"\nfeed = \"127.0.0.1:9000\"\ncontrol = \"128.0.0.1:1\"",
        "an address off the loopback",
    ),
];

fn relay_text(alloc: Global, file: &str) -> Option<String> {
    match relay_settings(alloc, file.as_bytes()) {
        Ok(config) => format!(in alloc; "{config:?}").ok(),
        Err(fault) => format!(in alloc; "{fault}").ok(),
    }
}

fn gateway_text(alloc: Global, file: &str) -> Option<String> {
    match gateway_settings(alloc, file.as_bytes()) {
        Ok(config) => format!(in alloc; "{config:?}").ok(),
        Err(fault) => format!(in alloc; "{fault}").ok(),
    }
}

fn control_text(alloc: Global, lines: &str) -> Option<String> {
    let file = format!(in alloc;
        "relay = \"192.0.2.1\"\nlisten = \"127.0.0.1:2268\"\nfeed = \"127.0.0.1:9000\"\n{lines}"
    ).ok()?;
    match relay_settings(alloc, file.as_bytes()) {
        Ok(config) => format!(in alloc; "{:?}", config.control).ok(),
        Err(fault) => format!(in alloc; "{fault:?}").ok(),
    }
}

fn is_text(text: Option<String>, want: &str) -> bool {
    match text {
        Some(text) => text.as_bytes() == want.as_bytes(),
        None => false,
    }
}

#[test]
fn a_file_of_a_relay_is_read_whole(rt: HostRuntime) {
    for (what, file, want) in RELAYS.as_slice() {
        assert!(rt; is_text(relay_text(rt.alloc(), file), want), "{what}");
    }
}

#[test]
fn a_file_of_a_gateway_is_read_whole(rt: HostRuntime) {
    for (what, file, want) in GATEWAYS.as_slice() {
        assert!(rt; is_text(gateway_text(rt.alloc(), file), want), "{what}");
    }
}

#[test]
fn a_control_socket_is_on_the_loopback_unless_it_may_be_anywhere(rt: HostRuntime) {
    for (lines, want) in CONTROLS.as_slice() {
        assert!(rt; is_text(control_text(rt.alloc(), lines), want), "{lines}");
    }
}

#[test]
fn a_fault_of_a_file_has_a_text(rt: HostRuntime) {
    for (file, want) in FAULTS.as_slice() {
        assert!(rt; is_text(relay_text(rt.alloc(), file), want), "{want}");
    }
}
