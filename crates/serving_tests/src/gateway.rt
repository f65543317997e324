//! Runs of a gateway over devices in memory.
ghost use Rattle.gateway_serving.specs.Settings.{AreTurns, IsLawfulConfig};

use crate::devices::{self, Answer, Devices, Script, link_answers};
use amt_config::{GatewayConfig, gateway_settings};
use amt_ports::{Link, MemLink, MemOut};
use amt_values::{Ip, Peer};
use gateway_serving::{GatewayServed, serve_gateway};
use std::alloc::{AllocError, Global};
use std::process::Abort;

/// The settings file of a gateway that knows its relay, 192.0.2.77:2268, and joins 239.1.1.2 from every source.
pub const KNOWING: &str =
    "family = \"v4\"\nlisten = \"127.0.0.1:2269\"\ndeliver = \"127.0.0.1:9001\"\n\
control = \"127.0.0.1:9002\"\ndiscovery = \"192.0.2.1:2268\"\nsource = \"10.0.0.2\"\n\
relay = \"192.0.2.77:2268\"\n\
[[join]]\nname = \"b\"\ngroup = \"239.1.1.2\"\nmode = \"exclude\"\nsources = []\n";

/// The Query after the Request with the nonce 100. The octets were computed by a model of the messages in Python
/// that was written from the standards.
pub const QUERY: Answer<'static> = Answer::Octets(
    "0400a1a2a3a4a5a600000100\
46c000240000000001028211c0000201e0000001940400001164ec1e00000000027d0000",
);

/// A line that opens 239.1.1.1, and a packet for it.
pub const OPENING: Answer<'static> = Answer::Line("open a 239.1.1.1 exclude");

pub const MESSAGE: Answer<'static> = Answer::Octets(
    "06004500001c0000000004119c92c6336409ef0101010400040000080000",
);

/// Whoever sends the lines.
pub const ASKER: Peer = Peer {
    ip: Ip::V4(0x7f00_0001),
    port: 4000,
};

/// In the first turn the Query comes, and the line. Then link and control are closed.
pub const SCRIPT: Script<'static> = Script {
    from: Peer {
        ip: Ip::V4(0xc000_024d),
        port: 2268,
    },
    heard: &[QUERY, Answer::Nothing],
    fed: &[OPENING, Answer::Nothing],
    moments: &[0],
    words: &[0x100, 0x200],
    receiving: 0,
    feeding: 0,
    drawing: 0,
};

fn config_of(rt: &impl Abort, alloc: Global, file: &str) -> GatewayConfig
    ensures { IsLawfulConfig result }
{
    let Ok(config) = gateway_settings(alloc, file.as_bytes()) else {
        panic!(rt; "no settings: {file}");
    };
    config
}

fn assert_turns(rt: &impl Abort, turns: u64)
    ensures { AreTurns turns }
{
    assert!(rt; 1 <= turns && turns <= 1_099_511_627_776);
}

/// The devices of a gateway. What the script feeds is what comes to the control.
pub fn devices_of(alloc: Global, script: &Script) -> Result<Devices<MemLink, MemLink>, AllocError> {
    let Devices {
        link,
        feed: _,
        clock,
        words,
    } = devices::devices_of(alloc, script)?;
    let lines = link_answers(alloc, ASKER, script.fed)?;
    let receivings = vec![in alloc; script.feeding]?;
    Ok(Devices {
        link,
        feed: MemLink::failing(alloc, lines, receivings, Vec::new(alloc)),
        clock,
        words,
    })
}

/// Runs a gateway by this settings file over these devices.
pub fn serve<L: Link, K: Link>(
    rt: &impl Abort,
    alloc: Global,
    file: &str,
    turns: u64,
    devices: &mut Devices<L, K>,
    out: &mut MemOut,
) -> GatewayServed {
    let config = config_of(rt, alloc, file);
    assert_turns(rt, turns);
    let Devices {
        link,
        feed,
        clock,
        words,
    } = devices;
    serve_gateway(alloc, &config, turns, link, feed, out, clock, words)
}
