//! Runs of a relay over devices in memory.
ghost use Rattle.relay_machine.specs.Settings.{AreLawfulSettings};
ghost use Rattle.relay_serving.specs.Plans.{IsLawfulPlan};

use crate::devices::{Answer, Devices, Script};
use amt_ports::{Clock, Feed, Link, MemLink, OutLink, Spawner, Words};
use amt_values::{Ip, Peer};
use relay_machine::Settings;
use relay_serving::{Control, Copies, MemCopies, ServePlan, Served, serve_relay};
use replication_workers::{Outs, Worker};
use std::alloc::Global;
use std::process::Abort;
use std::sync::Wait;

/// An Update from 198.51.100.7:5000 with the nonce 0a0b0c0d, which wants all sources of 239.1.1.1. The words
/// of the secret are 0; the MAC was computed with Python's hmac module.
pub const UPDATE: Answer<'static> = Answer::Octets(
    "05004db758a175550a0b0c0d\
46c0002800000000010239f80a000002e0000016940400002200ebfb0000000102000000ef010101",
);

/// UDP of no octets from 198.51.100.9 to 239.1.1.1.
pub const PACKET: Answer<'static> = Answer::Octets(
    "4500001c0000000004119c92c6336409ef0101010400040000080000",
);

/// The Update and two packets in the first turn.
pub const SCRIPT: Script<'static> = Script {
    from: Peer {
        ip: Ip::V4(0xc633_6407),
        port: 5000,
    },
    heard: &[UPDATE, Answer::Nothing],
    fed: &[PACKET, PACKET, Answer::Nothing],
    moments: &[0, 1, 2],
    words: &[],
    receiving: 0,
    feeding: 0,
    drawing: 0,
};

/// Three turns, two workers, and a secret that outlives them.
pub const PLAN: ServePlan = ServePlan {
    turns: 3,
    workers: 2,
    rotate_ms: 3_600_000,
};

// A relay at 192.0.2.1.
fn settings(rt: &impl Abort) -> Settings
    ensures { AreLawfulSettings result }
{
    let settings = Settings::of_relay(Ip::V4(0xc000_0201));
    assert!(rt; settings.lawful());
    settings
}

fn assert_lawful(rt: &impl Abort, plan: &ServePlan)
    ensures { IsLawfulPlan plan.now }
{
    assert!(rt; 1 <= plan.turns && plan.turns <= 1_099_511_627_776);
    assert!(rt; plan.workers <= 64);
    assert!(rt; 1 <= plan.rotate_ms);
}

/// Runs a relay over these devices.
pub fn serve<R: Wait + Abort, L: Link, F: Feed, O: OutLink + Drop, P: Spawner<Worker<O>>>(
    rt: &R,
    alloc: Global,
    plan: ServePlan,
    devices: &mut Devices<L, F>,
    outs: Outs<O>,
    spawner: &mut P,
) -> Served<O> {
    let mut control = None::<Control<MemLink, MemCopies>>;
    serve_asked(rt, alloc, plan, devices, outs, spawner, &mut control)
}

/// The same, of a relay that may be asked.
pub fn serve_asked<
    R: Wait + Abort,
    L: Link,
    F: Feed,
    O: OutLink + Drop,
    K: Link,
    N: Copies,
    P: Spawner<Worker<O>>,
>(
    rt: &R,
    alloc: Global,
    plan: ServePlan,
    devices: &mut Devices<L, F>,
    outs: Outs<O>,
    spawner: &mut P,
    control: &mut Option<Control<K, N>>,
) -> Served<O> {
    let Devices {
        link,
        feed,
        clock,
        words,
    } = devices;
    serve_by(
        rt, alloc, plan, link, feed, clock, words, outs, spawner, control,
    )
}

/// The same, by any devices.
pub fn serve_by<
    R: Wait + Abort,
    L: Link,
    F: Feed,
    C: Clock,
    W: Words,
    O: OutLink + Drop,
    K: Link,
    N: Copies,
    P: Spawner<Worker<O>>,
>(
    rt: &R,
    alloc: Global,
    plan: ServePlan,
    link: &mut L,
    feed: &mut F,
    clock: &mut C,
    words: &mut W,
    outs: Outs<O>,
    spawner: &mut P,
    control: &mut Option<Control<K, N>>,
) -> Served<O> {
    assert_lawful(rt, &plan);
    assert_eq!(rt; outs.len(), plan.workers.max(1) as usize);
    serve_relay(
        rt,
        alloc,
        settings(rt),
        &plan,
        link,
        feed,
        clock,
        words,
        outs,
        spawner,
        control,
    )
}
