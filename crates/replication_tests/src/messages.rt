//! A packet and the message that carries it, and whether a link has tried that.
ghost use Rattle.std.specs.Prelude.{◌≡◌};

use crate::fixtures::moment;
use amt_ports::{MemOut, Tried};
use amt_values::{Bytes, Ip, Peer};
use published_table::Note;
use replication_workers::Job;
use std::alloc::Global;
use std::process::Abort;

/// UDP of no octets from 198.51.100.9 to 239.1.1.1.
pub const PACKET: [u8; 28] = [
    0x45, 0, 0, 0x1c, 0, 0, 0, 0, 4, 0x11, 0x9c, 0x92, 0xc6, 0x33, 0x64, 9, 0xef, 1, 1, 1, 4, 0, 4,
    0, 0, 8, 0, 0,
];

/// The Multicast Data message that carries it.
pub const MESSAGE: [u8; 30] = [
    6, 0, 0x45, 0, 0, 0x1c, 0, 0, 0, 0, 4, 0x11, 0x9c, 0x92, 0xc6, 0x33, 0x64, 9, 0xef, 1, 1, 1, 4,
    0, 4, 0, 0, 8, 0, 0,
];

/// A send of the message to the endpoint of this host, and whether the device took it.
pub type HostSend<'a> = (u8, &'a [u8], bool);

/// A job with this packet, which is short enough for one.
pub fn job_of(rt: &impl Abort, alloc: Global, packet: &[u8], ms: u64, note: Note) -> Job
    ensures { result.note ≡ note }
{
    assert!(rt; packet.len() <= 65_535);
    let Ok(packet) = Bytes::copied(alloc, packet) else {
        panic!(rt; "out of memory");
    };
    Job {
        packet,
        at: moment(rt, ms),
        note,
    }
}

fn is_tried(tried: &Tried, send: &HostSend) -> bool {
    let (host, message, sent) = send;
    let to = Peer {
        ip: Ip::V4(0xc633_6400 | u32::from(*host)),
        port: 5000,
    };
    tried.to == to && tried.bytes.as_slice() == *message && tried.sent == *sent
}

fn are_tried(tried: &[Tried], sends: &[HostSend]) -> bool {
    for (one, send) in tried.iter().zip(sends) {
        if !is_tried(one, send) {
            return false;
        }
    }
    tried.len() == sends.len()
}

fn count_faults(sends: &[HostSend]) -> u64 {
    let mut count = 0u64;
    for (_, _, sent) in sends {
        if !*sent {
            count = count.saturating_add(1);
        }
    }
    count
}

/// The link has tried exactly these sends, in order.
pub fn assert_tried(rt: &impl Abort, out: &MemOut, sends: &[HostSend]) {
    assert!(rt; are_tried(out.tried(), sends), "{out:?}");
    assert_eq!(rt; out.faults(), count_faults(sends));
}
