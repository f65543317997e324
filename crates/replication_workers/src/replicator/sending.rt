//! One message to many endpoints.
ghost use Rattle.std.specs.Prelude.{◌≡◌, ◌≤◌, ◌+◌, length, map, vec_capacity};
ghost use Rattle.amt_messages.specs.{Layout.{spelling_of}, declared.message.Message.TheVariants.{Multicast}};
ghost use Rattle.replication_workers.specs.Replication.{with_message};
ghost use Rattle.amt_ports.specs.Tried.{HasTried};

use amt_ports::OutLink;
use amt_values::Endpoint;

// The first octet of a Multicast Data message: version 0, and its type (RFC 7450, section 5.1.6).
const MULTICAST_DATA: u8 = 6;

/// How many datagrams were sent, and how many the device didn't take.
pub struct SendCounts {
    pub sent: u32,
    pub unsent: u32,
}

/// Writes the Multicast Data message of the packet (RFC 7450, section 5.1.6).
pub fn write_message(packet: &[u8], message: &mut Vec<u8>)
    requires { length packet.now + 2 ≤ vec_capacity message.old }
    ensures message { message.new.items ≡ spelling_of (Multicast packet.now) }
    ensures room { vec_capacity message.old ≤ vec_capacity message.new }
{
    message.clear();
    message.push_reserved(MULTICAST_DATA);
    // A reserved octet.
    message.push_reserved(0);
    match message.extend_from_slice(packet) {
        Ok(()) => {}
        // There is room for it.
        Err(_) => unreachable!(),
    }
}

/// Tries to send the message to each endpoint, in order: those after a failed send too.
pub fn send_all<O: OutLink>(out: &mut O, targets: &[Endpoint], message: &[u8]) -> SendCounts
    requires { length targets.now ≤ 65536 }
    ensures sends { HasTried (O.tried out.old) (O.tried out.new) (O.faults out.old) (O.faults out.new)
        (map (with_message message.now) targets.now) result.sent result.unsent }
    ensures counted { result.sent + result.unsent ≡ length targets.now }
{
    let mut counts = SendCounts { sent: 0, unsent: 0 };
    for to in targets {
        match out.send(&to.peer(), message) {
            Ok(()) => counts.sent += 1,
            Err(_) => counts.unsent += 1,
        }
    }
    counts
}
