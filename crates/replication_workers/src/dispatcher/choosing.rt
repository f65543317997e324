//! Which slot a packet goes to.
ghost use Rattle.std.specs.Prelude.{◌≡◌, ◌≤◌, ◌<◌, length};
ghost use Rattle.replication_workers.specs.Dispatchers.{slot_for};

use amt_values::wire16;
use inner_datagrams::packet_head;

/// The slot for the packet, by its source and its group, so that packets from one source to one group keep
/// their order.
pub fn choose_slot(slots: u32, packet: &[u8]) -> u32
    requires some { 1 ≤ slots }
    requires short { length packet.now ≤ 65535 }
    ensures slot { result ≡ slot_for slots packet.now }
    ensures within { result < slots }
{
    match packet_head(packet) {
        Ok(head) => {
            let sum = wire16(&head.group).wrapping_add(wire16(&head.source));
            (sum % slots as u128) as u32
        }
        Err(_) => 0,
    }
}
