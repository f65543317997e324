//! The native packets of a load.

ghost use Rattle.std.specs.{Prelude.{◌≡◌, ◌++◌, map, OnOk}, List.{AllByRecursion}};
ghost use Rattle.amt_script.specs.{Running.{IsItem}, declared.script.RelayItem.TheVariants.{Event as EventItem}};
ghost use Rattle.relay_machine.specs.declared.settings.Settings.{Settings as SettingsValue};
ghost use Rattle.relay_load.specs.{Packets.{packet_to}, Script.{load_packets}};

use crate::record::{GROUP_BASE, GROUPS};
use amt_script::{RelayItem, RelayItems};
use amt_values::Bytes;
use byteorder::{BigEndian, ByteOrder};
use inner_datagrams::internet_sum;
use relay_machine::Event;
use std::alloc::{AllocError, Global};

/// The packets of a load: one to each group.
pub const PACKETS: u32 = GROUPS;

// An IPv4 header of 20 octets with nothing after it: time to live 4, UDP, from 198.51.100.1. The checksum
// and the group are filled in.
const HEADER: [u8; 20] = [
    0x45, 0, 0, 20, 0, 0, 0, 0, 4, 17, 0, 0, 198, 51, 100, 1, 0, 0, 0, 0,
];

#[tactic(auto, unfolding(crate::specs::Packets::packet_to))]
fn packet_to(group: u32) -> [u8; 20]
    ensures { result ≡ packet_to group }
{
    let mut header = HEADER;
    BigEndian::write_u32(&mut header[16..], group);
    // The checksum is taken while its own place is still zero.
    let header_sum = internet_sum(&header);
    BigEndian::write_u16(&mut header[10..], header_sum);
    header
}

/// Puts all packets at the end.
pub fn append_packets(alloc: Global, items: &mut RelayItems) -> Result<(), AllocError>
    ensures packets { OnOk result (items.new ≡ items.old ++ map EventItem load_packets) }
    ensures sized { (settings : SettingsValue) → OnOk result
        (AllByRecursion (IsItem settings) items.old → AllByRecursion (IsItem settings) items.new) }
{
    for before in 0..PACKETS {
        let packet = packet_to(GROUP_BASE + (before + 1));
        let bytes = Bytes::copied(alloc, &packet)?;
        items.push(RelayItem::Event(Event::Packet { bytes }))?;
    }
    Ok(())
}
