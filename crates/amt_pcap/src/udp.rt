//! UDP in IP packets.

ghost use Rattle.std.specs.Prelude.{◌≡◌, ◌≤◌, ◌+◌, length, option_map, Some, IfSome, IsTrue};
ghost use Rattle.amt_values.specs.IpHeader.{ip_version};
ghost use Rattle.inner_datagrams.specs.Head.{head_at};
ghost use Rattle.amt_pcap.specs.Udp.{datagram_at, datagram_of, has_udp, udp_place};

use amt_values::{Ip, Peer, u16_at, u32_at, u128_at};
use inner_datagrams::Head;

/// The two ends of a UDP datagram.
#[derive(Clone, Copy, Debug, PartialEq, Eq)]
pub struct Ends {
    pub source: Peer,
    pub destination: Peer,
}

// The least octets of an IPv4 packet that carries UDP.
const LEAST: usize = 28;

// The place after the IP header, where UDP follows there.
fn udp_place(packet: &[u8]) -> Option<usize>
    requires { 20 ≤ length packet.now }
    ensures place { result ≡ udp_place packet.now }
    ensures least { IfSome result (λ place. 20 ≤ place) }
    ensures most { IfSome result (λ place. place ≤ 60) }
    ensures six { IfSome result (λ place. ip_version packet.now ≡ 6 → place ≡ 40) }
{
    let version = packet[0] >> 4;
    if version == 6 {
        return if packet[6] == 17 { Some(40) } else { None };
    }
    if version != 4 {
        return None;
    }
    let place = 4 * (packet[0] & 15) as usize;
    if packet[9] != 17 || u16_at(packet, 6) & 0x3fff != 0 || place < 20 {
        return None;
    }
    Some(place)
}

// Whether a UDP header stands at the place, and states a length that fits.
fn has_udp(packet: &[u8], place: usize) -> bool
    requires { place ≤ 60 }
    ensures { result ≡ has_udp packet.now place }
{
    if packet.len() < place + 8 {
        return false;
    }
    let stated = u16_at(packet, place + 4) as usize;
    8 <= stated && place + stated <= packet.len()
}

// The addresses of a packet, which is read as one of IPv4 unless it says that it is of IPv6.
fn head_at(packet: &[u8]) -> Head
    requires least { 20 ≤ length packet.now }
    requires six { ip_version packet.now ≡ 6 → 40 ≤ length packet.now }
    ensures { result ≡ head_at packet.now }
{
    if packet[0] >> 4 == 6 {
        let (source, group) = (u128_at(packet, 8), u128_at(packet, 24));
        return Head {
            source: Ip::V6(source),
            group: Ip::V6(group),
        };
    }
    let (source, group) = (u32_at(packet, 12), u32_at(packet, 16));
    Head {
        source: Ip::V4(source),
        group: Ip::V4(group),
    }
}

// The ends and the data of the datagram whose header stands at the place.
fn datagram_at(packet: &[u8], place: usize) -> (Ends, &[u8])
    requires least { 20 ≤ place }
    requires six { ip_version packet.now ≡ 6 → place ≡ 40 }
    requires there { IsTrue (has_udp packet.now place) }
    ensures { record { ends = result.0; payload = result.1.now } ≡ datagram_at packet.now place }
{
    let stated = u16_at(packet, place + 4) as usize;
    let (_, rest) = packet.split_at(place + 8);
    let (payload, _) = rest.split_at(stated - 8);
    let head = head_at(packet);
    let ends = Ends {
        source: Peer {
            ip: head.source,
            port: u16_at(packet, place),
        },
        destination: Peer {
            ip: head.group,
            port: u16_at(packet, place + 2),
        },
    };
    (ends, payload)
}

/// The ends and the data of the datagram that a packet carries, if it carries one (RFC 768). No checksum is looked at.
pub fn datagram_of(packet: &[u8]) -> Option<(Ends, &[u8])>
    requires short { length packet.now ≤ 65535 }
    ensures { option_map (λ found. record { ends = found.0; payload = found.1.now }) result ≡ datagram_of packet.now }
{
    if packet.len() < LEAST {
        return None;
    }
    let Some(place) = udp_place(packet) else {
        return None;
    };
    if !has_udp(packet, place) {
        return None;
    }
    Some(datagram_at(packet, place))
}
