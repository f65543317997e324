//! IP packets in what was captured.

ghost use Rattle.std.specs.Prelude.{◌≡◌, ◌≤◌, length, Ok, Err, MatchResult};
ghost use Rattle.amt_pcap.specs.Capture.{packet_at_head, packet_of};

use crate::capture::Skip;
use crate::frame::payload_of;
use amt_messages::inner_length;
use inner_datagrams::packet_head;

// The packet at the head of these octets.
fn packet_at_head(octets: &[u8]) -> Result<&[u8], Skip>
    requires { length octets.now ≤ 16777216 }
    ensures { MatchResult result (λ packet. packet_at_head octets.now ≡ Ok packet.now)
        (λ skip. packet_at_head octets.now ≡ Err skip) }
{
    let (Ok(_), Some(size)) = (packet_head(octets), inner_length(octets)) else {
        return Err(Skip::Ip);
    };
    let size = size as usize;
    if octets.len() < size || 65535 < size {
        return Err(Skip::Ip);
    }
    let (packet, _) = octets.split_at(size);
    Ok(packet)
}

/// The packet in what was captured of a link of this type, of that many octets originally.
pub fn packet_of(link: u16, original: u32, captured: &[u8]) -> Result<&[u8], Skip>
    requires { length captured.now ≤ 16777216 }
    ensures { MatchResult result (λ packet. packet_of link original captured.now ≡ Ok packet.now)
        (λ skip. packet_of link original captured.now ≡ Err skip) }
{
    if captured.len() < original as usize {
        return Err(Skip::Cut);
    }
    if link != 1 {
        return packet_at_head(captured);
    }
    match payload_of(captured) {
        Some(octets) => packet_at_head(octets),
        None => Err(Skip::Frame),
    }
}
