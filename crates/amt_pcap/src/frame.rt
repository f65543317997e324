//! Ethernet frames (RFC 894; RFC 2464, section 3; IEEE 802.1Q).

ghost use Rattle.std.specs.Prelude.{◌≡◌, ◌+◌, ◌<◌, ◌≤◌, length, drop, option_map, IfSome, IfNone, if◌then◌else◌};
ghost use Rattle.byteorder.specs.Endian.{big_number};
ghost use Rattle.amt_pcap.specs.Capture.{is_ip_type, is_tag, payload_of};

use amt_values::u16_at;

// The type that stands at a place, if it is there.
fn type_at(frame: &[u8], at: usize) -> Option<u16>
    requires { at ≤ 20 }
    ensures some { IfSome result (λ kind. (at + 2 ≤ length frame.now)
        × (kind ≡ big_number 2 (drop at frame.now))) }
    ensures none { IfNone result (length frame.now < at + 2) }
{
    if frame.len() < at + 2 {
        return None;
    }
    Some(u16_at(frame, at))
}

// Whether the type there is that of IP packets.
fn is_ip_type(frame: &[u8], at: usize) -> bool
    requires { at ≤ 20 }
    ensures { result ≡ is_ip_type frame.now at }
{
    matches!(type_at(frame, at), Some(0x0800 | 0x86dd))
}

// The place after a tag, or this one where no tag stands.
fn after_tag(frame: &[u8], at: usize) -> usize
    requires { at ≤ 16 }
    ensures place { result ≡ if is_tag frame.now at then at + 4 else at }
    ensures near { result ≤ at + 4 }
{
    match type_at(frame, at) {
        Some(0x8100 | 0x88a8) => at + 4,
        _ => at,
    }
}

/// What a frame carries after its addresses, two tags at most, and its type: an IP packet.
pub fn payload_of(frame: &[u8]) -> Option<&[u8]>
    ensures { option_map (λ payload. payload.now) result ≡ payload_of frame.now }
{
    // No type of IP is that of a tag, so tags can be passed over first.
    let at = after_tag(frame, after_tag(frame, 12));
    if !is_ip_type(frame, at) {
        return None;
    }
    let (_, payload) = frame.split_at(at + 2);
    Some(payload)
}
