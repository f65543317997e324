//! Packets in order, and the Updates by which an endpoint wants them.

use amt_ports::Tried;
use amt_values::{Ip, Peer};

/// 198.51.100.7:5000, where both Updates come from.
pub const ENDPOINT: Peer = Peer {
    ip: Ip::V4(0xc633_6407),
    port: 5000,
};

/// An Update of the endpoint with the nonce 0a0b0c0d, which wants all sources of 239.1.1.1. The octets of the secret
/// are 0; the MAC was computed with Python's hmac module.
pub const UPDATE: [u8; 52] = [
    5, 0, 0x4d, 0xb7, 0x58, 0xa1, 0x75, 0x55, 0x0a, 0x0b, 0x0c, 0x0d, 0x46, 0xc0, 0, 0x28, 0, 0, 0,
    0, 1, 2, 0x39, 0xf8, 0x0a, 0, 0, 2, 0xe0, 0, 0, 0x16, 0x94, 4, 0, 0, 0x22, 0, 0xeb, 0xfb, 0, 0,
    0, 1, 2, 0, 0, 0, 0xef, 1, 1, 1,
];

/// The same for 239.1.1.2.
pub const OTHER_UPDATE: [u8; 52] = [
    5, 0, 0x4d, 0xb7, 0x58, 0xa1, 0x75, 0x55, 0x0a, 0x0b, 0x0c, 0x0d, 0x46, 0xc0, 0, 0x28, 0, 0, 0,
    0, 1, 2, 0x39, 0xf8, 0x0a, 0, 0, 2, 0xe0, 0, 0, 0x16, 0x94, 4, 0, 0, 0x22, 0, 0xeb, 0xfa, 0, 0,
    0, 1, 2, 0, 0, 0, 0xef, 1, 1, 2,
];

// UDP of no octets from 198.51.100.9 to 239.1.1.1.
const PACKET: [u8; 28] = [
    0x45, 0, 0, 0x1c, 0, 0, 0, 0, 4, 0x11, 0x9c, 0x92, 0xc6, 0x33, 0x64, 9, 0xef, 1, 1, 1, 4, 0, 4,
    0, 0, 8, 0, 0,
];

/// The packet with this number for its identification: to 239.1.1.1, and one with an odd number to 239.1.1.2.
pub fn packet(number: u16) -> [u8; 28] {
    let odd = number & 1;
    let [high, low] = number.to_be_bytes();
    let sum = 0x9c92u16.wrapping_sub(number).wrapping_sub(odd);
    let [sum_high, sum_low] = sum.to_be_bytes();
    let mut packet = PACKET;
    packet[4] = high;
    packet[5] = low;
    packet[10] = sum_high;
    packet[11] = sum_low;
    packet[19] = 1 + odd as u8;
    packet
}

/// To which of so many slots it goes: by the sum of 239.1.1.1 and 198.51.100.9, which is 10 in its last six bits, and one
/// more where the number is odd. This many slots divide 64.
pub fn slot_of(number: u16, slots: usize) -> usize {
    let sum = 10 + usize::from(number & 1);
    sum.checked_rem(slots).unwrap_or(0)
}

/// Whether the Multicast Data message that carries the packet was sent to the endpoint.
pub fn is_copy(tried: &Tried, number: u16) -> bool {
    let octets = tried.bytes.as_slice();
    tried.to == ENDPOINT
        && tried.sent
        && octets.len() == 30
        && octets.starts_with(&[6, 0])
        && octets.ends_with(&packet(number))
}
