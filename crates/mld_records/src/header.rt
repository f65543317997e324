//! The pseudo-header of an MLD message.

ghost use Rattle.std.specs.Prelude.{◌≡◌};
ghost use Rattle.mld_records.specs.PseudoHeader.{pseudo_header};

use byteorder::{BigEndian, ByteOrder};

// The number of ICMPv6 as a next header (RFC 4443, section 1).
const ICMPV6: u8 = 58;

// The pseudo-header of an MLD message of so many octets: it is summed before the message, and not sent.
#[tactic(auto, unfolding(crate::specs::PseudoHeader::pseudo_header))]
pub fn pseudo_header(source: u128, destination: u128, message_length: u32) -> [u8; 40]
    ensures { result ≡ pseudo_header source destination message_length }
{
    let mut header = [0; 40];
    BigEndian::write_u128(&mut header, source);
    BigEndian::write_u128(&mut header[16..], destination);
    BigEndian::write_u32(&mut header[32..], message_length);
    header[39] = ICMPV6;
    header
}
