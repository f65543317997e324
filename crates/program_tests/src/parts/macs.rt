//! What a MAC holds of a digest.

use amt_values::Mac48;
use response_mac::{hmac_sha256, leftmost_48_bits};

// The text and the digest are those of RFC 4231, section 4.2.
#[test]
fn a_mac_is_the_first_six_octets_of_the_digest(rt: HostRuntime) {
    let digest = hmac_sha256(&[0x0b; 20], b"Hi There");
    let first = Mac48([0xb0, 0x34, 0x4c, 0x61, 0xd8, 0xdb]);
    assert_eq!(rt; leftmost_48_bits(&digest), first);
}
