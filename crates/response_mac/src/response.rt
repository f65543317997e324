//! The response MAC of one secret.

ghost use Rattle.std.specs.Prelude.{◌≡◌};
ghost use Rattle.response_mac.specs.ResponseMac.{authenticated_octets, leftmost_48_bits, mac_of};

use crate::mac_key::MacKey;
use crate::secret::Secret;
use amt_values::{Endpoint, Mac48};
use byteorder::{BigEndian, ByteOrder};

/// The response MAC that a relay sends to an endpoint in answer to its request.
///
/// RFC 7450, section 5.3.5, leaves its computation to the relay.
pub fn mac(secret: &Secret, endpoint: &Endpoint, nonce: u32) -> Mac48
    ensures { result ≡ mac_of secret.now endpoint.now nonce }
{
    MacKey::new(*secret).mac(endpoint, nonce)
}

// Each part has a fixed length, so that no two requests have the same octets.
pub fn authenticated_octets(endpoint: &Endpoint, nonce: u32) -> [u8; 22]
    ensures { result ≡ authenticated_octets endpoint.now nonce }
{
    let mut octets = [0; 22];
    BigEndian::write_u128(&mut octets, endpoint.address());
    BigEndian::write_u16(&mut octets[16..], endpoint.port());
    BigEndian::write_u32(&mut octets[18..], nonce);
    octets
}

/// What a response MAC holds of a digest: its first 48 bits.
///
/// RFC 2104, section 5, recommends half of the digest, which is 128 bits; the field of RFC 7450,
/// section 5.1.4.6, has 48.
pub fn leftmost_48_bits(digest: &[u8; 32]) -> Mac48
    ensures { result ≡ leftmost_48_bits digest.now }
{
    let mut octets = [0; 6];
    octets.copy_from_slice(&digest[..6]);
    Mac48(octets)
}
