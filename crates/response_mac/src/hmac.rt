//! HMAC with SHA-256.

ghost use Rattle.std.specs.Prelude.{◌≡◌, ◌-◌, ◌≤◌, ℕ, List, ◌++◌, length, map, replicate, bit_xor};
ghost use Rattle.sha2.specs.Hashers.{Holds256};
ghost use Rattle.response_mac.specs.Hmac.{block_octets, hmac_of, ipad, key_block, opad, padded_key};

use sha2::{Digest, Sha256};

// The definitions in specs/ have numbers of their own, so a slip in one of these is refused.
const BLOCK_OCTETS: usize = 64;

const INNER_PAD: u8 = 0x36;

const OUTER_PAD: u8 = 0x5c;

/// HMAC with SHA-256 (RFC 2104).
///
/// A short key and itself with zeros after are one key, and so are a key above 64 octets and its
/// digest: let no peer choose keys.
pub fn hmac_sha256(key: &[u8], message: &[u8]) -> [u8; 32]
    ensures { result ≡ hmac_of key.now message.now }
{
    let (inner, outer) = pad_states(key);
    digest_after_pads(inner, outer, message)
}

/// SHA-256 after the key with the inner pad, and after the key with the outer pad: all that HMAC
/// needs of a key (RFC 2104, section 4).
pub fn pad_states(key: &[u8]) -> (Sha256, Sha256)
    ensures inner { Holds256 result.0 (padded_key key.now ipad) }
    ensures outer { Holds256 result.1 (padded_key key.now opad) }
{
    let block = key_block(key);
    (
        Sha256::new_with_prefix(&padded_block(&block, INNER_PAD)),
        Sha256::new_with_prefix(&padded_block(&block, OUTER_PAD)),
    )
}

/// HMAC of the key whose two states these are.
#[tactic(auto, unfolding(crate::specs::Hmac::hmac_of))]
pub fn digest_after_pads(inner: Sha256, outer: Sha256, message: &[u8]) -> [u8; 32]
    ensures { (key : List ℕ) → Holds256 inner (padded_key key ipad) → Holds256 outer (padded_key key opad)
        → result ≡ hmac_of key message.now }
{
    let inner_digest = inner.chain_update(message).finalize();
    outer.chain_update(&inner_digest).finalize()
}

fn key_block(key: &[u8]) -> [u8; BLOCK_OCTETS]
    ensures { result ≡ key_block key.now }
{
    if key.len() > BLOCK_OCTETS {
        block_of(&Sha256::digest(key))
    } else {
        block_of(key)
    }
}

// The octets, and zeros up to a block.
fn block_of(octets: &[u8]) -> [u8; BLOCK_OCTETS]
    requires { length octets.now ≤ block_octets }
    ensures { result ≡ octets.now ++ replicate (block_octets - length octets.now) 0 }
{
    let mut block = [0; BLOCK_OCTETS];
    let (start, _) = block.split_at_mut(octets.len());
    start.copy_from_slice(octets);
    block
}

// Each octet combined with the pad.
fn padded_block(block: &[u8; BLOCK_OCTETS], pad: u8) -> [u8; BLOCK_OCTETS]
    ensures { result ≡ map (λ octet. bit_xor octet pad) block.now }
{
    let mut octets = *block;
    for octet in octets.iter_mut() {
        *octet ^= pad;
    }
    octets
}
