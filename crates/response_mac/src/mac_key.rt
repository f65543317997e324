//! A secret as the key of the response MAC.

ghost use Rattle.std.specs.Prelude.{◌≡◌, Some, codes};
ghost use Rattle.response_mac.specs.ResponseMac.{mac_of};

use crate::hmac::{digest_after_pads, pad_states};
use crate::response::{authenticated_octets, leftmost_48_bits};
use crate::secret::Secret;
use amt_values::{Endpoint, Mac48};
use sha2::Sha256;
use std::fmt;
use std::marker::Model;

/// A secret with the states of SHA-256 after its two pads.
///
/// They are computed once, so that each MAC costs two blocks of SHA-256 and not four (RFC 2104,
/// section 4). Contracts see the secret alone, which says what they hold.
#[derive(Drop)]
pub struct MacKey {
    secret: Secret,
    inner: Sha256,
    outer: Sha256,
}

impl Model for MacKey {
    ghost use Rattle.sha2.specs.Hashers.{Holds256};
    ghost use Rattle.response_mac.specs.{declared.secret.Secret.{Secret}, Hmac.{ipad, opad, padded_key}};

    ghost Value = { Secret };

    ghost view = { λ key. key.secret };

    ghost invariant = { λ key. Holds256 key.inner (padded_key key.secret.0 ipad)
        × Holds256 key.outer (padded_key key.secret.0 opad) };
}

impl MacKey {
    pub fn new(secret: Secret) -> MacKey
        ensures { result ≡ secret }
    {
        let (inner, outer) = pad_states(&secret.0);
        MacKey {
            secret,
            inner,
            outer,
        }
    }

    /// The secret that it is made of.
    pub fn secret(&self) -> Secret
        ensures { result ≡ self.now }
    {
        self.secret
    }

    /// The response MAC that a relay sends to an endpoint in answer to its request.
    #[tactic(auto, unfolding(crate::specs::ResponseMac::mac_of))]
    pub fn mac(&self, endpoint: &Endpoint, nonce: u32) -> Mac48
        ensures { result ≡ mac_of self.now endpoint.now nonce }
    {
        let octets = authenticated_octets(endpoint, nonce);
        let digest = digest_after_pads(copy_of(&self.inner), copy_of(&self.outer), &octets);
        leftmost_48_bits(&digest)
    }
}

// The states are as good as the secret: whoever has them can make its MACs.
impl fmt::Debug for MacKey {
    ghost debug_output = { λ _. Some (codes "MacKey(..)") };

    fn fmt<W: fmt::Write>(&self, f: &mut fmt::Formatter<W>) -> fmt::Result {
        f.write_str("MacKey(..)")
    }
}

// The clone of a state takes no memory, so it cannot fail.
fn copy_of(state: &Sha256) -> Sha256
    ensures { result ≡ state.now }
{
    match state.clone() {
        Ok(copy) => copy,
        Err(_) => unreachable!(),
    }
}
