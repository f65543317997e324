//! The secrets of a relay, and which MACs are good by them.

ghost use Rattle.std.specs.{Prelude.{◌≡◌, ◌↔◌, ◌≤◌, ◌-◌, ℕ, List, [], ◌∷◌, ◌++◌, take, drop, Some, IsTrue}, List.{list_any}};
ghost use Rattle.response_mac.specs.{declared.secret.Secret.{Secret}, ResponseMac.{IsGood, gives, is_good, mac_of, older_in, same_mac, secrets_after}};

use crate::mac_key::MacKey;
use crate::secret::Secret;
use amt_values::{Endpoint, Mac48};
use std::marker::Model;
use std::mem;

// A relay keeps four secrets at most, the current one among them.
const MOST_OLDER: usize = 3;

/// The newest secrets of a relay, whose response MACs it accepts.
///
/// They are kept in place. Contracts see the secrets and how many of them are kept; a secret that was
/// dropped is in no slot.
#[derive(Debug, Drop)]
pub struct Secrets {
    keep: u32,
    current: MacKey,
    // Newest first.
    older: [Option<MacKey>; MOST_OLDER],
}

impl Model for Secrets {
    ghost use Rattle.response_mac.specs.ResponseMac.{AreSlots, SecretsValue, older_in, slots_of};

    ghost Value = { SecretsValue };

    ghost view = { λ s. record { current = s.current; older = older_in s.older; keep = s.keep } };

    ghost invariant = { λ s. AreSlots s.keep s.older };

    // The slots are those of the older secrets, so nothing is kept beside what contracts see.
    ghost inverse = { λ v. record { keep = v.keep; current = v.current; older = slots_of v.older } };

    ghost inverse_ok = { λ s sound i. record { keep = s.keep; current = s.current; older = sound.back i } };
}

impl Secrets {
    /// The secrets before the first rotation: of the newest ones so many are kept, from 1 to 4.
    ///
    /// A gateway goes on using the last MAC that it was sent. Where one secret is kept, each rotation
    /// makes that MAC bad.
    pub fn new(keep: u32, first: Secret) -> Secrets
        requires some { 1 ≤ keep }
        requires few { keep ≤ 4 }
        ensures { result ≡ secrets_after keep first [] }
    {
        Secrets {
            keep,
            current: MacKey::new(first),
            older: [None, None, None],
        }
    }

    /// The newest secret.
    pub fn current(&self) -> Secret
        ensures { result ≡ self.now.current }
    {
        self.current.secret()
    }

    /// The newest secret as a key, whose pads are hashed already.
    pub fn current_key(&self) -> &MacKey
        ensures { result.now ≡ self.now.current }
    {
        &self.current
    }

    /// Secret rotation (RFC 7450, section 5.3.6): the new secret is the current one, and the oldest is
    /// dropped where there would be too many.
    pub fn rotate(&mut self, new: Secret)
        ensures rotated { self.new ≡ record {
          current = new;
          older = take (self.old.keep - 1) (self.old.current ∷ self.old.older);
          keep = self.old.keep;
        } }
        ensures appended { (keep : ℕ) (first : Secret) (changes : List Secret)
            → self.old ≡ secrets_after keep first changes
            → self.new ≡ secrets_after keep first (changes ++ new ∷ []) }
    {
        let old = mem::replace(&mut self.current, MacKey::new(new));
        push_front(&mut self.older, self.keep as usize - 1, old);
    }

    /// Whether one of the secrets that are kept gives this MAC for the endpoint and the nonce.
    ///
    /// A forged MAC that is right by chance matches too.
    pub fn matches(&self, endpoint: &Endpoint, nonce: u32, mac: &Mac48) -> bool
        ensures good { IsTrue result ↔ IsGood self.now endpoint.now nonce mac.now }
        ensures test { result ≡ is_good self.now endpoint.now nonce mac.now }
    {
        if is_given_by(&self.current, endpoint, nonce, mac) {
            return true;
        }
        is_given_by_some(&self.older, endpoint, nonce, mac)
    }
}

// Puts a key into the first slot, and moves that of each slot in use to the next one.
fn push_front(slots: &mut [Option<MacKey>; MOST_OLDER], used: usize, key: MacKey)
    requires { used ≤ 3 }
    ensures { slots.new ≡ take used (Some key ∷ slots.old) ++ drop used slots.old }
{
    let mut next = Some(key);
    for i in 0..used {
        next = mem::replace(&mut slots[i], next);
    }
}

fn is_given_by_some(
    slots: &[Option<MacKey>; MOST_OLDER],
    endpoint: &Endpoint,
    nonce: u32,
    mac: &Mac48,
) -> bool
    ensures { result ≡ list_any (λ older. gives older endpoint.now nonce mac.now) (older_in slots.now) }
{
    for slot in slots {
        if let Some(key) = slot {
            if is_given_by(key, endpoint, nonce, mac) {
                return true;
            }
        }
    }
    false
}

fn is_given_by(key: &MacKey, endpoint: &Endpoint, nonce: u32, mac: &Mac48) -> bool
    ensures given { IsTrue result ↔ (mac.now ≡ mac_of key.now endpoint.now nonce) }
    ensures test { result ≡ gives key.now endpoint.now nonce mac.now }
{
    is_same(mac, &key.mac(endpoint, nonce))
}

// Each octet is looked at, whatever those before it were: otherwise a forger could tell by the time
// how many octets of a guess are right. No clause speaks of time.
fn is_same(mac: &Mac48, other: &Mac48) -> bool
    ensures same { IsTrue result ↔ (mac.now ≡ other.now) }
    ensures test { result ≡ same_mac mac.now other.now }
{
    let mut difference = 0;
    for i in 0..6 {
        difference |= mac.0[i] ^ other.0[i];
    }
    difference == 0
}
