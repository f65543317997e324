//! How many memberships each key counts.

ghost use Rattle.std.specs.Prelude.{◌≡◌, ◌+◌, ◌-◌, ◌<◌, ◌≤◌, ◌^◌, ◌↔◌, IsTrue, [], ◌∷◌, take, None, is_some, true, length, OnOk, OnErr};
ghost use Rattle.amt_values.specs.Ascending.{has};
ghost use Rattle.amt_upstream.specs.{Counting.{AreThere, HasLowered, HasMoved, HasRaised, HasSame, HasSwept, IsClean, IsCleanBesides, Numbers, entry_at, key_order, number, times}, declared.count_key.CountKey.{CountKey as Key}};

use crate::count_key::CountKey;
use std::alloc::{AllocError, Global};
use std::collections::BTreeMap;

/// How many memberships each key counts. At rest no number that is kept is 0.
#[derive(Debug, Drop)]
pub struct Tally {
    pub numbers: BTreeMap<CountKey, usize>,
}

impl Tally {
    pub fn new(alloc: Global) -> Self
        ensures { (key : Key) → entry_at result.numbers key ≡ None }
    {
        Tally {
            numbers: BTreeMap::new(alloc),
        }
    }

    pub fn number(&self, key: &CountKey) -> usize
        ensures { result ≡ number self.now.numbers key.now }
    {
        self.numbers.get(key).copied().unwrap_or(0)
    }

    /// Counts some keys in and others out, and leaves the numbers that come to 0 where they are. Out of
    /// memory nothing changes.
    pub fn count(&mut self, added: &[CountKey], removed: &[CountKey]) -> Result<(), AllocError>
        requires clean { IsClean self.old.numbers }
        requires room { (key : Key) → number self.old.numbers key + length added.now < 2 ^ 64 }
        requires enough { (key : Key) → times key removed.now ≤ number self.old.numbers key }
        ensures moved { OnOk result (HasMoved added.now removed.now self.old.numbers self.new.numbers) }
        ensures zeros { OnOk result (IsCleanBesides removed.now self.new.numbers) }
        ensures present { OnOk result ((key : Key) → has key_order removed.now key ≡ true
            → is_some (entry_at self.new.numbers key) ≡ true) }
        ensures err { OnErr result (HasSame self.old.numbers self.new.numbers) }
    {
        let done = self.add_up(added);
        if done < added.len() {
            self.take_back(&added[..done]);
            return Err(AllocError);
        }
        self.lower(removed);
        Ok(())
    }

    /// Takes back what `count` did. No key that it removed is new, so this takes no memory.
    pub fn restore(&mut self, added: &[CountKey], removed: &[CountKey])
        requires zeros { IsCleanBesides removed.now self.old.numbers }
        requires present { (key : Key) → has key_order removed.now key ≡ true
            → is_some (entry_at self.old.numbers key) ≡ true }
        requires room { (key : Key) → number self.old.numbers key + length removed.now < 2 ^ 64 }
        ensures { (before : Numbers) → IsClean before
            → HasMoved added.now removed.now before self.old.numbers
            → HasSame before self.new.numbers }
    {
        self.add_up(removed);
        self.take_back(added);
    }

    /// Drops the numbers of these keys that came to 0.
    pub fn settle(&mut self, removed: &[CountKey])
        requires { IsCleanBesides removed.now self.old.numbers }
        ensures numbers { (key : Key)
            → number self.new.numbers key ≡ number self.old.numbers key }
        ensures clean { IsClean self.new.numbers }
    {
        for key in removed {
            self.sweep(key);
        }
    }

    // Counts one more of the key. Only one that has no number can be refused, and then nothing changes.
    fn add(&mut self, key: &CountKey) -> Result<(), AllocError>
        requires { number self.old.numbers key.now + 1 < 2 ^ 64 }
        ensures ok { OnOk result (HasRaised (key.now ∷ []) self.old.numbers self.new.numbers) }
        ensures err { OnErr result (HasSame self.old.numbers self.new.numbers) }
        ensures absent { OnErr result (entry_at self.old.numbers key.now ≡ None) }
    {
        // The key is put together anew, since the proof of a call that may give the key back has to
        // see the types of its parts in this body.
        let CountKey { group, counted } = *key;
        let number = self.number(key);
        match self.numbers.insert(CountKey { group, counted }, number + 1) {
            Ok(_) => Ok(()),
            Err(_) => Err(AllocError),
        }
    }

    // Counts keys in, up to a refusal, and says how many of them.
    fn add_up(&mut self, keys: &[CountKey]) -> usize
        requires { (key : Key) → number self.old.numbers key + length keys.now < 2 ^ 64 }
        ensures within { result ≤ length keys.now }
        ensures raised { HasRaised (take result keys.now) self.old.numbers self.new.numbers }
        ensures all { AreThere keys.now self.old.numbers → result ≡ length keys.now }
    {
        for (index, key) in keys.iter().enumerate() {
            match self.add(key) {
                Ok(()) => {}
                Err(_) => return index,
            }
        }
        keys.len()
    }

    // Counts one less of the key, and leaves a 0 where it is.
    fn lower_one(&mut self, key: &CountKey)
        ensures { HasLowered (key.now ∷ []) self.old.numbers self.new.numbers }
    {
        let Some(number) = self.numbers.get_mut(key) else {
            return;
        };
        *number = number.saturating_sub(1);
    }

    // Counts keys out, and leaves each 0 where it is.
    fn lower(&mut self, keys: &[CountKey])
        ensures { HasLowered keys.now self.old.numbers self.new.numbers }
    {
        for key in keys {
            self.lower_one(key);
        }
    }

    // Whether the number of the key is 0, kept or not.
    fn is_at_zero(&self, key: &CountKey) -> bool
        ensures { IsTrue result ↔ (number self.now.numbers key.now ≡ 0) }
    {
        self.number(key) == 0
    }

    // Drops the number of the key if it is 0.
    fn sweep(&mut self, key: &CountKey)
        ensures { HasSwept (key.now ∷ []) self.old.numbers self.new.numbers }
    {
        if self.is_at_zero(key) {
            self.numbers.remove(key);
        }
    }

    // Counts keys out, and drops those of their numbers that come to 0.
    fn take_back(&mut self, keys: &[CountKey])
        requires { IsCleanBesides keys.now self.old.numbers }
        ensures numbers { (key : Key)
            → number self.new.numbers key ≡ number self.old.numbers key - times key keys.now }
        ensures clean { IsClean self.new.numbers }
    {
        self.lower(keys);
        self.settle(keys);
    }
}
