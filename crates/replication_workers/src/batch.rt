//! Values in order that are handed on one by one: unlike other lists they can be taken out again. It must
//! not know what they are.

use std::alloc::Global;
use std::marker::Model;

/// Values in order, of which contracts see the list. Spare room is all that they don't see.
#[derive(Drop)]
pub struct Batch<T> {
    items: Vec<T>,
}

impl<T> Model for Batch<T> {
    ghost use Rattle.std.specs.Prelude.{List};

    ghost Value = { List T };

    ghost view = { λ batch. batch.items.items };
}

impl<T: Drop> Batch<T> {
    ghost use Rattle.std.specs.Prelude.{◌≡◌, [], ◌∷◌, ◌++◌, length, IfErr, OnErr, OnOk};

    /// No value. It takes no memory.
    pub fn new(alloc: Global) -> Self
        ensures { result ≡ [] }
    {
        Batch {
            items: Vec::new(alloc),
        }
    }

    pub fn as_slice(&self) -> &[T]
        ensures { result.now ≡ self.now }
    {
        self.items.as_slice()
    }

    pub fn len(&self) -> usize
        ensures { result ≡ length self.now }
    {
        self.items.len()
    }

    /// Puts the value at the end. Without memory it comes back.
    pub fn push(&mut self, value: T) -> Result<(), T>
        ensures ok { OnOk result (self.new ≡ self.old ++ value ∷ []) }
        ensures err { OnErr result (self.new ≡ self.old) }
        ensures back { IfErr result (λ back. back ≡ value) }
    {
        match self.items.push(value) {
            Ok(()) => Ok(()),
            Err(failed) => Err(failed.value),
        }
    }

    /// The values with all their room.
    pub fn into_items(self) -> Vec<T>
        ensures { result.items ≡ self }
    {
        let Batch { items } = self;
        items
    }
}

impl<T> From<Vec<T>> for Batch<T> {
    ghost use Rattle.std.specs.Prelude.{◌≡◌};

    ghost from_gives = { λ items batch. batch ≡ items.items };

    fn from(items: Vec<T>) -> Batch<T> {
        Batch { items }
    }
}
