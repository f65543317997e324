//! What is given back.
ghost use Rattle.std.specs.Prelude.{◌≡◌, ◌<◌, [], OnErr, OnOk};
ghost use Rattle.serving_commands.specs.MemLive.{with_room, with_set};

use std::alloc::{AllocError, Global};
use std::marker::Model;

/// The sets that were given back, with room for those that are to come back: a return must not fail, so
/// its memory is taken when the set is handed out.
#[derive(Drop)]
pub(crate) struct Returns<T> {
    sets: Vec<T>,
    room: usize,
}

impl<T> Model for Returns<T> {
    ghost use Rattle.std.specs.Prelude.{◌≤◌, ◌+◌, vec_capacity, vec_len};
    ghost use Rattle.serving_commands.specs.MemLive.{Returned};

    ghost Value = { Returned T };

    ghost view = { λ returns. record { sets = returns.sets.items; room = returns.room } };

    ghost invariant = { λ returns. vec_len returns.sets + returns.room ≤ vec_capacity returns.sets };
}

impl<T: Drop> Returns<T> {
    pub(crate) fn new(alloc: Global) -> Self
        ensures sets { result.sets ≡ [] }
        ensures room { result.room ≡ 0 }
    {
        Returns {
            sets: Vec::new(alloc),
            room: 0,
        }
    }

    pub(crate) fn as_slice(&self) -> &[T]
        ensures { result.now ≡ self.now.sets }
    {
        self.sets.as_slice()
    }

    /// Takes the memory for one set more.
    pub(crate) fn make_room(&mut self) -> Result<(), AllocError>
        ensures ok { OnOk result (self.new ≡ with_room self.old) }
        ensures err { OnErr result (self.new ≡ self.old) }
    {
        let Some(room) = self.room.checked_add(1) else {
            return Err(AllocError);
        };
        self.sets.reserve(room)?;
        self.room = room;
        Ok(())
    }

    /// Keeps the set, in the room that was made for it.
    pub(crate) fn keep(&mut self, set: T)
        requires { 0 < self.old.room }
        ensures { self.new ≡ with_set self.old set }
    {
        self.room -= 1;
        let _ = self.sets.push(set);
    }
}
