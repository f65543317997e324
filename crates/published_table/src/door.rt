//! The door to a published value: the few lines through which every reading goes.
//!
//! No contract says when a reading is handed back, by the reader or for its age; tests do. Nothing but
//! this module counts one.
ghost use Rattle.std.specs.Prelude.{◌≡◌, ◌≤◌, ◌<◌, ◌⊎◌, ℕ, MatchResult};
ghost use Rattle.amt_ports.specs.Causes.{Rose};
ghost use Rattle.crossbeam_utils.specs.Register.{Turns};
ghost use Rattle.left_right.specs.Sides.{view};
ghost use Rattle.published_table.specs.Doors.{handed_at, handed_in, known_at, known_in, seat_of, value_in};

use crossbeam_utils::rule::{Outcome, Protocol};
use left_right::reader::{Reader, Reading};

/// A value that grows, and tells its size.
pub trait Counted {
    ghost counts: { Self → ℕ };

    fn count(&self) -> u64
        ensures { result ≡ counts self.now };
}

/// A reader outside, and how many readings were handed back to it.
#[derive(Drop)]
pub struct Door<T: Counted + Drop, V, P: Protocol<T, V>> {
    reader: Reader<T, V, P>,
    handed: u64,
}

/// A reader with the value that it reads. End it by `leave`.
pub struct Inside<T: Counted + Drop, V, P: Protocol<T, V>> {
    reading: Reading<T, V, P>,
    handed: u64,
}

impl<T: Counted + Drop, V, P: Protocol<T, V>> Door<T, V, P> {
    /// A door through which nobody went yet.
    pub fn new(reader: Reader<T, V, P>) -> Door<T, V, P>
        ensures seat { seat_of result ≡ reader.place.id }
        ensures known { known_at result ≡ view reader.place }
        ensures handed { handed_at result ≡ 0 }
    {
        Door { reader, handed: 0 }
    }

    /// How many readings were handed back.
    pub fn handed(&self) -> u64
        ensures { result ≡ handed_at self.now }
    {
        self.handed
    }

    fn handed_back(reader: Reader<T, V, P>, handed: u64) -> Door<T, V, P>
        ensures seat { seat_of result ≡ reader.place.id }
        ensures known { known_at result ≡ view reader.place }
        ensures handed { Rose handed (handed_at result) }
    {
        Door {
            reader,
            handed: handed.saturating_add(1),
        }
    }

    /// Takes the value that was published last, once. A value that is smaller than the least that is
    /// wanted is handed back too.
    pub fn enter<M: Outcome<T, V>>(self, least: u64) -> Result<Inside<T, V, P>, Door<T, V, P>>
        requires { Turns P.holds (seat_of self) (known_at self) (λ x. x) M.then }
        ensures { MatchResult result
            (λ inside. (handed_in inside ≡ handed_at self) × (least ≤ T.counts (value_in inside))
            × M.then (known_at self) (value_in inside) (value_in inside) (known_in inside))
            (λ door. Rose (handed_at self) (handed_at door)
            × ((known_at door ≡ known_at self)
            ⊎ ((x : T) × (T.counts x < least) × M.then (known_at self) x x (known_at door)))) }
    {
        let Door { reader, handed } = self;
        match reader.enter_as::<M>() {
            Ok(reading) => {
                if reading.get().count() < least {
                    return Err(Door::handed_back(reading.leave(), handed));
                }
                Ok(Inside { reading, handed })
            }
            Err(reader) => Err(Door::handed_back(reader, handed)),
        }
    }
}

impl<T: Counted + Drop, V, P: Protocol<T, V>> Inside<T, V, P> {
    pub fn get(&self) -> &T
        ensures { result.now ≡ value_in self.now }
    {
        self.reading.get()
    }

    pub fn leave(self) -> Door<T, V, P>
        ensures handed { handed_at result ≡ handed_in self }
        ensures view { known_at result ≡ known_in self }
    {
        let Inside { reading, handed } = self;
        Door {
            reader: reading.leave(),
            handed,
        }
    }
}
