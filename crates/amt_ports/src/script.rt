//! Values that a device in memory gives one after the other.
ghost use Rattle.std.specs.Prelude.{◌≡◌, [], Some, drop};
ghost use Rattle.amt_ports.specs.{Scripted.{head_or}, Told.{Appends}};

use std::marker::Model;

/// The values of a list, and after them one value without end.
///
/// The values that were given are told until their number stands at the last value of a counter.
#[derive(Debug, Drop)]
pub(crate) struct Scripted<T> {
    values: Vec<T>,
    last: T,
    given: u64,
}

impl<T> Model for Scripted<T> {
    ghost use Rattle.std.specs.Prelude.{drop};
    ghost use Rattle.amt_ports.specs.Scripted.{Script, given_of};

    ghost Value = { Script T };

    ghost view = { λ s. record { coming = drop s.given s.values.items; last = s.last; given = given_of s.given s.values.items s.last } };
}

impl<T: Copy> Scripted<T> {
    pub(crate) fn new(values: Vec<T>, last: T) -> Self
        ensures coming { result.coming ≡ values.items }
        ensures last { result.last ≡ last }
        ensures given { result.given ≡ Some [] }
    {
        Scripted {
            values,
            last,
            given: 0,
        }
    }

    pub(crate) fn next(&mut self) -> T
        ensures value { result ≡ head_or self.old.last self.old.coming }
        ensures coming { self.new.coming ≡ drop 1 self.old.coming }
        ensures last { self.new.last ≡ self.old.last }
        ensures given { Appends self.old.given self.new.given result }
    {
        let next = value_at(self.values.as_slice(), self.given, self.last);
        self.given = self.given.saturating_add(1);
        next
    }
}

// The value at this place, or the last one without end.
fn value_at<T: Copy>(values: &[T], place: u64, last: T) -> T
    ensures { result ≡ head_or last (drop place values.now) }
{
    match values.get(place as usize) {
        Some(value) => *value,
        None => last,
    }
}
