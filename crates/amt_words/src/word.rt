//! A word of the command line, as it was given.

ghost use Rattle.std.specs.Prelude.{◌≡◌};

use std::marker::Model;

/// A word of the command line, as it was given: the name of a file, or a source. Contracts see its bytes.
#[derive(Debug, Drop)]
pub struct Word<'a> {
    word: &'a str,
}

impl<'a> Model for Word<'a> {
    ghost use Rattle.std.specs.Prelude.{ℕ, List};

    ghost Value = { List ℕ };

    ghost view = { λ given. given.word.now };
}

impl<'a> Word<'a> {
    pub(crate) fn of(word: &'a str) -> Word<'a>
        ensures { result ≡ word.entry.now }
    {
        Word { word }
    }

    pub fn as_str(&self) -> &'a str
        ensures { result.now ≡ self.now }
    {
        self.word
    }
}

impl<'a> PartialEq for Word<'a> {
    ghost use Rattle.std.{specs.{Str.{bytes_eq}, Cmp.{partial_equiv_from_equiv}}, proofs.lemmas.Cmp.{nat_list_eq_equiv}};

    ghost eq = { bytes_eq };

    ghost laws = { partial_equiv_from_equiv nat_list_eq_equiv };

    fn eq(&self, other: &Word<'a>) -> bool {
        self.word == other.word
    }
}

impl<'a> Eq for Word<'a> {
    ghost use Rattle.std.proofs.lemmas.Cmp.{nat_list_eq_equiv};

    ghost laws = { nat_list_eq_equiv };
}
