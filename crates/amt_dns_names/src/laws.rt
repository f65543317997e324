//! What the definition of a name's place means.
ghost use Rattle.std.specs.Prelude.{ℕ, ◌≡◌, List};
ghost use Rattle.amt_dns_names.specs.NameAt.{NameAt};

/// At a place stands one name at most, with one end (RFC 1035, sections 3.1 and 4.1.4), so readers
/// that keep to the definition can't differ.
pub fn places_have_one_name()
    ensures { (bytes : List ℕ) (at : ℕ) (one other : List (List ℕ)) (end last : ℕ)
        → NameAt bytes at one end → NameAt bytes at other last → (one ≡ other) × (end ≡ last) }
{}
