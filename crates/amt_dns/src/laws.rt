//! What the definitions of an answer and of its first fault mean together.

ghost use Rattle.std.specs.Prelude.{◌≡◌, ℕ, List};
ghost use Rattle.amt_dns.specs.{declared.{fault.DnsFault.{DnsFault as DnsFaultValue}, found.Found.{Found as FoundValue}}, Answer.{IsAnswer}, Fault.{IsFirstFault}};

/// Octets are one answer at most, have one first fault at most, and never both, so readers that keep
/// to the definitions can't differ.
pub fn answers_have_one_meaning()
    ensures one { (id : ℕ) (name : List (List ℕ)) (first second : List FoundValue) (bytes : List ℕ)
        → IsAnswer id name first bytes → IsAnswer id name second bytes → first ≡ second }
    ensures one_fault { (id : ℕ) (name : List (List ℕ)) (bytes : List ℕ) (first second : DnsFaultValue)
        → IsFirstFault id name bytes first → IsFirstFault id name bytes second → first ≡ second }
    ensures faultless { (id : ℕ) (name : List (List ℕ)) (found : List FoundValue) (bytes : List ℕ)
        (fault : DnsFaultValue) → IsAnswer id name found bytes → IsFirstFault id name bytes fault → ⊥ }
{}
