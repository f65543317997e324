//! What a kind of script is to the reader of lines.

ghost use Rattle.std.specs.Prelude.{List, ◌≤◌, length, ◌∷◌, [], OnOk, IfOk, IfErr};
ghost use Rattle.amt_values.specs.Conditions.{First};
ghost use Rattle.script_lines.specs.{Kind.{Kind, IsLawfulKind}, Lines.{fields}, Reading.{Hears, FailsAfter}};

use crate::fault::LineError;
use crate::reason::Reason;
use std::alloc::Global;

/// A kind of script; a value of it is what the lines so far have said.
pub trait ScriptKind: Drop {
    /// What all lines together say.
    type Script: Drop;

    /// What one line says.
    ghost Statement: { Type 0 };

    ghost kind: { Kind Statement Self.Script };

    /// These are the statements that have been said.
    ghost HasHeard: { Self → List Statement → Type 0 };

    /// A value that has heard nothing. The kind must keep the laws that all kinds keep.
    fn start(alloc: Global) -> Self
        ensures heard { HasHeard result [] }
        ensures lawful { IsLawfulKind kind };

    /// Takes a line that says something, by its first field and what follows it. It isn't too long.
    fn take(&mut self, alloc: Global, first: &[u8], rest: &[u8]) -> Result<(), LineError>
        requires { length rest.now ≤ 140000 }
        ensures heard { (past : List Statement) → HasHeard self.old past
            → OnOk result (Hears kind HasHeard past (first.now ∷ fields rest.now) self.new) }
        ensures bad { (past : List Statement) → HasHeard self.old past
            → IfErr result (FailsAfter kind past (first.now ∷ fields rest.now)) };

    /// The script that has been said, or what is wrong with it.
    fn finish(self) -> Result<Self::Script, Reason>
        ensures made { (said : List Statement) → HasHeard self said
            → IfOk result (λ script. kind.Makes said script) }
        ensures bad { (said : List Statement) → HasHeard self said
            → IfErr result (λ reason. First (kind.FailsAtEnd said) kind.order_at_end reason) };
}
