//! A run over the items of a script, and what is written of it. It knows no item, and sinks by their trait alone.

ghost use Rattle.std.specs.{Prelude.{ℕ, List, [], ◌∷◌, ◌++◌, OnOk, OnErr}, Io.KnownBytes.{Appends}};
ghost use Rattle.script_lines.specs.{Counting.{CountsWrites}, Running.{After, MayRun, MayTake, script_text}, Texts.{closing_text}, Writing.{WritesPrefix, WritesUpTo}};

use crate::fault::RunFault;
use crate::held::write_held;
use crate::text::append_closing;
use amt_ports::Sink;
use amt_values::Bytes;
use std::alloc::Global;

/// What takes the items of a script one by one, and writes what each comes to.
pub trait ScriptRun: Drop {
    type Item;

    /// What a run begins with.
    ghost Start: { Type 0 };

    /// From such a start these items lead to the value.
    ghost IsAfter: { Self → Start → List Self.Item → Type 0 };

    /// The item may come in a run with such a start.
    ghost MayCome: { Start → Self.Item → Type 0 };

    /// The text of an item of this number, after those before it.
    ghost text_of: { Start → List Self.Item → ℕ → Self.Item → List ℕ };

    /// Takes one item. Its text goes after what is held, and is written where that is much.
    fn write_item<O: Sink>(
        &mut self,
        alloc: Global,
        number: u64,
        item: &Self::Item,
        held: &mut Bytes,
        out: &mut O,
    ) -> Result<(), RunFault>
        requires { MayTake IsAfter MayCome self.old item.now }
        ensures done { After IsAfter self.old (λ start before.
            OnOk result (WritesUpTo (O.written out.old) (O.written out.new)
            (held.old ++ text_of start before number item.now) held.new)) }
        ensures begun { After IsAfter self.old (λ start before.
            OnErr result (WritesPrefix (O.written out.old) (O.written out.new)
            (held.old ++ text_of start before number item.now))) }
        ensures next { After IsAfter self.old (λ start before.
            OnOk result (IsAfter self.new start (before ++ item.now ∷ []))) }

        ensures counts { CountsWrites (O.faults out.old) (O.faults out.new) result };
}

// The last line, and all that is held before it.
fn write_end<O: Sink>(count: u64, held: &mut Bytes, out: &mut O) -> Result<(), RunFault>
    ensures done { OnOk result (Appends (O.written out.old) (O.written out.new)
        (held.old ++ closing_text count)) }
    ensures begun { OnErr result (WritesPrefix (O.written out.old) (O.written out.new)
        (held.old ++ closing_text count)) }
    ensures counts { CountsWrites (O.faults out.old) (O.faults out.new) result }
{
    let Ok(()) = append_closing(held, count) else {
        return Err(RunFault::Memory);
    };
    write_held(held, out)
}

/// Takes all items of a script, and writes its text.
pub fn run_script<R: ScriptRun, O: Sink>(
    alloc: Global,
    runner: R,
    items: &[R::Item],
    out: &mut O,
) -> Result<(), RunFault>
    requires { MayRun R.IsAfter R.MayCome runner items.now }
    ensures done { (start : R.Start) → R.IsAfter runner start []
        → OnOk result (Appends (O.written out.old) (O.written out.new) (script_text (R.text_of start) items.now)) }
    ensures begun { (start : R.Start) → R.IsAfter runner start []
        → OnErr result (WritesPrefix (O.written out.old) (O.written out.new) (script_text (R.text_of start) items.now)) }
    ensures counts { CountsWrites (O.faults out.old) (O.faults out.new) result }
{
    let mut running = runner;
    let mut held = Bytes::new(alloc);
    for (index, item) in items.iter().enumerate() {
        match running.write_item(alloc, index as u64 + 1, item, &mut held, out) {
            Ok(()) => {}
            Err(fault) => return Err(fault),
        }
    }
    write_end(items.len() as u64, &mut held, out)
}
