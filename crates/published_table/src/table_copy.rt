//! One of the two copies of the published table.
ghost use Rattle.std.specs.Prelude.{◌≡◌, ◌%◌, ◌^◌, [], length, IfOk};
ghost use Rattle.endpoint_membership.specs.Table.{Holds};
ghost use Rattle.published_table.specs.{Entries.{with_entry}, Logs.{entries}, Terms.{AreLawfulTerms, settings_by}};

use crate::door::Counted;
use crate::entry::{CopyState, Entry};
use crate::history::Bookmark;
use crate::past::Past;
use crate::terms::Terms;
use endpoint_membership::Table;
use left_right::Absorb;
use std::alloc::{AllocError, Global};

/// A table, and the log that it represents: of the log, the number of its entries is kept, and nothing
/// else.
#[derive(Drop)]
pub struct TableCopy {
    alloc: Global,
    pub table: Table,
    pub terms: Terms,
    /// How many entries the log has.
    pub count: u64,
    pub past: Past,
    pub bookmark: Bookmark,
    ghost stands: { ∥ Holds (settings_by terms) table (entries past) ∥₁ },
    ghost counted: { count ≡ length (entries past) % 2 ^ 64 },
}

impl TableCopy {
    /// A table by no entry.
    pub fn new(alloc: Global, terms: Terms, bookmark: Bookmark) -> Result<TableCopy, AllocError>
        requires { AreLawfulTerms terms }
        ensures log { IfOk result (λ copy. entries copy.past ≡ []) }
        ensures terms { IfOk result (λ copy. copy.terms ≡ terms) }
        ensures bookmark { IfOk result (λ copy. copy.bookmark ≡ bookmark) }
    {
        Ok(TableCopy {
            alloc,
            table: Table::new(alloc, terms.limits, terms.lifetime_ms)?,
            terms,
            count: 0,
            past: Past::Empty,
            bookmark,
        })
    }
}

impl Absorb<Entry> for TableCopy {
    type State = CopyState;

    ghost state = { λ copy. record { log = entries copy.past; bookmark = copy.bookmark; terms = copy.terms } };

    ghost applied = { with_entry };

    fn absorb_first(&mut self, operation: &Entry, _other: &TableCopy) -> Result<(), AllocError> {
        self.table.absorb(self.alloc, &operation.change)?;
        self.count = self.count.wrapping_add(1);
        self.past = self.past.then(&operation.change);
        self.bookmark = operation.bookmark.again();
        Ok(())
    }
}

impl Counted for TableCopy {
    ghost counts = { λ copy. copy.count };

    fn count(&self) -> u64 {
        self.count
    }
}
