//! Memberships as they are shown.

ghost use Rattle.std.specs.Prelude.{◌≡◌, [], ◌∷◌, ◌++◌, map, IfOk, OnOk};
ghost use Rattle.endpoint_membership.specs.{Filters.{stored_membership}, Memberships.{row_of}};

use super::StoredMemberships;
use crate::keys::EndpointGroup;
use crate::row::{Row, Rows};
use crate::stored::StoredFilter;
use source_filter::copy_filter;
use std::alloc::{AllocError, Global};

fn row_of(alloc: Global, at: &EndpointGroup, stored: &StoredFilter) -> Result<Row, AllocError>
    ensures { IfOk result (λ row. row ≡ row_of (stored_membership (at.now, stored.now))) }
{
    Ok(Row {
        endpoint: at.endpoint,
        group: at.group,
        filter: copy_filter(alloc, &stored.filter)?,
    })
}

fn push_row(
    alloc: Global,
    all: &mut Rows,
    at: &EndpointGroup,
    stored: &StoredFilter,
) -> Result<(), AllocError>
    ensures { OnOk result
        (all.new ≡ all.old ++ row_of (stored_membership (at.now, stored.now)) ∷ []) }
{
    all.push(row_of(alloc, at, stored)?)?;
    Ok(())
}

impl StoredMemberships {
    /// The memberships as rows, in their order.
    pub fn show(&self, alloc: Global) -> Result<Rows, AllocError>
        ensures { IfOk result (λ all. all ≡ map row_of self.now) }
    {
        let mut all = Rows::new(alloc);
        for at in self.filters.pairs() {
            if let Some(stored) = self.filters.get(at) {
                match push_row(alloc, &mut all, at, stored) {
                    Ok(()) => {}
                    Err(full) => return Err(full),
                }
            }
        }
        Ok(all)
    }
}
