//! A filter that records change in place.

ghost use Rattle.std.specs.Prelude.{◌≡◌, IfOk, OnOk, OnErr};
ghost use Rattle.amt_values.specs.{Order.{ip_order}, Ascending.{IsAscending, difference, union}};

use crate::filter::Filter;
use crate::mode::Mode;
use crate::record::{Record, RecordKind};
use amt_values::Ip;
use std::alloc::{AllocError, Global};
use std::collections::BTreeSet;
use std::marker::Model;

/// A filter while records are applied to it.
///
/// Its sources stand in a set, not in a list: a record of one source must not cost a copy of all
/// the others, or a report of many such records would cost the square of their number.
#[derive(Debug, Drop)]
pub struct MutableFilter {
    mode: Mode,
    sources: BTreeSet<Ip>,
}

impl Model for MutableFilter {
    ghost use Rattle.amt_values.specs.{Order.{ip_order}, Ascending.{IsAscending}};
    ghost use Rattle.source_filter.specs.Filter.{FilterValue};

    ghost Value = { FilterValue };

    ghost view = { λ f. record { mode = f.mode; sources = f.sources.keys } };

    ghost invariant = { λ f. IsAscending ip_order f.sources.keys };
}

impl MutableFilter {
    ghost use Rattle.source_filter.specs.{Filter.{ascending_sources, filter_after, nothing, sources_after, wants_any}, declared.record.RecordKind.TheVariants.{Allow, Block}};

    /// Nothing is wanted. It takes no memory.
    pub fn new(alloc: Global) -> Self
        ensures { result ≡ nothing }
    {
        MutableFilter {
            mode: Mode::Include,
            sources: BTreeSet::new(alloc),
        }
    }

    /// An equal filter that records can change.
    pub fn of_filter(alloc: Global, filter: &Filter) -> Result<Self, AllocError>
        ensures { IfOk result (λ copy. copy ≡ filter.now) }
    {
        let mut sources = BTreeSet::new(alloc);
        insert_all(&mut sources, filter.sources())?;
        Ok(MutableFilter {
            mode: filter.mode(),
            sources,
        })
    }

    pub fn mode(&self) -> Mode
        ensures { result ≡ self.now.mode }
    {
        self.mode
    }

    /// The listed sources, ascending.
    pub fn sources(&self, alloc: Global) -> Result<Vec<Ip>, AllocError>
        ensures listed { IfOk result (λ sources. sources.items ≡ self.now.sources) }
        ensures ascending { IfOk result (λ sources. IsAscending ip_order sources.items) }
    {
        let mut listed = Vec::with_capacity(alloc, self.sources.len())?;
        for source in &self.sources {
            listed.push(*source)?;
        }
        Ok(listed)
    }

    /// Whether some source is wanted.
    pub fn wants_any(&self) -> bool
        ensures { result ≡ wants_any self.now }
    {
        match self.mode {
            Mode::Include => !self.sources.is_empty(),
            Mode::Exclude => true,
        }
    }

    /// Applies a group record in place (RFC 3376, section 4.2.12). Where memory runs out, nothing is
    /// wanted any more, so that no half of a record is taken for a whole one.
    pub fn apply(&mut self, group_record: &Record) -> Result<(), AllocError>
        ensures ok { OnOk result (self.new ≡ filter_after self.old group_record.now) }
        ensures err { OnErr result (self.new ≡ nothing) }
    {
        match self.apply_in_place(group_record) {
            Ok(()) => Ok(()),
            Err(error) => {
                let MutableFilter { mode, sources } = self;
                *mode = Mode::Include;
                sources.clear();
                Err(error)
            }
        }
    }

    fn apply_in_place(&mut self, group_record: &Record) -> Result<(), AllocError>
        ensures { OnOk result (self.new ≡ filter_after self.old group_record.now) }
    {
        let listed = group_record.sources.as_slice();
        match group_record.kind {
            RecordKind::IsIn | RecordKind::ToIn => self.set(Mode::Include, listed),
            RecordKind::IsEx | RecordKind::ToEx => self.set(Mode::Exclude, listed),
            RecordKind::Allow => self.allow(listed),
            RecordKind::Block => self.block(listed),
        }
    }

    // A whole filter in the place of the old one.
    fn set(&mut self, mode: Mode, listed: &[Ip]) -> Result<(), AllocError>
        ensures { OnOk result (self.new ≡ record {
          mode = mode;
          sources = ascending_sources listed.now;
        }) }
    {
        self.mode = mode;
        self.sources.clear();
        insert_all(&mut self.sources, listed)
    }

    // These sources are wanted too.
    fn allow(&mut self, listed: &[Ip]) -> Result<(), AllocError>
        ensures { OnOk result (self.new ≡ record self.old {
          sources = sources_after Allow self.old.mode self.old.sources listed.now;
        }) }
    {
        match self.mode {
            Mode::Include => insert_all(&mut self.sources, listed),
            Mode::Exclude => {
                remove_all(&mut self.sources, listed);
                Ok(())
            }
        }
    }

    // These sources are no longer wanted.
    fn block(&mut self, listed: &[Ip]) -> Result<(), AllocError>
        ensures { OnOk result (self.new ≡ record self.old {
          sources = sources_after Block self.old.mode self.old.sources listed.now;
        }) }
    {
        match self.mode {
            Mode::Exclude => insert_all(&mut self.sources, listed),
            Mode::Include => {
                remove_all(&mut self.sources, listed);
                Ok(())
            }
        }
    }
}

// After an error some of them are in.
fn insert_all(sources: &mut BTreeSet<Ip>, listed: &[Ip]) -> Result<(), AllocError>
    requires { IsAscending ip_order sources.old.keys }
    ensures listed { OnOk result (sources.new.keys ≡ union ip_order sources.old.keys listed.now) }
    ensures ascending { IsAscending ip_order sources.new.keys }
{
    for source in listed {
        match sources.insert(*source) {
            Ok(_) => {}
            Err(_) => return Err(AllocError),
        }
    }
    Ok(())
}

fn remove_all(sources: &mut BTreeSet<Ip>, listed: &[Ip])
    requires { IsAscending ip_order sources.old.keys }
    ensures listed { sources.new.keys ≡ difference ip_order sources.old.keys listed.now }
    ensures ascending { IsAscending ip_order sources.new.keys }
{
    for source in listed {
        sources.remove(source);
    }
}
