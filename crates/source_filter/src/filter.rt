//! Filters of one group.

ghost use Rattle.std.specs.Prelude.{◌≡◌, true, false, IfOk};
ghost use Rattle.amt_values.specs.{Order.{ip_order}, declared.address.Ip.{Ip}, Ascending.{IsAscending}};
ghost use Rattle.source_filter.specs.Record.{lists};

use crate::ips::{Ips, ascending_ips, is_among};
use crate::mode::Mode;
use crate::mutable::MutableFilter;
use crate::record::Record;
use amt_values::Ip;
use std::alloc::{AllocError, Global};
use std::marker::Model;

/// What is wanted of one group: a mode and the sources that it speaks of (RFC 3376, section 3.2).
///
/// The sources ascend, and each is listed once, so filters of one mode that want the same sources are
/// equal.
#[derive(Debug, Drop)]
pub struct Filter {
    mode: Mode,
    sources: Ips,
}

impl Model for Filter {
    ghost use Rattle.amt_values.specs.{Order.{ip_order}, Ascending.{IsAscending}};
    ghost use Rattle.source_filter.specs.Filter.{FilterValue};

    ghost Value = { FilterValue };

    ghost view = { λ f. record { mode = f.mode; sources = f.sources } };

    ghost invariant = { λ f. IsAscending ip_order f.sources };

    ghost inverse = { λ v. record { mode = v.mode; sources = v.sources } };
}

impl Filter {
    ghost use Rattle.source_filter.specs.{Filter.{admits, ascending_sources, filter_after}, Record.{says, speaks}};

    /// A filter of these sources, in any order and with any repeats.
    pub fn new(alloc: Global, mode: Mode, sources: &[Ip]) -> Result<Filter, AllocError>
        ensures mode { IfOk result (λ filter. filter.mode ≡ mode) }
        ensures sources { IfOk result (λ filter. filter.sources ≡ ascending_sources sources.now) }
        ensures ascending { IfOk result (λ filter. IsAscending ip_order filter.sources) }
        ensures listed { IfOk result
            (λ filter. (source : Ip) → lists filter.sources source ≡ lists sources.now source) }
    {
        let sources = ascending_ips(Vec::from_slice(alloc, sources)?);
        Ok(Filter { mode, sources })
    }

    // A filter of sources that ascend already.
    pub(crate) fn of_ascending(mode: Mode, sources: Ips) -> Filter
        requires { IsAscending ip_order sources }
        ensures { result ≡ record { mode = mode; sources = sources } }
    {
        Filter { mode, sources }
    }

    pub fn mode(&self) -> Mode
        ensures { result ≡ self.now.mode }
    {
        self.mode
    }

    /// The listed sources, ascending.
    pub fn sources(&self) -> &[Ip]
        ensures listed { result.now ≡ self.now.sources }
        ensures ascending { IsAscending ip_order self.now.sources }
    {
        self.sources.as_slice()
    }

    /// Whether the source is wanted.
    pub fn admits(&self, source: &Ip) -> bool
        ensures { result ≡ admits self.now source.now }
    {
        let listed = is_among(self.sources.as_slice(), source);
        match self.mode {
            Mode::Include => listed,
            Mode::Exclude => !listed,
        }
    }

    /// The filter of a listener after one of its group records: what the record types of RFC 3376,
    /// section 4.2.12, say of it, at once.
    pub fn apply(&self, alloc: Global, change: &Record) -> Result<Filter, AllocError>
        ensures table { IfOk result (λ after. after ≡ filter_after self.now change.now) }
        ensures says { IfOk result
            (λ after. (source : Ip) → speaks change.now source ≡ true
            → admits after source ≡ says change.now source) }
        ensures keeps { IfOk result
            (λ after. (source : Ip) → speaks change.now source ≡ false
            → admits after source ≡ admits self.now source) }
    {
        self.filter_after(alloc, change)
    }

    // The table alone. What `apply` says besides follows from it, whichever cell it was.
    fn filter_after(&self, alloc: Global, change: &Record) -> Result<Filter, AllocError>
        ensures { IfOk result (λ after. after ≡ filter_after self.now change.now) }
    {
        let mut after = MutableFilter::of_filter(alloc, self)?;
        after.apply(change)?;
        Filter::of_mutable(alloc, &after)
    }

    /// The filter that records made.
    pub fn of_mutable(alloc: Global, filter: &MutableFilter) -> Result<Filter, AllocError>
        ensures { IfOk result (λ copy. copy ≡ filter.now) }
    {
        let sources = Ips::from(filter.sources(alloc)?);
        Ok(Filter {
            mode: filter.mode(),
            sources,
        })
    }
}

/// An equal filter that owns its memory.
pub fn copy_filter(alloc: Global, filter: &Filter) -> Result<Filter, AllocError>
    ensures { IfOk result (λ copy. copy ≡ filter.now) }
{
    Ok(Filter {
        mode: filter.mode,
        sources: Ips::copied(alloc, filter.sources.as_slice())?,
    })
}
