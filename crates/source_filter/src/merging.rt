//! The one filter of an interface for all its sockets.

ghost use Rattle.std.specs.{Prelude.{◌≡◌, [], ◌∷◌, ◌++◌, Some, IfOk, IfSome, OnOk}, List.{list_any}, Option.{option_to_list}};
ghost use Rattle.amt_values.specs.{Order.{ip_order}, declared.address.Ip.{Ip}, Ascending.{IsAscending}};
ghost use Rattle.source_filter.specs.{Filter.{admits}, Merging.{exclude_list, exclude_lists, include_list, include_lists, intersection_of, all_sources, merged, union_of}};

use crate::filter::Filter;
use crate::ips::{Ips, ascending_ips, difference, intersection};
use crate::mode::Mode;
use amt_values::Ip;
use std::alloc::{AllocError, Global};

/// The filter that admits what some of these filters admits, as an interface has it for the filters
/// of its sockets (RFC 3376, section 3.2).
pub fn merge(alloc: Global, filters: &[Filter]) -> Result<Filter, AllocError>
    ensures value { IfOk result (λ filter. filter ≡ merged filters.now) }
    ensures admits { IfOk result (λ filter. (source : Ip)
        → admits filter source ≡ list_any (λ one. admits one source) filters.now) }
{
    merged_filter(alloc, filters)
}

// The merged filter alone. What it admits follows from it.
fn merged_filter(alloc: Global, filters: &[Filter]) -> Result<Filter, AllocError>
    ensures { IfOk result (λ filter. filter ≡ merged filters.now) }
{
    let included = included_sources(alloc, filters)?;
    match excluded_sources(alloc, filters)? {
        None => Ok(Filter::of_ascending(Mode::Include, included)),
        Some(excluded) => {
            let left = difference(alloc, excluded.as_slice(), included.as_slice())?;
            Ok(Filter::of_ascending(Mode::Exclude, left))
        }
    }
}

// The sources that some filter in INCLUDE mode lists.
fn included_sources(alloc: Global, filters: &[Filter]) -> Result<Ips, AllocError>
    ensures value { IfOk result (λ included. included ≡ union_of (include_lists filters.now)) }
    ensures ascending { IfOk result (IsAscending ip_order) }
{
    let mut included = Vec::new(alloc);
    for filter in filters {
        append_included(filter, &mut included)?;
    }
    Ok(ascending_ips(included))
}

// Puts those at the end that this filter lists, where it is in INCLUDE mode.
fn append_included(filter: &Filter, included: &mut Vec<Ip>) -> Result<(), AllocError>
    ensures { OnOk result (included.new.items
        ≡ included.old.items ++ all_sources (include_list filter.now.mode filter.now.sources)) }
{
    match filter.mode() {
        Mode::Include => included.extend_from_slice(filter.sources()),
        Mode::Exclude => Ok(()),
    }
}

// The sources that each filter in EXCLUDE mode lists, where there is one.
fn excluded_sources(alloc: Global, filters: &[Filter]) -> Result<Option<Ips>, AllocError>
    ensures value { IfOk result
        (λ excluded. excluded ≡ intersection_of (exclude_lists filters.now)) }
    ensures ascending { IfOk result (λ excluded. IfSome excluded (IsAscending ip_order)) }
{
    let mut excluded = None;
    for filter in filters {
        excluded = still_excluded(alloc, excluded, filter)?;
    }
    Ok(excluded)
}

// The excluded sources after one more filter.
fn still_excluded(
    alloc: Global,
    excluded: Option<Ips>,
    filter: &Filter,
) -> Result<Option<Ips>, AllocError>
    requires { IfSome excluded (IsAscending ip_order) }
    ensures value { IfOk result (λ after. after ≡ intersection_of
        (option_to_list excluded ++ exclude_list filter.now.mode filter.now.sources)) }
    ensures ascending { IfOk result (λ after. IfSome after (IsAscending ip_order)) }
{
    match filter.mode() {
        Mode::Include => Ok(excluded),
        Mode::Exclude => Ok(Some(common_sources(alloc, excluded, filter.sources())?)),
    }
}

// Those of the excluded sources that this list has too; where none were excluded before, all of it.
fn common_sources(alloc: Global, excluded: Option<Ips>, sources: &[Ip]) -> Result<Ips, AllocError>
    requires before { IfSome excluded (IsAscending ip_order) }
    requires sources { IsAscending ip_order sources.now }
    ensures value { IfOk result
        (λ after. Some after ≡ intersection_of (option_to_list excluded ++ sources.now ∷ [])) }
    ensures ascending { IfOk result (IsAscending ip_order) }
{
    match excluded {
        None => Ips::copied(alloc, sources),
        Some(excluded) => intersection(alloc, excluded.as_slice(), sources),
    }
}
